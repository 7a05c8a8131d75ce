// What a session keeps of an accepted datagram: its packet and its spares, where their numbers are still unknown (rules 10.6 and 10.7), and
// its mark, n and messages (rule 10.10). These functions serve callers inside this repository: they require that what the datagram carries
// is within the sizes. They count nothing: a number is counted as it is released (rule 12.13). Items come as the datagram
// reader returns them: an array with room for the most items, and how many there are.
ghost use Rattle.std.specs.Prelude.{◌≡◌, ◌<◌, true, length};
ghost use Rattle.datagram.specs.Sizes.{packet_least, packet_limit, message_least, message_limit};
ghost use Rattle.datagram.specs.Claims.{PartInside};
ghost use Rattle.datagram.specs.Read.{octets_of};
ghost use Rattle.session_slots.specs.Store.{HasSlot};
ghost use Rattle.session.specs.Ranges.{is_fill, note_right};
ghost use Rattle.session_held.specs.Slots.{slots_heard, kept_octets, message_octets};
ghost use Rattle.session_held.specs.Table.{places, state_numbered};
ghost use Rattle.session_offer.specs.KeepSteps.{PartPut, Fit, ItemsLaid};
ghost use Rattle.session_offer.specs.KeepPromise.{MayKeep, CarriesSpares, Keeps, KeepsSpares, CarriesMessages, MayHold, Holds};

use datagram::{Parity, Part, Spares};
use session_held::Session;

// Writes the octets of a part of the datagram s to the front of a slot, and returns how many they are.
fn put_part(octets: &mut [u8], slot: usize, s: &[u8], part: Part) -> u16
    requires has_slot { HasSlot slot octets.old }
    requires part_inside { PartInside message_least message_limit s.now part }
    ensures { PartPut slot s.now part octets.old octets.new result }
{
    session_slots::put(octets, slot, &s[part.start..part.start + part.size]);
    part.size as u16
}

// Keeps a packet, which is a part of the datagram s, at its number as received or spare, if that number is still unknown (rule 10.7). Its
// note is the number of the datagram (rule 9.5).
pub fn keep(
    table: &mut [u16],
    octets: &mut [u8],
    number: u16,
    state: u16,
    note: u16,
    s: &[u8],
    part: Part,
)
    requires table_len { length table.old ≡ places }
    requires octets_len { length octets.old ≡ kept_octets }
    requires may_keep { MayKeep number 0 table.old octets.old }
    requires state_value { is_fill (state_numbered state) ≡ true }
    requires number_value { note_right (state_numbered state) note number ≡ true }
    requires part_inside { PartInside packet_least packet_limit s.now part }
    ensures { Keeps note state number (octets_of s.now part) table.old octets.old table.new
        octets.new }
{
    let slot = session_held::kept_slot(number);
    if session_held::is_known(table, slot) {
        return;
    }
    let size = put_part(octets, slot, s, part);
    session_held::set_kept(table, slot, state, size, note);
}

// Keeps the spares of the datagram s with that number, its first `count` items, each at the number before the last (rules 4.5 and 10.7).
pub fn keep_spares(
    table: &mut [u16],
    octets: &mut [u8],
    number: u16,
    s: &[u8],
    items: [Part; Spares::LIMIT],
    count: usize,
)
    requires table_len { length table.old ≡ places }
    requires octets_len { length octets.old ≡ kept_octets }
    requires may_keep { MayKeep number count table.old octets.old }
    requires carries_spares { CarriesSpares s.now items count }
    ensures { KeepsSpares number s.now items count table.old octets.old table.new
        octets.new }
{
    let mut at = number;
    for j in 0..count {
        at = at.wrapping_sub(1);
        keep(table, octets, at, Session::SPARE, number, s, items[j]);
    }
}

// Writes the first `count` items, which are parts of the datagram s, and their sizes to the message slots of the number in slot j of those
// from the base on.
fn lay(
    table: &mut [u16],
    messages: &mut [u8],
    s: &[u8],
    j: usize,
    items: [Part; Spares::LIMIT],
    count: usize,
)
    requires table_len { length table.old ≡ places }
    requires messages_len { length messages.old ≡ message_octets }
    requires j_lt_slots_heard { j < slots_heard }
    requires fit { Fit s.now items count }
    ensures { ItemsLaid s.now j items count table.old messages.old table.new
        messages.new }
{
    let at = j * Parity::MESSAGES;
    for i in 0..count {
        let size = put_part(messages, at + i, s, items[i]);
        session_held::set_message_size(table, at + i, size);
    }
}

// Marks the number at a distance from the base, which is known, as accepted, and keeps its n and messages (rule 10.10): the first `count`
// items, which are parts of the datagram s. With spares there are no messages, and n is 0.
pub fn hold(
    base: u16,
    table: &mut [u16],
    messages: &mut [u8],
    s: &[u8],
    distance: u16,
    n: usize,
    items: [Part; Spares::LIMIT],
    count: usize,
)
    requires may_hold { MayHold base table.old messages.old distance }
    requires carries_messages { CarriesMessages s.now distance n items count }
    ensures { Holds base distance s.now n items count table.old messages.old table.new
        messages.new }
{
    let slot = session_held::heard_slot(base.wrapping_add(distance));
    let covered = n as u16;
    let m = count as u16;
    session_held::set_heard(table, slot, covered, m);
    lay(table, messages, s, slot, items, count);
}
