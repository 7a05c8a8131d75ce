// Stores a number that was read in its slots of a session. The table and the stores hold zeros there, as in every slot of a number not read
// yet.
ghost use Rattle.std.specs.Prelude.{◌≡◌, ◌+◌, ◌<◌, length};
ghost use Rattle.datagram.specs.Sizes.{message_least, message_limit};
ghost use Rattle.datagram.specs.Claims.{PartInside};
ghost use Rattle.session_slots.specs.Store.{HasSlot};
ghost use Rattle.session.specs.Cells.{kept_before, kept_ahead};
ghost use Rattle.session_held.specs.Slots.{slots_kept, slots_heard, slots_messages, message_octets};
ghost use Rattle.session_held.specs.Table.{places, heard_set};
ghost use Rattle.image.specs.Layout.{from_base};
ghost use Rattle.image_reader.specs.Laying.{PartLaid, KeptLaid, MessageLaid, MessagesFit, MessagesLaid, LineFits, LaysNumber};
ghost use Rattle.image_reader.specs.Laying.{Lengths};

use crate::number::Number;
use datagram::{Parity, Part};
use session_held::Session;

// Copies the octets of a part of the line s to the front of a slot, and returns how many they are.
fn put_part(octets: &mut [u8], slot: usize, s: &[u8], part: Part) -> u16
    requires has_slot { HasSlot slot octets.old }
    requires part_inside { PartInside message_least message_limit s.now part }
    ensures { PartLaid slot s.now part octets.old octets.new result }
{
    let end = part.start + part.size;
    session_slots::put(octets, slot, &s[part.start..end]);
    part.size as u16
}

// A kept number.
fn lay_kept(
    table: &mut [u16],
    octets: &mut [u8],
    slot: usize,
    s: &[u8],
    packet: Part,
    state: u16,
    note: u16,
)
    requires table_len { length table.old ≡ places }
    requires slot_lt_slots_kept { slot < slots_kept }
    requires has_slot { HasSlot slot octets.old }
    requires part_inside { PartInside message_least message_limit s.now packet }
    ensures { KeptLaid slot state note s.now packet table.old octets.old table.new
        octets.new }
{
    let size = put_part(octets, slot, s, packet);
    session_held::set_kept(table, slot, state, size, note);
}

// A message.
fn lay_message(table: &mut [u16], messages: &mut [u8], slot: usize, s: &[u8], part: Part)
    requires table_len { length table.old ≡ places }
    requires slot_lt_slots_messages { slot < slots_messages }
    requires has_slot { HasSlot slot messages.old }
    requires part_inside { PartInside message_least message_limit s.now part }
    ensures { MessageLaid slot s.now part table.old messages.old table.new
        messages.new }
{
    let size = put_part(messages, slot, s, part);
    session_held::set_message_size(table, slot, size);
}

// The messages of the number in slot j of those from the base on, as their line was read: an array with room for the most, and how many
// there are.
fn lay_messages(
    table: &mut [u16],
    messages: &mut [u8],
    j: usize,
    s: &[u8],
    parts: [Part; Parity::MESSAGES],
    count: usize,
)
    requires table_len { length table.old ≡ places }
    requires messages_len { length messages.old ≡ message_octets }
    requires j_lt_slots_heard { j < slots_heard }
    requires messages_fit { MessagesFit s.now parts count }
    ensures { MessagesLaid j s.now parts count table.old messages.old table.new
        messages.new }
{
    let at = j * Parity::MESSAGES;
    for i in 0..count {
        lay_message(table, messages, at + i, s, parts[i]);
    }
}

// The mark, n and m of a number from the base on, as the line has them: they may be outside the ranges (rule 20.17).
fn set_held(table: &mut [u16], j: usize, mark: u16, n: u16, m: u16)
    requires table_len { length table.old ≡ places }
    requires j_lt_slots_heard { j < slots_heard }
    ensures { table.new ≡ heard_set table.old j mark n m }
{
    table[Session::MARKS + j] = mark;
    table[Session::NS + j] = n;
    table[Session::MS + j] = m;
}

// The place in the view of the k-th number before the base, or from the base on.
fn place_of(ahead: bool, k: usize) -> usize
    requires { k < kept_ahead }
    ensures { result ≡ from_base ahead kept_before + k }
{
    if ahead { Session::BEFORE + k } else { k }
}

// The k-th number before the base, or from the base on; s is its line.
pub fn lay(
    base: u16,
    ahead: bool,
    k: usize,
    s: &[u8],
    number: Number,
    table: &mut [u16],
    octets: &mut [u8],
    messages: &mut [u8],
)
    requires k_lt_kept_ahead { k < kept_ahead }
    requires line_fits { LineFits ahead s.now number }
    requires lengths { Lengths table.old octets.old messages.old }
    ensures { LaysNumber base ahead k s.now number table.old octets.old messages.old
        table.new octets.new messages.new }
{
    let first = base as usize;
    let place = place_of(ahead, k);
    let slot = (first + Session::BEFORE + place) % Session::KEPT;
    lay_kept(
        table,
        octets,
        slot,
        s,
        number.packet,
        number.state,
        number.note,
    );
    if ahead {
        let j = (first + k) % Session::HEARD;
        let parts = number.parts;
        lay_messages(table, messages, j, s, parts, usize::from(number.m));
        set_held(table, j, number.mark, number.n, number.m);
    }
}
