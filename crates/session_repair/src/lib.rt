// Repair of a receiving session (rules 11.1 to 11.4). These functions serve callers inside this repository: they require that the session
// is within its ranges.
#![tactic(auto)]

mod searching;

ghost use Rattle.std.specs.Prelude.{◌≡◌, ◌<◌, ◌≤◌, true, length};
ghost use Rattle.datagram.specs.Sizes.{packet_limit, messages_limit};
ghost use Rattle.session.specs.Cells.{kept_ahead};
ghost use Rattle.session.specs.Repair.{usable};
ghost use Rattle.session_held.specs.Slots.{kept_octets};
ghost use Rattle.session_held.specs.Table.{places, cells_of};
ghost use Rattle.session_repair.specs.Back.{Summed};
ghost use Rattle.session_repair.specs.Promise.{AskedOctets, Points, MayMend, Fills, Mends, message_held, m_at, message_size_at};

use datagram::{Packet, Parity};
use searching::{Usable, back, first_usable, narrow};
use session_held::Session;

// Adds the octets of the n numbers x - m, x - 2m, .. to sum by exclusive or, as many of each as sum has.
fn add_members(octets: &[u8], x: u16, n: usize, m: u16, sum: &mut [u8])
    requires octets_len { length octets.now ≡ kept_octets }
    requires sum_len_bound { length sum.old ≤ packet_limit }
    ensures { Summed octets.now x n m sum.old sum.new }
{
    let mut at = x;
    for _ in 0..n {
        at = back(at, m);
        session_slots::add(octets, session_held::kept_slot(at), sum);
    }
}

// How many octets message `index` of the number at a distance has.
fn size_of(base: u16, table: &[u16], distance: u16, index: usize) -> usize
    requires table_len { length table.now ≡ places }
    requires index_lt_messages_limit { index < messages_limit }
    ensures { result ≡ message_size_at base table.now distance index }
{
    let slot = session_held::heard_slot(base.wrapping_add(distance));
    session_held::message_size_at(table, slot * Parity::MESSAGES + index)
}

// The exclusive or of a message and its known members over the first `width` octets: what the message requires of its unknown members
// together (rule 14.1). The width is the message's size to fill one unknown member (rule 11.3), and a packet's limit to solve for several.
pub fn asked(
    base: u16,
    table: &[u16],
    octets: &[u8],
    messages: &[u8],
    distance: u16,
    index: usize,
    width: usize,
) -> [u8; Packet::LIMIT]
    requires may_mend { MayMend base table.now octets.now messages.now }
    requires distance_lt_kept_ahead { distance < kept_ahead }
    requires index_lt_messages_limit { index < messages_limit }
    requires index_bound { index < m_at base table.now distance }
    requires width_le_packet_limit { width ≤ packet_limit }
    ensures { AskedOctets base table.now octets.now messages.now distance index width result }
{
    let at = base.wrapping_add(distance);
    let slot = session_held::heard_slot(at);
    let n = session_held::n_at(table, slot);
    let m = narrow(session_held::m_at(table, slot));
    let place = slot * Parity::MESSAGES + index;
    let size = session_held::message_size_at(table, place);
    let mut sum = [0u8; Packet::LIMIT];
    session_slots::copy_out(messages, place, size, &mut sum);
    let first = at.wrapping_add(narrow(index));
    add_members(octets, first, n, m, &mut sum[..width]);
    sum
}

// Uses one usable message: its unknown member becomes repaired (rule 11.3), and its note is the number of the datagram being offered (rule
// 9.8).
fn fill(base: u16, table: &mut [u16], octets: &mut [u8], messages: &[u8], found: Usable, note: u16)
    requires may_mend { MayMend base table.old octets.old messages.now }
    requires points { Points base table.old found.distance found.index found.slot }
    requires index_value { usable (cells_of base table.old octets.old) (message_held base table.old messages.now found.distance found.index) ≡ true }
    ensures { Fills note base table.old octets.old messages.now found.distance found.index table.new
        octets.new }
{
    let Usable {
        distance,
        index,
        slot,
    } = found;
    let size = size_of(base, table, distance, index);
    let sum = asked(base, table, octets, messages, distance, index, size);
    session_slots::put(octets, slot, &sum[..size]);
    session_held::set_kept(table, slot, Session::REPAIRED, narrow(size), note);
}

// Repairs until no message is usable (rule 11.4). The note of each fill is the number of the datagram being offered (rule 9.8).
pub fn mend(
    base: u16,
    table: &mut [u16; Session::PLACES],
    octets: &mut [u8; Session::PACKET_OCTETS],
    messages: &[u8; Session::MESSAGE_OCTETS],
    note: u16,
)
    requires { MayMend base table.old octets.old messages.now }
    ensures { Mends note base table.old octets.old messages.now table.new
        octets.new }
{
    for _ in 0..Session::KEPT {
        let Some(found) = first_usable(base, table) else {
            return;
        };
        fill(base, table, octets, messages, found, note);
    }
}
