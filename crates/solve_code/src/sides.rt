// What each equation asks for (rule 14.1), and what a row asks for, which is the exclusive or of several equations.
ghost use Rattle.std.specs.Prelude.{◌≡◌, ◌<◌, length};
ghost use Rattle.solve_algebra.specs.Rows.{table_rows};
ghost use Rattle.session_held.specs.Slots.{message_octets};
ghost use Rattle.session_repair.specs.Promise.{MayMend};
ghost use Rattle.solve_code.specs.Steps.{SideTold, SidesLaid, RowSummed};

use datagram::{Packet, Parity};
use session_held::Session;
use solve_algebra::Row;

// What equation e asks for: the exclusive or of the message and its known members; zeros if there is no such message.
fn side(base: u16, table: &[u16], octets: &[u8], messages: &[u8], e: usize) -> [u8; Packet::LIMIT]
    requires may_mend { MayMend base table.now octets.now messages.now }
    requires e_lt_table_rows { e < table_rows }
    ensures { SideTold base table.now octets.now messages.now e result }
{
    let distance = e / Parity::MESSAGES;
    let index = e % Parity::MESSAGES;
    let near = distance as u16;
    let slot = session_held::heard_slot(base.wrapping_add(near));
    if index < session_held::m_at(table, slot) {
        session_repair::asked(base, table, octets, messages, near, index, Packet::LIMIT)
    } else {
        [0u8; Packet::LIMIT]
    }
}

// What all equations ask for, in order, 256 octets each.
pub fn sides(
    base: u16,
    table: &[u16],
    octets: &[u8],
    messages: &[u8],
    all: &mut [u8; Session::MESSAGE_OCTETS],
)
    requires { MayMend base table.now octets.now messages.now }
    ensures { SidesLaid base table.now octets.now messages.now all.new }
{
    for e in 0..Row::COUNT {
        session_slots::put(all, e, &side(base, table, octets, messages, e));
    }
}

// What a row asks for: the exclusive or of what its equations ask for.
pub fn row_sum(all: &[u8], row: Row) -> [u8; Packet::LIMIT]
    requires { length all.now ≡ message_octets }
    ensures { RowSummed all.now row result }
{
    let mut sum = [0u8; Packet::LIMIT];
    for e in 0..Row::COUNT {
        if row.has_source(e as u64) {
            session_slots::add(all, e, &mut sum);
        }
    }
    sum
}
