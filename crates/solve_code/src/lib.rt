// Solving (rules 14.1 to 14.8), for losses that no single message can repair: what the equations ask for, whether some octets satisfy them,
// and the fills, over the memory of a session. These functions are for callers inside this repository: they require a session within its
// ranges, which the public call checks (refusal 17, rule 14.7), and keep it within them.
#![tactic(auto)]

mod equations;
mod sides;

ghost use Rattle.std.specs.Prelude.{◌≡◌, length};
ghost use Rattle.session_held.specs.Slots.{message_octets};
ghost use Rattle.session_held.specs.Table.{lent};
ghost use Rattle.session_held.specs.Laid.{InRanges};
ghost use Rattle.solve_code.specs.Steps.{RowTold, RowsTold, MayFill, RowFills, RowsFill};
ghost use Rattle.solve_code.specs.Promise.{Solving};

use datagram::{Packet, Part};
use length::{Reason, Refusal};
use session_held::{Counts, Session};
use sides::{row_sum, sides};
use solve_algebra::{Mask, Row};

// Whether a row has columns, or asks for nothing.
fn row_fits(all: &[u8], row: Row) -> bool
    requires { length all.now ≡ message_octets }
    ensures { RowTold all.now row result }
{
    if solve_algebra::first_place(row.mask) < Mask::PLACES {
        return true;
    }
    session_slots::all_zero(&row_sum(all, row), 0)
}

// Whether some octets satisfy all equations: no row without columns asks for something (rule 14.6).
fn all_fit(all: &[u8], rows: [Row; Row::COUNT]) -> bool
    requires { length all.now ≡ message_octets }
    ensures { RowsTold all.now rows result }
{
    let mut ok = true;
    for row in &rows {
        ok &= row_fits(all, *row);
    }
    ok
}

// Fills the only number of a row with what the row asks for, if the number is still unknown (rules 14.2 and 14.3).
fn fill_row(base: u16, table: &mut [u16], octets: &mut [u8], all: &[u8], row: Row)
    requires may_fill { MayFill base table.old octets.old }
    requires all_len { length all.now ≡ message_octets }
    ensures { RowFills base all.now row table.old octets.old table.new
        octets.new }
{
    let place = solve_algebra::lone_place(row.mask);
    if place < Mask::PLACES {
        let sum = row_sum(all, row);
        let first = base.wrapping_sub(Session::BEFORE as u16);
        let number = first.wrapping_add(place as u16);
        let part = Part {
            start: 0,
            size: Packet::LIMIT,
        };
        session_offer::keep(table, octets, number, Session::REPAIRED, 0, &sum, part);
    }
}

// Fills every number that the reduced table determines.
fn fill_rows(base: u16, table: &mut [u16], octets: &mut [u8], all: &[u8], rows: [Row; Row::COUNT])
    requires may_fill { MayFill base table.old octets.old }
    requires all_len { length all.now ≡ message_octets }
    ensures { RowsFill base all.now rows table.old octets.old table.new
        octets.new }
{
    for row in &rows {
        fill_row(base, table, octets, all, *row);
    }
}

// Fills the unknown numbers for which the equations and the known octets allow only one value (rule 14.2), or refuses with 23 (rule 14.6).
// Base, counts and messages are unchanged (rule 14.8).
pub fn solve_core(
    base: u16,
    counts: Counts,
    table: &mut [u16; Session::PLACES],
    octets: &mut [u8; Session::PACKET_OCTETS],
    messages: &[u8; Session::MESSAGE_OCTETS],
) -> Result<(), Refusal>
    requires { InRanges (lent base counts table.old octets.old messages.now) }
    ensures { Solving (lent base counts table.old octets.old messages.now)
        (lent base counts table.new octets.new messages.now) result }
{
    let rows = equations::table(base, table);
    let reduced = solve_algebra::reduced(rows);
    let mut all = [0u8; Session::MESSAGE_OCTETS];
    sides(base, table, octets, messages, &mut all);
    if !all_fit(&all, reduced) {
        return Err(Refusal::new(Reason::NoSolution));
    }
    fill_rows(base, table, octets, &all, reduced);
    Ok(())
}
