// The held messages as a table of 128 rows (rule 1.16): row e has the unknown members of equation e, which is message e % 4 of the number
// at distance e / 4. Only the session's table is read, not its octets. These functions are for callers inside this repository: they require
// that n and m are within the sizes.
ghost use Rattle.std.specs.Prelude.{◌≡◌, ◌<◌, length};
ghost use Rattle.solve_algebra.specs.Masks as masks;
ghost use Rattle.solve_algebra.specs.Rows.{table_rows};
ghost use Rattle.session_held.specs.Table.{places};
ghost use Rattle.session_repair.specs.Promise.{Searchable};
ghost use Rattle.solve_code.specs.RowsPromise.{OneUnless, UnknownMade, EquationMade, TableLaid};

use datagram::Parity;
use session_held::Session;
use solve_algebra::Row;

// The mask of a place, or no place if it is known.
fn one_unless(known: bool, place: u64) -> u64
    requires { place < masks.mask_places }
    ensures { OneUnless known place result }
{
    if known { 0 } else { solve_algebra::one(place) }
}

// Which places of the view are unknown.
fn unknown_places(base: u16, table: &[u16]) -> u64
    requires { length table.now ≡ places }
    ensures { UnknownMade base table.now result }
{
    let mut mask: u64 = 0;
    for p in 0..Session::KEPT {
        let near = (p + Session::BEFORE) as u16;
        let slot = session_held::kept_slot(base.wrapping_add(near));
        let known = session_held::is_known(table, slot);
        mask ^= one_unless(known, p as u64);
    }
    mask
}

// The unknown members of equation e (rule 4.12); none if there is no such message.
fn equation_mask(base: u16, table: &[u16], unknown: u64, e: usize) -> u64
    requires searchable { Searchable table.now }
    requires e_lt_table_rows { e < table_rows }
    ensures { EquationMade base table.now unknown e result }
{
    let distance = e / Parity::MESSAGES;
    let index = e % Parity::MESSAGES;
    let slot = session_held::heard_slot(base.wrapping_add(distance as u16));
    let count = session_held::m_at(table, slot);
    if index < count {
        let covered = session_held::n_at(table, slot);
        let from = distance + Session::BEFORE + index;
        solve_algebra::places_back(from as u64, covered as u64, count as u64) & unknown
    } else {
        0
    }
}

// The table of all equations.
pub fn table(base: u16, table: &[u16]) -> [Row; Row::COUNT]
    requires { Searchable table.now }
    ensures { TableLaid base table.now result }
{
    let unknown = unknown_places(base, table);
    let nothing = Row {
        mask: 0,
        low: 0,
        high: 0,
    };
    let mut rows = [nothing; Row::COUNT];
    for e in 0..Row::COUNT {
        let mask = equation_mask(base, table, unknown, e);
        rows[e] = Row::start(mask, e as u64);
    }
    rows
}
