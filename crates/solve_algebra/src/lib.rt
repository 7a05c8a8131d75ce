// Elimination over a table of 128 rows (rules 1.16 and 30.6). A row has some of 64 columns, and is the exclusive or of some of 128
// equations. Elimination takes the table by value, swaps rows and combines them. These functions are for callers inside this repository:
// they require that a place is in the table.
#![tactic(auto)]

mod masks;

ghost use Rattle.std.specs.Prelude.{◌≡◌, ◌≤◌, ◌<◌};
ghost use Rattle.solve_algebra.specs.Rows.{columns, table_rows};
ghost use Rattle.solve_algebra.specs.Promise.{RowStarted, SourceTold, RowsCombined, PivotFound, RowsSwapped, RowCleared};
ghost use Rattle.solve_algebra.specs.Promise.{ColumnCleared, Eliminates};

pub use masks::{Mask, first_place, lone_place, one, places_back};

// A sum of equations: its columns, and the equations in it, those below 64 in `low` and the others in `high`.
#[derive(Drop)]
#[derive(Clone, Copy)]
pub struct Row {
    pub mask: u64,
    pub low: u64,
    pub high: u64,
}

impl Row {
    pub const COUNT: usize = 128;

    pub fn count() -> usize
        ensures { result ≡ table_rows }
    {
        Row::COUNT
    }

    // Equation e as a row: its columns, and e alone in the sum.
    pub fn start(mask: u64, e: u64) -> Row
        requires { e < table_rows }
        ensures { RowStarted mask e result }
    {
        if e < Mask::PLACES {
            Row {
                mask,
                low: masks::one(e),
                high: 0,
            }
        } else {
            Row {
                mask,
                low: 0,
                high: masks::one(e - Mask::PLACES),
            }
        }
    }

    // Whether equation e is in the row's sum.
    pub fn has_source(self, e: u64) -> bool
        requires { e < table_rows }
        ensures { SourceTold self e result }
    {
        if e < Mask::PLACES {
            masks::has(self.low, e)
        } else {
            masks::has(self.high, e - Mask::PLACES)
        }
    }

    // The exclusive or of two rows.
    fn combined(self, other: Row) -> Row
        ensures { RowsCombined self other result }
    {
        Row {
            mask: self.mask ^ other.mask,
            low: self.low ^ other.low,
            high: self.high ^ other.high,
        }
    }
}

// The first row from `from` on that has the column; 128 if none has it.
fn pivot(rows: &[Row; Row::COUNT], from: usize, column: u64) -> usize
    requires column_lt_columns { column < columns }
    requires from_le_table_rows { from ≤ table_rows }
    ensures { PivotFound rows.now from column result }
{
    for i in from..Row::COUNT {
        if masks::has(rows[i].mask, column) {
            return i;
        }
    }
    Row::COUNT
}

// Two rows swapped.
fn swapped(rows: [Row; Row::COUNT], a: usize, b: usize) -> [Row; Row::COUNT]
    requires a_lt_table_rows { a < table_rows }
    requires b_lt_table_rows { b < table_rows }
    ensures { RowsSwapped rows a b result }
{
    let mut next = rows;
    next.swap(a, b);
    next
}

// A row with the column removed by combining it with the row that keeps the column, which itself is unchanged.
fn cleared_row(row: Row, own: Row, column: u64, keeps: bool) -> Row
    requires { column < columns }
    ensures { RowCleared row own column keeps result }
{
    if !keeps && masks::has(row.mask, column) {
        row.combined(own)
    } else {
        row
    }
}

// The table with the column removed from every row but the one at `at`, by combining with that row.
fn cleared(rows: [Row; Row::COUNT], at: usize, column: u64) -> [Row; Row::COUNT]
    requires column_lt_columns { column < columns }
    requires at_lt_table_rows { at < table_rows }
    ensures { ColumnCleared rows at column result }
{
    let own = rows[at];
    let mut next = rows;
    for (i, row) in rows.iter().enumerate() {
        next[i] = cleared_row(*row, own, column, i == at);
    }
    next
}

// The reduced table: every row is empty or has a column that no other row has, and the same values satisfy it (rule 30.6).
pub fn reduced(rows: [Row; Row::COUNT]) -> [Row; Row::COUNT]
    ensures { Eliminates rows result }
{
    let mut table = rows;
    let mut rank = 0;
    for column in 0..Mask::PLACES {
        let at = pivot(&table, rank, column);
        if at < Row::COUNT {
            table = cleared(swapped(table, at, rank), rank, column);
            rank += 1;
        }
    }
    table
}
