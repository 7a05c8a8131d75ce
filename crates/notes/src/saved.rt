// Which numbers spares and parity saved, and from how far ahead: each is written as it leaves, and counted (rules 19.1 to 19.3).
use crate::text::{say, say_number};
use session_held::{Counts, ReleaseKind};
use std::io::Write;

// The greatest distance that has a row of its own.
const FURTHEST: usize = 32;

// A count for each distance; the first is for datagrams that are not 1 to 32 ahead of the number that they filled (rule 19.3).
const ROWS: usize = FURTHEST + 1;

// The counts of spares, then those of parity.
pub const SAVED: usize = 2 * ROWS;

// How far ahead of a number the datagram is that filled it; 0 if that is not 1 to 32.
fn ahead(number: u16, note: u16) -> usize {
    let distance = usize::from(note.wrapping_sub(number));
    if distance <= FURTHEST { distance } else { 0 }
}

// The end of a line: the datagram that filled the number.
fn say_filler<W: Write>(output: &mut W, how: &[u8], note: u16) {
    say(output, how);
    say_number(output, usize::from(note));
    say(output, b"\n");
}

// Counts one more number: the rows of spares begin at 0, those of parity behind them.
fn count(first: usize, number: u16, note: u16, table: &mut [u32; SAVED]) {
    let row = first.wrapping_add(ahead(number, note)) % SAVED;
    table[row] = table[row].wrapping_add(1);
}

// Writes the line of a number that leaves (rule 19.1).
pub fn told<W: Write>(
    output: &mut W,
    kind: ReleaseKind,
    number: u16,
    note: u16,
    table: &mut [u32; SAVED],
) {
    say(output, b"number ");
    say_number(output, usize::from(number));
    match kind {
        ReleaseKind::Lost => say(output, b": lost\n"),
        ReleaseKind::Received => say(output, b": received\n"),
        ReleaseKind::Spare => {
            say_filler(output, b": spare, from datagram ", note);
            count(0, number, note, table);
        }
        ReleaseKind::Repaired => {
            say_filler(output, b": repaired, with datagram ", note);
            count(ROWS, number, note, table);
        }
    }
}

fn say_count<W: Write>(output: &mut W, name: &[u8], n: u32) {
    say(output, name);
    let _ = write!(output, "{n}");
}

// What a row begins with: its distance, or `behind` for the first one.
fn say_place<W: Write>(output: &mut W, row: usize) {
    if row == 0 {
        say(output, b"behind");
    } else {
        say(output, b"distance ");
        say_number(output, row);
    }
}

// A row of the table, if it is not zero: how many numbers spares and parity saved from that distance.
fn say_row<W: Write>(output: &mut W, row: usize, table: &[u32; SAVED]) {
    let place = row % ROWS;
    let spares = table[place];
    let parity = table[place + ROWS];
    if spares == 0 && parity == 0 {
        return;
    }
    say_place(output, place);
    say_count(output, b": spares ", spares);
    say_count(output, b", parity ", parity);
    say(output, b"\n");
}

// The rows from distance 1 on.
fn say_rows<W: Write>(output: &mut W, table: &[u32; SAVED]) {
    for row in 1..ROWS {
        say_row(output, row, table);
    }
}

// The end of the trace: how many numbers spares and parity saved, and the table (rule 19.2).
pub fn say_report<W: Write>(output: &mut W, counts: Counts, table: &[u32; SAVED]) {
    say_count(output, b"\nsaved by spares ", counts.spare);
    say_count(output, b", by parity ", counts.repaired);
    say(output, b"\n");
    say_rows(output, table);
    say_row(output, 0, table);
}
