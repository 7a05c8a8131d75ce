// The entries, in order of the first trace's lines and then of the second's (rules 22.1 and 22.12).
ghost use Rattle.std.specs.Prelude.{[], ◌+◌, ◌*◌, ◌≤◌, ◌<◌, length, get_or, take};
ghost use Rattle.line.specs.Promise.{Appends};
ghost use Rattle.trace_compare.specs.Entries.{numbers_of, at_first, line_by_line};
ghost use Rattle.trace_compare.specs.Traces.{first_trace, second_trace};
ghost use Rattle.trace_compare_code.specs.Rows.{entry_room, line_room};
ghost use Rattle.trace_compare_code.specs.Lines.{datagram_lines, KeptTrace};
ghost use Rattle.trace_compare_code.specs.Inner.{PutsFirst, second_row, second_rows};

use crate::differing::put_entry;
use crate::pairing::{count_of, find_kth};
use crate::texts::put_pair;
use trace_compare::Entry;

// Writes what is listed for line i of the first trace.
fn put_first(
    first: &[u8],
    a: &[u16],
    from: &[usize],
    second: &[u8],
    b: &[u16],
    to: &[usize],
    i: usize,
    list: &mut [u16],
    at: usize,
) -> usize
    requires kept_trace { KeptTrace first.now (datagram_lines first_trace first.now) a.now from.now }
    requires kept_trace_2 { KeptTrace second.now (datagram_lines second_trace second.now) b.now to.now }
    requires i_in_bounds { i < length a.now }
    requires line_room_in_bounds { at + line_room ≤ length list.old }
    ensures { PutsFirst (datagram_lines first_trace first.now) (datagram_lines second_trace second.now)
        i list.old at list.new result }
{
    let number = a[i];
    let k = count_of(&a[..i], number);
    let j = find_kth(b, number, k);
    if j < b.len() {
        put_pair(number, first, from[i], second, to[j], list, at)
    } else {
        put_entry(list, at, number, Entry::ONLY_FIRST)
    }
}

// Writes what is listed for all lines of the first trace, in order.
pub fn list_first(
    first: &[u8],
    a: &[u16],
    from: &[usize],
    second: &[u8],
    b: &[u16],
    to: &[usize],
    list: &mut [u16],
) -> usize
    requires kept_trace { KeptTrace first.now (datagram_lines first_trace first.now) a.now from.now }
    requires kept_trace_2 { KeptTrace second.now (datagram_lines second_trace second.now) b.now to.now }
    requires a_in_bounds { line_room * length a.now ≤ length list.old }
    ensures { Appends (numbers_of (line_by_line at_first [] (datagram_lines first_trace first.now)
        (datagram_lines second_trace second.now))) list.old 0 list.new result }
{
    let mut at = 0;
    for i in 0..a.len() {
        at = put_first(first, a, from, second, b, to, i, list, at);
    }
    at
}

// Writes what is listed for line j of the second trace: nothing if it pairs, since its pair is listed with the first trace.
fn put_second(a: &[u16], b: &[u16], j: usize, list: &mut [u16], at: usize) -> usize
    requires j_in_bounds { j < length b.now }
    requires entry_room_in_bounds { at + entry_room ≤ length list.old }
    ensures { Appends (second_row a.now (take j b.now) (get_or b.now j 0)) list.old at
        list.new result }
{
    let number = b[j];
    let k = count_of(&b[..j], number);
    let all = count_of(a, number);
    if k < all {
        at
    } else {
        put_entry(list, at, number, Entry::ONLY_SECOND)
    }
}

// Writes what is listed for all lines of the second trace, behind what is listed for the first (rule 22.12).
pub fn list_second(a: &[u16], b: &[u16], list: &mut [u16], from: usize) -> usize
    requires { from + entry_room * length b.now ≤ length list.old }
    ensures { Appends (second_rows a.now [] b.now) list.old from list.new result }
{
    let mut at = from;
    for j in 0..b.len() {
        at = put_second(a, b, j, list, at);
    }
    at
}
