// Two traces as texts. The entries are gathered in a local list that is large enough for any two traces, and then copied to the caller's
// list if they fit (rules 22.16 and 22.19).
ghost use Rattle.std.specs.Prelude.{◌≡◌, ◌≤◌, length};
ghost use Rattle.trace_compare.specs.Traces.{lines_limit, first_trace, second_trace};
ghost use Rattle.trace_compare.specs.Promise.{Compares};
ghost use Rattle.trace_compare_code.specs.Lines.{datagram_lines, KeptTrace};
ghost use Rattle.trace_compare_code.specs.Inner.{RefusedNowhere, ListsAll, too_many};

use crate::listing::{list_first, list_second};
use crate::reading::{count_lines, read_trace};
use length::{Reason, Refusal};
use trace_compare::{Entry, Trace, TraceRefusal};

// At most three entries for a line of the first trace, and one for a line of the second (rule 22.19).
const MOST: usize = 4 * Entry::SIZE * Trace::LINES;

// A refusal that belongs to no line (rule 22.15).
fn no_line(reason: Reason) -> TraceRefusal
    ensures { RefusedNowhere reason result }
{
    TraceRefusal {
        why: Refusal::new(reason),
        trace: Trace::NONE,
        line: 0,
    }
}

// Lists the entries of two traces that were read, and returns how many there are; 13 if they do not fit.
fn list_all(
    first: &[u8],
    a: &[u16],
    from: &[usize],
    second: &[u8],
    b: &[u16],
    to: &[usize],
    list: &mut [u16],
) -> Result<usize, TraceRefusal>
    requires kept_trace { KeptTrace first.now (datagram_lines first_trace first.now) a.now from.now }
    requires kept_trace_2 { KeptTrace second.now (datagram_lines second_trace second.now) b.now to.now }
    requires a_len_bound { length a.now ≤ lines_limit }
    requires b_len_bound { length b.now ≤ lines_limit }
    ensures { ListsAll (datagram_lines first_trace first.now) (datagram_lines second_trace second.now)
        list.old list.new result }
{
    let mut found = [0u16; MOST];
    let end = list_first(first, a, from, second, b, to, &mut found);
    let size = list_second(a, b, &mut found, end);
    if list.len() < size {
        return Err(no_line(Reason::NoRoom));
    }
    list[..size].copy_from_slice(&found[..size]);
    Ok(size / Entry::SIZE)
}

// Whether one of the traces has too many lines (rules 1.15 and 22.14).
fn too_many(first: &[u8], second: &[u8]) -> bool
    ensures { result ≡ too_many first.now second.now }
{
    Trace::LINES < count_lines(first) || Trace::LINES < count_lines(second)
}

// Compares two traces, writes the entries to the front of the caller's list, and returns how many there are. The order of refusals is 22,
// the first trace's, the second's, 13 (rules 22.1, 22.2 and 22.14 to 22.16).
pub fn compare(first: &[u8], second: &[u8], list: &mut [u16]) -> Result<usize, TraceRefusal>
    ensures { Compares first.now second.now list.old list.new result }
{
    if too_many(first, second) {
        return Err(no_line(Reason::TooManyLines));
    }
    let mut a = [0u16; Trace::LINES];
    let mut from = [0usize; Trace::LINES];
    let m = read_trace(Trace::FIRST, first, &mut a, &mut from)?;
    let mut b = [0u16; Trace::LINES];
    let mut to = [0usize; Trace::LINES];
    let n = read_trace(Trace::SECOND, second, &mut b, &mut to)?;
    list_all(first, &a[..m], &from, second, &b[..n], &to, list)
}
