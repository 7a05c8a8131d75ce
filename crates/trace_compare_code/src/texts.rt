// The differences of two lines that are known to hold datagrams of one number. Only lines whose texts differ are read again (rule 22.18).
ghost use Rattle.std.specs.Prelude.{◌≡◌, true, ◌+◌, ◌≤◌, length};
ghost use Rattle.datagram.specs.Sizes.{datagram_limit};
ghost use Rattle.line.specs.Promise.{Appends};
ghost use Rattle.trace_compare.specs.Traces.{datagram_in};
ghost use Rattle.length.specs.Answers.{is_done};
ghost use Rattle.trace_compare_code.specs.Rows.{line_room, difference_numbers};
ghost use Rattle.trace_compare_code.specs.Lines.{line_from};
ghost use Rattle.trace_compare_code.specs.Inner.{OctetsRead, HoldsDatagram};

use crate::differing::{put_differences, same};
use crate::reading::line_at;
use datagram::Datagram;
use line_hex::hex_to_octets;

// Writes the octets of a line that is known to hold a datagram, and returns how many there are. The refusal never happens.
fn octets_of(line: &[u8], out: &mut [u8]) -> usize
    requires line_value { is_done (datagram_in line.now) ≡ true }
    requires datagram_limit_in_bounds { datagram_limit ≤ length out.old }
    ensures { OctetsRead line.now out.new result }
{
    let read = hex_to_octets(line, out);
    match read {
        Ok(size) => size,
        Err(_) => 0,
    }
}

// Writes the differences of two lines that hold datagrams of one number.
fn put_lines(number: u16, a: &[u8], b: &[u8], list: &mut [u16], at: usize) -> usize
    requires a_value { is_done (datagram_in a.now) ≡ true }
    requires b_value { is_done (datagram_in b.now) ≡ true }
    requires line_room_in_bounds { at + line_room ≤ length list.old }
    ensures { Appends (difference_numbers number (datagram_in a.now) (datagram_in b.now)) list.old at
        list.new result }
{
    if same(a, b) {
        return at;
    }
    let mut left = [0u8; Datagram::LIMIT];
    let mut right = [0u8; Datagram::LIMIT];
    let m = octets_of(a, &mut left);
    let n = octets_of(b, &mut right);
    put_differences(number, &left[..m], &right[..n], list, at)
}

// Writes the differences of two lines, given by the places where they begin in their traces.
pub fn put_pair(
    number: u16,
    first: &[u8],
    from: usize,
    second: &[u8],
    to: usize,
    list: &mut [u16],
    at: usize,
) -> usize
    requires holds_datagram { HoldsDatagram first.now from }
    requires holds_datagram_2 { HoldsDatagram second.now to }
    requires line_room_in_bounds { at + line_room ≤ length list.old }
    ensures { Appends (difference_numbers number (datagram_in (line_from first.now from))
        (datagram_in (line_from second.now to))) list.old at list.new result }
{
    let a = line_at(first, from);
    let b = line_at(second, to);
    put_lines(number, &first[from..a.end], &second[to..b.end], list, at)
}
