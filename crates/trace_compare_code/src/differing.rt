// The differences of two datagrams (rules 22.5 to 22.9). What follows the packet is compared as octets: a datagram has only one encoding,
// so the spares or messages are equal exactly if their octets are.
ghost use Rattle.std.specs.Prelude.{◌≡◌, true, [], ◌∷◌, ◌+◌, ◌≤◌, length};
ghost use Rattle.line.specs.Promise.{Appends};
ghost use Rattle.trace_compare.specs.Entries.{same as is_same};
ghost use Rattle.trace_compare.specs.Traces.{datagram_of};
ghost use Rattle.length.specs.Answers.{is_done};
ghost use Rattle.trace_compare_code.specs.Rows.{entry_room, line_room, is_spares, ShapeOf, row_numbers, rows_told};
ghost use Rattle.trace_compare_code.specs.Rows.{difference_numbers};

use datagram::Kind;
use trace_compare::Entry;

// Whether two runs of octets are equal.
pub fn same(a: &[u8], b: &[u8]) -> bool
    ensures { result ≡ is_same a.now b.now }
{
    a == b
}

// Where the packet of a datagram begins and ends, and whether spares follow it.
#[derive(Drop)]
struct Shape {
    start: usize,
    end: usize,
    spares: bool,
}

fn has_spares(kind: Kind) -> bool
    ensures { result ≡ is_spares kind }
{
    match kind {
        Kind::Spares => true,
        Kind::Parity(_) => false,
    }
}

// The shape of octets that the caller knows to hold a datagram, so they are never refused.
fn shape_of(octets: &[u8]) -> Shape
    ensures { ShapeOf octets.now result }
{
    match datagram_reader::read(octets) {
        Ok(read) => {
            let start = read.packet.start;
            let end = start + read.packet.size;
            Shape {
                start,
                end,
                spares: has_spares(read.kind),
            }
        }
        Err(_) => Shape {
            start: 0,
            end: 0,
            spares: true,
        },
    }
}

// Writes an entry behind those already listed and returns the place after it (rule 22.2).
pub fn put_entry(list: &mut [u16], at: usize, number: u16, code: u16) -> usize
    requires { at + entry_room ≤ length list.old }
    ensures { Appends (number ∷ code ∷ []) list.old at list.new result }
{
    list[at] = number;
    list[at + 1] = code;
    at + Entry::SIZE
}

// Writes an entry if it applies.
fn put_row(applies: bool, list: &mut [u16], at: usize, number: u16, code: u16) -> usize
    requires { at + entry_room ≤ length list.old }
    ensures { Appends (row_numbers applies number code) list.old at list.new result }
{
    if applies {
        put_entry(list, at, number, code)
    } else {
        at
    }
}

// Writes the entries of a pair, from what was found equal and whether spares follow the packets (rules 22.8 and 22.9).
// `&` and `|` do not branch: with `&&` and `||` the proof would need a case for each branch.
fn put_rows(
    number: u16,
    packets: bool,
    extras: bool,
    first: bool,
    second: bool,
    list: &mut [u16],
    at: usize,
) -> usize
    requires { at + line_room ≤ length list.old }
    ensures { Appends (rows_told number packets extras first second) list.old at list.new result }
{
    let three = put_row(!packets, list, at, number, Entry::PACKET);
    let four = put_row(
        !extras & (first | second),
        list,
        three,
        number,
        Entry::SPARES,
    );
    put_row(
        !extras & !(first & second),
        list,
        four,
        number,
        Entry::PARITY,
    )
}

// Writes what two datagrams of one number differ in: packets, spares, parity, in this order (rule 22.8).
pub fn put_differences(number: u16, a: &[u8], b: &[u8], list: &mut [u16], at: usize) -> usize
    requires a_value { is_done (datagram_of a.now) ≡ true }
    requires b_value { is_done (datagram_of b.now) ≡ true }
    requires line_room_in_bounds { at + line_room ≤ length list.old }
    ensures { Appends (difference_numbers number (datagram_of a.now) (datagram_of b.now)) list.old at
        list.new result }
{
    let left = shape_of(a);
    let right = shape_of(b);
    let packets = same(&a[left.start..left.end], &b[right.start..right.end]);
    let extras = same(&a[left.end..], &b[right.end..]);
    put_rows(number, packets, extras, left.spares, right.spares, list, at)
}
