// The program from any session within its ranges on: it reads lines of hexadecimal from standard input, one datagram a line, and writes the
// results to standard output, in large blocks (rules 18.1, 18.12 and 18.13). What a block writes is proved in `line_code`; this crate only
// reads, calls it and writes.
#![tactic(auto)]

ghost use Rattle.std.specs.Prelude.{◌≡◌, ◌+◌, ◌%◌, ◌^◌, ◌≤◌, length};
ghost use Rattle.session_held.specs.Table.{lent, view_in};
ghost use Rattle.session_held.specs.Laid.{InRanges};
ghost use Rattle.line.specs.Promise.{step_limit};
ghost use Rattle.line.specs.FeedPromise.{Feedable};
ghost use Rattle.program_loop.specs.Promise.{Passes, Serves};

use line::Line;
use session_held::{Counts, Session};
use std::io::{Read, Write};

// The most octets of a block of the input, and of what is written at once.
const BUFFER: usize = 65536;

// The only place that reads: it puts octets at the front of the block, counts them, and returns how many they are, none at the end of the
// input.
fn read_on<R: Read>(input: &mut R, block: &mut [u8], taken: &mut usize) -> usize
    ensures upper_bound { result ≤ length block.new }
    ensures taken_after { taken.new ≡ (taken.old + result) % 2 ^ 64 }
{
    let n = input.read(block).unwrap_or(0);
    *taken = taken.wrapping_add(n);
    n
}

// The only place that writes: it passes the front of the buffer to `write`, counts its octets, and returns whether all were written.
fn hand_over<W: Write>(output: &mut W, out: &[u8], end: usize, handed: &mut usize) -> bool
    requires { end ≤ length out.now }
    ensures { handed.new ≡ (handed.old + end) % 2 ^ 64 }
{
    let front = &out[..end];
    *handed = handed.wrapping_add(front.len());
    output.write_all(front).is_ok()
}

// The session after a block, how much of a line has begun, and whether all was written. The session and the line are within their ranges
// after a failed write too; a Result would not say so.
#[derive(Drop)]
struct Passed {
    base: u16,
    counts: Counts,
    begun: usize,
    written: bool,
}

// Takes a block of the input from where the last one ended, and writes its text part by part, up to the first write that fails.
fn pass<W: Write>(
    output: &mut W,
    last: Passed,
    table: &mut [u16; Session::PLACES],
    octets: &mut [u8; Session::PACKET_OCTETS],
    messages: &mut [u8; Session::MESSAGE_OCTETS],
    line: &mut [u8],
    block: &[u8],
    out: &mut [u8],
    handed: &mut usize,
) -> Passed
    requires { Feedable step_limit (lent last.base last.counts table.old octets.old messages.old) line.old last.begun
        out.old 0 }
    ensures { Passes (lent last.base last.counts table.old octets.old messages.old)
        line.old last.begun block.now handed.old (lent result.base result.counts table.new
        octets.new messages.new) line.new result.begun out.new handed.new result.written }
{
    let mut after = last.base;
    let mut moves = last.counts;
    let mut kept = last.begun;
    let mut from = 0;
    // The place moves by what was taken.
    while from < block.len() {
        let part = line_code::take_block(
            after,
            moves,
            table,
            octets,
            messages,
            line,
            kept,
            &block[from..],
            out,
        );
        after = part.base;
        moves = part.counts;
        kept = part.begun;
        from += part.taken;
        if !hand_over(output, out, part.end, handed) {
            return Passed {
                base: after,
                counts: moves,
                begun: kept,
                written: false,
            };
        }
    }
    Passed {
        base: after,
        counts: moves,
        begun: kept,
        written: true,
    }
}

// The session at the end, how many octets were read and how many passed to `write`, and whether all was written up to the end of the input.
// The session is within its ranges after a failed write too; a Result would not say so.
#[derive(Drop)]
pub struct Served {
    pub base: u16,
    pub counts: Counts,
    pub taken: usize,
    pub handed: usize,
    pub whole: bool,
}

// Block after block, then the end of the input. A proved loop must terminate, and the input need not end: so the loop counts its turns up
// to a number that no run reaches.
pub fn serve<R: Read, W: Write>(
    input: &mut R,
    output: &mut W,
    base: u16,
    counts: Counts,
    table: &mut [u16; Session::PLACES],
    octets: &mut [u8; Session::PACKET_OCTETS],
    messages: &mut [u8; Session::MESSAGE_OCTETS],
) -> Served
    requires { InRanges (lent base counts table.old octets.old messages.old) }
    ensures { Serves (view_in (lent base counts table.old octets.old messages.old))
        (lent result.base result.counts table.new octets.new messages.new) result.taken result.handed
        result.whole }
{
    let mut line = [0u8; Line::KEPT];
    let mut block = [0u8; BUFFER];
    let mut out = [0u8; BUFFER];
    let mut after = base;
    let mut moves = counts;
    let mut begun = 0;
    let mut taken = 0;
    let mut handed = 0;
    for _ in 0..u64::MAX {
        let n = read_on(input, &mut block, &mut taken);
        if n == 0 {
            break;
        }
        let last = Passed {
            base: after,
            counts: moves,
            begun,
            written: true,
        };
        let passed = pass(
            output,
            last,
            table,
            octets,
            messages,
            &mut line,
            &block[..n],
            &mut out,
            &mut handed,
        );
        after = passed.base;
        moves = passed.counts;
        begun = passed.begun;
        if !passed.written {
            return Served {
                base: after,
                counts: moves,
                taken,
                handed,
                whole: false,
            };
        }
    }
    let ended = line_code::finish(
        after, moves, table, octets, messages, &line, begun, &mut out, 0,
    );
    let end = ended.end;
    let whole = hand_over(output, &out, end, &mut handed);
    Served {
        base: ended.base,
        counts: ended.counts,
        taken,
        handed,
        whole,
    }
}
