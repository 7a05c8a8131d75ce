// The lines of a trace in order, over the session's memory as in the program's step. The text of a line is made in a local buffer, which is
// large enough for any line, and then copied to the caller's buffer if it fits.
ghost use Rattle.std.specs.Prelude.{◌≡◌, ◌+◌, ◌≤◌, ◌<◌, length};
ghost use Rattle.session.specs.View.{fresh_view};
ghost use Rattle.session_held.specs.Table.{lent, view_in};
ghost use Rattle.session_held.specs.Laid.{InRanges};
ghost use Rattle.line.specs.Promise.{Does, Able, step_limit};
ghost use Rattle.trace_replay.specs.Replay.{replay_step};
ghost use Rattle.trace_replay_code.specs.Inner.{TakesTraceLine, Lays, Plays};

use crate::dropping::is_dropped;
use datagram_writer::put_octets;
use length::{Reason, Refusal};
use line::{Line, Stepped};
use line_code::{find_feed, step};
use session_held::{Counts, Session};
use trace_replay::Replayed;

// One line of the trace: a dropped one writes no line and triggers no release (rule 21.4), any other is the program's step (rule 21.2).
pub fn replay_line(
    base: u16,
    counts: Counts,
    t: &mut [u16; Session::PLACES],
    o: &mut [u8; Session::PACKET_OCTETS],
    g: &mut [u8; Session::MESSAGE_OCTETS],
    numbers: &[u16],
    line: &[u8],
    out: &mut [u8],
    at: usize,
) -> Stepped
    requires { Able step_limit (lent base counts t.old o.old g.old) out.old at }
    ensures { Does (replay_step numbers.now line.now
        (view_in (lent base counts t.old o.old g.old))) out.old at
        (lent result.base result.counts t.new o.new g.new) result.end out.new }
{
    if is_dropped(numbers, line) {
        return Stepped {
            base,
            counts,
            end: at,
        };
    }
    step(base, counts, t, o, g, line, out, at)
}

// The session after a line, the size of its text, and the place in the trace after it.
#[derive(Drop)]
struct Taken {
    base: u16,
    counts: Counts,
    size: usize,
    next: usize,
}

// Takes the line that begins at the place `at` of the trace, and writes its text to the front of the buffer.
fn take_line(
    base: u16,
    counts: Counts,
    t: &mut [u16; Session::PLACES],
    o: &mut [u8; Session::PACKET_OCTETS],
    g: &mut [u8; Session::MESSAGE_OCTETS],
    numbers: &[u16],
    trace: &[u8],
    at: usize,
    text: &mut [u8],
) -> Taken
    requires able { Able step_limit (lent base counts t.old o.old g.old) text.old 0 }
    requires at_in_bounds { at < length trace.now }
    ensures { TakesTraceLine numbers.now trace.now at
        (lent base counts t.old o.old g.old)
        (lent result.base result.counts t.new o.new g.new) text.old text.new result.size
        result.next }
{
    let rest = &trace[at..];
    let stop = find_feed(rest);
    let made = replay_line(base, counts, t, o, g, numbers, &rest[..stop], text, 0);
    let end = at + stop;
    Taken {
        base: made.base,
        counts: made.counts,
        size: made.end,
        next: if stop < rest.len() { end + 1 } else { end },
    }
}

// Writes text at the place `at` if `writes` is set, and returns the place after it in either case.
fn lay(writes: bool, text: &[u8], out: &mut [u8], at: usize) -> usize
    requires { at + length text.now ≤ length out.old }
    ensures { Lays writes text.now out.old at out.new result }
{
    if writes {
        at + put_octets(text, &mut out[at..])
    } else {
        at + text.len()
    }
}

// Plays all lines of the trace, from a fresh session on; 13 as soon as their text no longer fits the caller's buffer (rule 21.6).
pub fn play(
    base: u16,
    counts: Counts,
    t: &mut [u16; Session::PLACES],
    o: &mut [u8; Session::PACKET_OCTETS],
    g: &mut [u8; Session::MESSAGE_OCTETS],
    numbers: &[u16],
    trace: &[u8],
    out: &mut [u8],
    writes: bool,
) -> Result<Replayed, Refusal>
    requires in_ranges { InRanges (lent base counts t.old o.old g.old) }
    requires g_value { view_in (lent base counts t.old o.old g.old) ≡ fresh_view }
    ensures { Plays trace.now numbers.now writes out.old out.new result }
{
    let mut text = [0u8; Line::STEP];
    let mut now = base;
    let mut moves = counts;
    let mut at = 0;
    let mut end = 0;
    // The place moves past the line that was taken.
    while at < trace.len() {
        let taken = take_line(now, moves, t, o, g, numbers, trace, at, &mut text);
        now = taken.base;
        moves = taken.counts;
        at = taken.next;
        let size = taken.size;
        if out.len() - end < size {
            return Err(Refusal::new(Reason::NoRoom));
        }
        end = lay(writes, &text[..size], out, end);
    }
    Ok(Replayed {
        counts: moves,
        size: end,
    })
}
