// The lines of a block. A line that is whole in the block is dropped or stepped in place; the front of a line that continues in the next
// block is kept, as `line_code` keeps it. The text of a line waits in a buffer until the text of the next one might not fit.
ghost use Rattle.std.specs.Prelude.{◌≤◌, length};
ghost use Rattle.session_held.specs.Table.{lent};
ghost use Rattle.line.specs.Promise.{Able, step_limit};
ghost use Rattle.line.specs.FeedPromise.{Feedable};
ghost use Rattle.replay.specs.Promise.{Writes, Goes};

use line::Line;
use line_code::{clear_line, find_feed, keep_line};
use session_held::{Counts, Session};
use std::io::Stdout;
use trace_replay_code::replay_line;

// Base and counts of the session, how many characters of a line are kept, how much text waits, and whether every write succeeded:
// another line may follow in either case, and a Result would not say so of a failure.
#[derive(Drop)]
pub struct Going {
    pub base: u16,
    pub counts: Counts,
    pub begun: usize,
    pub end: usize,
    pub well: bool,
}

// Writes the waiting text to standard output.
pub fn hand_over(to: Stdout, out: &[u8], end: usize) -> bool
    requires { end ≤ length out.now }
{
    to.write_all(&out[..end]).is_ok()
}

// Takes a whole line. Its text joins the waiting text, which is written if the next line might not fit.
pub fn end_line(
    to: Stdout,
    from: Going,
    t: &mut [u16; Session::PLACES],
    o: &mut [u8; Session::PACKET_OCTETS],
    g: &mut [u8; Session::MESSAGE_OCTETS],
    numbers: &[u16],
    line: &[u8],
    out: &mut [u8],
) -> Going
    requires { Able step_limit (lent from.base from.counts t.old o.old g.old) out.old from.end }
    ensures { Writes (lent result.base result.counts t.new o.new g.new) result.begun out.old
        out.new result.end }
{
    let base = from.base;
    let counts = from.counts;
    let at = from.end;
    let made = replay_line(base, counts, t, o, g, numbers, line, out, at);
    let after = made.base;
    let moves = made.counts;
    let end = made.end;
    if out.len() - end < Line::STEP {
        let well = hand_over(to, out, end);
        return Going {
            base: after,
            counts: moves,
            begun: 0,
            end: 0,
            well,
        };
    }
    Going {
        base: after,
        counts: moves,
        begun: 0,
        end,
        well: true,
    }
}

// Takes a line up to its line feed; its front may be kept from the last block.
fn take_line(
    to: Stdout,
    from: Going,
    t: &mut [u16; Session::PLACES],
    o: &mut [u8; Session::PACKET_OCTETS],
    g: &mut [u8; Session::MESSAGE_OCTETS],
    numbers: &[u16],
    line: &mut [u8],
    more: &[u8],
    out: &mut [u8],
) -> Going
    requires { Feedable step_limit (lent from.base from.counts t.old o.old g.old) line.old from.begun out.old
        from.end }
    ensures { Goes (lent result.base result.counts t.new o.new g.new) line.new result.begun
        out.old out.new result.end }
{
    let begun = from.begun;
    if begun == 0 {
        return end_line(to, from, t, o, g, numbers, more, out);
    }
    let kept = keep_line(line, begun, more);
    let next = end_line(to, from, t, o, g, numbers, &line[..kept], out);
    clear_line(line, kept);
    next
}

// Takes a block of the trace: its lines in order, and the front of the last one is kept.
pub fn take_block(
    to: Stdout,
    from: Going,
    t: &mut [u16; Session::PLACES],
    o: &mut [u8; Session::PACKET_OCTETS],
    g: &mut [u8; Session::MESSAGE_OCTETS],
    numbers: &[u16],
    line: &mut [u8],
    block: &[u8],
    out: &mut [u8],
) -> Going
    requires { Feedable step_limit (lent from.base from.counts t.old o.old g.old) line.old from.begun out.old
        from.end }
    ensures { Goes (lent result.base result.counts t.new o.new g.new) line.new result.begun
        out.old out.new result.end }
{
    let mut base = from.base;
    let mut counts = from.counts;
    let mut begun = from.begun;
    let mut end = from.end;
    let mut at = 0;
    // The place moves past the next line feed.
    while at < block.len() {
        let stop = find_feed(&block[at..]);
        let feed = at + stop;
        if block.len() <= feed {
            let kept = keep_line(line, begun, &block[at..]);
            return Going {
                base,
                counts,
                begun: kept,
                end,
                well: true,
            };
        }
        let here = Going {
            base,
            counts,
            begun,
            end,
            well: true,
        };
        let next = take_line(to, here, t, o, g, numbers, line, &block[at..feed], out);
        base = next.base;
        let moved = next.counts;
        counts = moved;
        begun = next.begun;
        end = next.end;
        at = feed + 1;
        if !next.well {
            return Going {
                base,
                counts,
                begun,
                end,
                well: false,
            };
        }
    }
    Going {
        base,
        counts,
        begun,
        end,
        well: true,
    }
}
