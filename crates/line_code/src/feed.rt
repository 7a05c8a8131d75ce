// The program's input, block by block: each whole line is answered as it comes, and the rest of the block is kept for the next one. It does
// not matter how the input is cut (rule 18.12).
ghost use Rattle.std.specs.Prelude.{◌≡◌, ◌+◌, ◌≤◌, min, length};
ghost use Rattle.octets.specs.Place.{all_below};
ghost use Rattle.session_held.specs.Table.{lent};
ghost use Rattle.line.specs.Feed.{going_in};
ghost use Rattle.line.specs.Promise.{step_limit};
ghost use Rattle.line.specs.FeedPromise.{looked_at, plain_at, Found, Begun, LineIn, LineKept, Feedable, TakesLine, Feeds, Ends};

use crate::steps::step;
use line::{Fed, Line, Stepped};
use session_held::{Counts, Session};

// Whether the next `Line::NEAR` characters are no line feeds; the compiler can check that many together.
fn is_plain(s: &[u8], at: usize) -> bool
    requires { at + looked_at ≤ length s.now }
    ensures { result ≡ all_below looked_at (plain_at s.now at) }
{
    let mut plain = true;
    for j in 0..Line::NEAR {
        plain = plain & (s[at + j] != Line::FEED);
    }
    plain
}

// Where the first line feed is, if there is none before `from`; the length if there is none at all.
fn find_from(s: &[u8], from: usize) -> usize
    requires { Begun s.now from }
    ensures { Found s.now result }
{
    for at in from..s.len() {
        if s[at] == Line::FEED {
            return at;
        }
    }
    s.len()
}

// Where the first line feed is; the length if there is none.
pub fn find_feed(s: &[u8]) -> usize
    ensures { Found s.now result }
{
    let mut at = 0;
    // The place moves by as many characters as are checked together.
    while Line::NEAR <= s.len() - at {
        if !is_plain(s, at) {
            return find_from(s, at);
        }
        at += Line::NEAR;
    }
    find_from(s, at)
}

// Appends characters to the line that has begun. Of a line that is too long, it keeps just enough to know that it is too long.
pub fn keep_line(line: &mut [u8], begun: usize, more: &[u8]) -> usize
    requires { LineIn line.old begun }
    ensures { LineKept line.old begun more.now line.new result }
{
    let room = Line::KEPT - begun;
    let count = room.min(more.len());
    let end = begun + count;
    line[begun..end].copy_from_slice(&more[..count]);
    end
}

// Clears the buffer for a line: no line has begun, and all is zeros.
pub fn clear_line(line: &mut [u8], begun: usize)
    requires { LineIn line.old begun }
    ensures { LineIn line.new 0 }
{
    line[..begun].fill(0);
}

// Takes the next line of s, or as much of it as there is, from where the last one ended. The line that has begun is at the front of line.
fn take_line(
    from: Stepped,
    table: &mut [u16; Session::PLACES],
    octets: &mut [u8; Session::PACKET_OCTETS],
    messages: &mut [u8; Session::MESSAGE_OCTETS],
    line: &mut [u8],
    begun: usize,
    s: &[u8],
    out: &mut [u8],
) -> Fed
    requires feedable { Feedable step_limit (lent from.base from.counts table.old octets.old messages.old) line.old begun out.old
        from.end }
    requires in_bounds { 1 ≤ length s.now }
    ensures { TakesLine (going_in (lent from.base from.counts table.old octets.old
        messages.old) line.old begun out.old from.end) s.now out.old from.end
        (lent result.base result.counts table.new octets.new messages.new) line.new result.begun
        result.taken out.new result.end }
{
    let Stepped {
        base,
        counts,
        end: at,
    } = from;
    let stop = find_feed(s);
    if s.len() <= stop {
        let kept = keep_line(line, begun, s);
        return Fed {
            base,
            counts,
            begun: kept,
            taken: stop,
            end: at,
        };
    }
    let taken = stop + 1;
    if begun == 0 {
        let made = step(base, counts, table, octets, messages, &s[..stop], out, at);
        return Fed {
            base: made.base,
            counts: made.counts,
            begun: 0,
            taken,
            end: made.end,
        };
    }
    let kept = keep_line(line, begun, &s[..stop]);
    let made = step(
        base,
        counts,
        table,
        octets,
        messages,
        &line[..kept],
        out,
        at,
    );
    clear_line(line, kept);
    Fed {
        base: made.base,
        counts: made.counts,
        begun: 0,
        taken,
        end: made.end,
    }
}

// Takes a block of the input, line after line, and writes their text from the front of out on, as long as out surely has room for the next
// line.
pub fn take_block(
    base: u16,
    counts: Counts,
    table: &mut [u16; Session::PLACES],
    octets: &mut [u8; Session::PACKET_OCTETS],
    messages: &mut [u8; Session::MESSAGE_OCTETS],
    line: &mut [u8],
    begun: usize,
    block: &[u8],
    out: &mut [u8],
) -> Fed
    requires { Feedable 0 (lent base counts table.old octets.old messages.old) line.old begun out.old 0 }
    ensures { Feeds (going_in (lent base counts table.old octets.old messages.old)
        line.old begun out.old 0) block.now out.old
        (lent result.base result.counts table.new octets.new messages.new) line.new result.begun
        result.taken out.new result.end }
{
    let mut after = base;
    let mut moves = counts;
    let mut kept = begun;
    let mut taken = 0;
    let mut end = 0;
    // The place moves by what a turn took.
    while taken < block.len() {
        if out.len() - end < Line::STEP {
            return Fed {
                base: after,
                counts: moves,
                begun: kept,
                taken,
                end,
            };
        }
        let from = Stepped {
            base: after,
            counts: moves,
            end,
        };
        let part = take_line(
            from,
            table,
            octets,
            messages,
            line,
            kept,
            &block[taken..],
            out,
        );
        after = part.base;
        moves = part.counts;
        kept = part.begun;
        taken += part.taken;
        end = part.end;
    }
    Fed {
        base: after,
        counts: moves,
        begun: kept,
        taken,
        end,
    }
}

// The end of the input: a last line without a line feed counts unless it is empty (rule 18.8).
pub fn finish(
    base: u16,
    counts: Counts,
    table: &mut [u16; Session::PLACES],
    octets: &mut [u8; Session::PACKET_OCTETS],
    messages: &mut [u8; Session::MESSAGE_OCTETS],
    line: &[u8],
    begun: usize,
    out: &mut [u8],
    at: usize,
) -> Stepped
    requires { Feedable step_limit (lent base counts table.old octets.old messages.old) line.now begun out.old at }
    ensures { Ends (going_in (lent base counts table.old octets.old messages.old) line.now
        begun out.old at) out.old (lent result.base result.counts table.new octets.new
        messages.new) out.new result.end }
{
    if begun == 0 {
        return Stepped {
            base,
            counts,
            end: at,
        };
    }
    step(
        base,
        counts,
        table,
        octets,
        messages,
        &line[..begun],
        out,
        at,
    )
}
