// The trace, block by block, then its end.
ghost use Rattle.session_held.specs.Table.{lent};
ghost use Rattle.session_held.specs.Laid.{InRanges};
ghost use Rattle.line.specs.Promise.{step_limit};
ghost use Rattle.line.specs.FeedPromise.{Feedable};

use crate::taking::{Going, end_line, hand_over, take_block};
use line::Line;
use session_held::{Counts, Session};
use std::fs::File;
use std::io;
use std::io::{Read, Stdout};

// How many characters of the trace are read at once, and how much text may wait.
const BLOCK: usize = 65536;

// The end of the trace: a last line without a line feed counts unless it is empty (rule 21.9). Then all waiting text is written. Returns
// the counts at the end, or None if a write failed (rule 21.11).
fn finish(
    to: Stdout,
    from: Going,
    t: &mut [u16; Session::PLACES],
    o: &mut [u8; Session::PACKET_OCTETS],
    g: &mut [u8; Session::MESSAGE_OCTETS],
    numbers: &[u16],
    line: &[u8],
    out: &mut [u8],
) -> Option<Counts>
    requires { Feedable step_limit (lent from.base from.counts t.old o.old g.old) line.now from.begun out.old
        from.end }
{
    let begun = from.begun;
    if begun == 0 {
        let counts = from.counts;
        return hand_over(to, out, from.end).then_some(counts);
    }
    let last = end_line(to, from, t, o, g, numbers, &line[..begun], out);
    let counts = last.counts;
    if !last.well {
        return None;
    }
    hand_over(to, out, last.end).then_some(counts)
}

// Plays block after block, then the end, and returns the counts at the end, or None if a write failed. A proved loop must terminate, but a
// file may never end: so the loop counts its turns up to a number that no run reaches.
pub fn play(
    file: &mut File,
    to: Stdout,
    base: u16,
    counts: Counts,
    t: &mut [u16; Session::PLACES],
    o: &mut [u8; Session::PACKET_OCTETS],
    g: &mut [u8; Session::MESSAGE_OCTETS],
    numbers: &[u16],
) -> io::Result<Option<Counts>>
    requires { InRanges (lent base counts t.old o.old g.old) }
{
    let mut line = [0u8; Line::KEPT];
    let mut block = [0u8; BLOCK];
    let mut out = [0u8; BLOCK];
    let mut after = base;
    let mut moves = counts;
    let mut begun = 0;
    let mut end = 0;
    for _ in 0..u64::MAX {
        let n = file.read(&mut block)?;
        if n == 0 {
            break;
        }
        let at = Going {
            base: after,
            counts: moves,
            begun,
            end,
            well: true,
        };
        let next = take_block(to, at, t, o, g, numbers, &mut line, &block[..n], &mut out);
        if !next.well {
            return Ok(None);
        }
        after = next.base;
        moves = next.counts;
        begun = next.begun;
        end = next.end;
    }
    let last = Going {
        base: after,
        counts: moves,
        begun,
        end,
        well: true,
    };
    Ok(finish(to, last, t, o, g, numbers, &line, &mut out))
}
