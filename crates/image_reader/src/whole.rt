// The whole of an image: its first line, the lines before the base, those from the base on, and nothing after them. The version octet and
// the packet limit are arguments: one layout serves both versions (rule 30.11).
ghost use Rattle.std.specs.Prelude.{◌≡◌, ◌+◌, ◌<◌, ◌≤◌, length, drop};
ghost use Rattle.datagram.specs.Sizes.{packet_limit};
ghost use Rattle.session.specs.Cells.{kept_ahead};
ghost use Rattle.image.specs.Parts.{high_first};
ghost use Rattle.image.specs.Image.{number_line_limit};
ghost use Rattle.image_reader.specs.Laying.{Lengths};
ghost use Rattle.image_reader.specs.Whole.{FirstImageTold, FirstLineTold, LineTold, LinesTold, Cleared, CoreTold};

use crate::laying::lay;
use crate::number::{number_in, two};
use crate::text::take_line;
use image::Image;
use session_held::{Counts, Session};

// The first line, and where it ends.
#[derive(Drop)]
pub struct First {
    pub base: u16,
    pub counts: Counts,
    pub end: usize,
}

// Four octets as a number, the high one first.
fn four(s: &[u8], at: usize) -> u32
    requires { at + 4 ≤ length s.now }
    ensures { result ≡ high_first 4 (drop at s.now) }
{
    let high = u32::from(two(s[at], s[at + 1]));
    let low = u32::from(two(s[at + 2], s[at + 3]));
    high * 65536 + low
}

// Version octet, base in two octets, the four counts in four octets each, high first (rule 20.2).
fn first_in(s: &[u8], edition: u8, end: usize) -> Option<First>
    ensures { FirstImageTold edition s.now end result }
{
    if s.len() != Image::FIRST {
        return None;
    }
    if s[0] != edition {
        return None;
    }
    Some(First {
        base: two(s[1], s[2]),
        counts: Counts {
            received: four(s, 3),
            spare: four(s, 7),
            repaired: four(s, 11),
            lost: four(s, 15),
        },
        end,
    })
}

// The first line of a text.
fn first_line(text: &[u8], edition: u8) -> Option<First>
    ensures { FirstLineTold edition text.now result }
{
    let mut line = [0u8; Image::FIRST];
    let (count, next) = take_line(text, &mut line)?;
    first_in(&line[..count], edition, next)
}

// The line of the k-th number before the base, or from the base on, at the front of a text.
fn read_line(
    text: &[u8],
    limit: usize,
    ahead: bool,
    base: u16,
    k: usize,
    line: &mut [u8],
    table: &mut [u16],
    octets: &mut [u8],
    messages: &mut [u8],
) -> Option<usize>
    requires limit_le_packet_limit { limit ≤ packet_limit }
    requires k_lt_kept_ahead { k < kept_ahead }
    requires line_len { length line.old ≡ number_line_limit packet_limit }
    requires lengths { Lengths table.old octets.old messages.old }
    ensures { LineTold limit ahead base k text.now table.old octets.old messages.old
        table.new octets.new messages.new result }
{
    let (count, next) = take_line(text, line)?;
    let number = number_in(&line[..count], limit, ahead)?;
    lay(
        base,
        ahead,
        k,
        &line[..count],
        number,
        table,
        octets,
        messages,
    );
    Some(next)
}

// The lines before the base, or those from the base on.
fn read_lines(
    text: &[u8],
    from: usize,
    limit: usize,
    ahead: bool,
    base: u16,
    table: &mut [u16],
    octets: &mut [u8],
    messages: &mut [u8],
) -> Option<usize>
    requires from_in_bounds { from ≤ length text.now }
    requires limit_le_packet_limit { limit ≤ packet_limit }
    requires lengths { Lengths table.old octets.old messages.old }
    ensures { LinesTold limit ahead base text.now from table.old octets.old messages.old
        table.new octets.new messages.new result }
{
    let mut line = [0u8; Image::LINE];
    let mut at = from;
    for k in 0..Session::HEARD {
        let taken = read_line(
            &text[at..],
            limit,
            ahead,
            base,
            k,
            &mut line,
            table,
            octets,
            messages,
        )?;
        at += taken;
    }
    Some(at)
}

// A text as an image of that version, with packets and messages of at most `limit` octets, into a table and stores that hold zeros.
pub fn read_core(
    text: &[u8],
    edition: u8,
    limit: usize,
    table: &mut [u16],
    octets: &mut [u8],
    messages: &mut [u8],
) -> Option<First>
    requires limit_le_packet_limit { limit ≤ packet_limit }
    requires cleared { Cleared table.old octets.old messages.old }
    ensures { CoreTold edition limit text.now table.new octets.new messages.new result }
{
    let first = first_line(text, edition)?;
    let base = first.base;
    let middle = read_lines(text, first.end, limit, false, base, table, octets, messages)?;
    let end = read_lines(text, middle, limit, true, base, table, octets, messages)?;
    if end < text.len() {
        return None;
    }
    Some(first)
}
