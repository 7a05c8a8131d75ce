// What is written, piece by piece, to standard output. A write that fails loses its text, and the program goes on.
ghost use Rattle.std.specs.Prelude.{◌≤◌, length};
ghost use Rattle.datagram.specs.Sizes.{packet_limit};

use crate::wording;
use crate::wording::{end_line, say_word};
use datagram::Packet;
use length::{Reason, Refusal};
use packet_pencil::{bit, flag};
use std::io::{BufWriter, Stdout, Write};

// Standard output behind a buffer.
pub type Out = BufWriter<Stdout>;

pub fn say(out: &mut Out, text: &[u8]) {
    let _ = out.write_all(text);
}

pub fn say_number(out: &mut Out, n: usize) {
    let _ = write!(out, "{n}");
}

// A line of a table, counted from 0, up to a character or to the end of the line.
pub fn say_line(out: &mut Out, table: &str, line: usize, last: char) {
    let text = table.lines().nth(line).unwrap_or("");
    say(out, text.split(last).next().unwrap_or("").as_bytes());
}

// Octets in hexadecimal, at most as many as a packet has.
pub fn say_hex(out: &mut Out, octets: &[u8]) {
    let mut text = [0u8; 2 * Packet::LIMIT];
    if octets.len() <= Packet::LIMIT {
        line_hex::put_digits(octets, &mut text, 0);
        say(out, &text[..2 * octets.len()]);
    }
}

// A count of what a word names.
pub fn say_count(out: &mut Out, n: usize, word: &str) {
    say_number(out, n);
    say_word(out, word);
    if n != 1 {
        say(out, b"s");
    }
}

pub fn say_octets(out: &mut Out, n: usize) {
    say_count(out, n, wording::OCTET)
}

pub fn say_flag(out: &mut Out, set: bool) {
    end_line(out, if set { wording::YES } else { wording::NO })
}

// The words for each refusal that a packet can meet, as in README's table.
fn words_for(reason: Reason) -> &'static str {
    match reason {
        Reason::EndsEarly => wording::ENDS_EARLY,
        Reason::BadForm => wording::BAD_FORM,
        Reason::OutsideSizes => wording::OUTSIDE_SIZES,
        Reason::SpareBit => wording::SPARE_BIT,
        Reason::LeftOver => wording::LEFT_OVER,
        Reason::NotAssigned => wording::NOT_ASSIGNED,
        Reason::WrongData => wording::WRONG_DATA,
        _ => wording::IN_README,
    }
}

// A refusal: its number, the octet at which the refused item begins if it was met in reading order, and its words (rule 19.5).
pub fn say_refusal(out: &mut Out, why: Refusal, met: bool) {
    let number = why.number();
    let place = why.place;
    let _ = write!(out, "refused with {number}");
    if met {
        let _ = write!(out, " at octet {place}");
    }
    say_word(out, wording::COLON);
    say_word(out, words_for(why.reason));
}

// The end of a refused item's line.
pub fn say_refused(out: &mut Out, why: Refusal) {
    say_refusal(out, why, false);
    say(out, b"\n");
}

// A place, in octets and bits.
fn say_place(out: &mut Out, at: usize) {
    let octet = at / 8;
    let bit = at % 8;
    let _ = write!(out, "octet {octet:<3} bit {bit}  ");
}

// The bit at a place; a dash past the end.
fn say_bit(out: &mut Out, octets: &[u8], at: usize)
    requires { length octets.now ≤ packet_limit }
{
    match bit(octets, at / 8, at) {
        Err(_) => say(out, b"-"),
        Ok((one, _)) => say_number(out, one),
    }
}

// The bits from a place up to another.
fn say_bits(out: &mut Out, octets: &[u8], at: usize, end: usize)
    requires { length octets.now ≤ packet_limit }
{
    for next in at..end {
        say_bit(out, octets, next);
    }
}

// How wide the column of the bits is.
const BITS: usize = 18;

// The front of an item's line: its place, its bits, its name (rule 19.5).
pub fn row(out: &mut Out, octets: &[u8], at: usize, end: usize, name: &str)
    requires { length octets.now ≤ packet_limit }
{
    say_place(out, at);
    say_bits(out, octets, at, end);
    for _ in end.saturating_sub(at)..BITS {
        say(out, b" ");
    }
    say_word(out, name);
    say_word(out, wording::COLON);
}

// The same for an item of whole octets, which are written behind the name.
pub fn row_of_octets(out: &mut Out, at: usize, name: &str) {
    say_place(out, at);
    say_word(out, wording::AS_OCTETS);
    say_word(out, name);
    say_word(out, wording::COLON);
}

// The line of a refused item of this many bits. What follows it is not explained.
pub fn stopped(
    out: &mut Out,
    octets: &[u8],
    at: usize,
    bits: usize,
    name: &str,
    why: Refusal,
) -> Option<usize>
    requires { length octets.now ≤ packet_limit }
{
    row(out, octets, at, at.wrapping_add(bits), name);
    say_refused(out, why);
    None
}

// A single bit, or None if it is refused: the front of its line, or the whole line if it is refused. What comes next begins in the bit
// behind it.
pub fn row_of_bit(out: &mut Out, octets: &[u8], item: usize, at: usize, name: &str) -> Option<bool>
    requires { length octets.now ≤ packet_limit }
{
    match flag(octets, item, at) {
        Err(why) => {
            stopped(out, octets, at, 1, name, why);
            None
        }
        Ok((set, next)) => {
            row(out, octets, at, next, name);
            Some(set)
        }
    }
}
