// Answers, written number by number in pairs of digits to standard output (rules 25.1, 25.3 and 25.4).
use datagram::Packet;
use length::Refusal;
use std::io::{BufWriter, Stdout, Write};

// Standard output behind a buffer. A write that fails loses its text, and the program goes on.
pub type Out = BufWriter<Stdout>;

// The greatest cap of two octets, the greatest of four (rule 25.5), and what each octet of a buffer is before the call (rule 25.4).
pub const CAP: usize = 2600;

pub const LONGEST: usize = 120000;

pub const FILLING: u8 = 0xA5;

// How many octets are written at a time.
const SOME: usize = 256;

// Writes octets unchanged.
pub fn say_all(out: &mut Out, octets: &[u8]) {
    let mut text = [0u8; 2 * SOME];
    for some in octets.chunks(SOME) {
        line_hex::put_digits(some, &mut text, 0);
        let size = text.len().min(2 * some.len());
        let _ = out.write_all(&text[..size]);
    }
}

// Writes each number of a list in two octets, high octet first, many at a time.
pub fn say_numbers(out: &mut Out, numbers: &[u16]) {
    let mut octets = [0u8; SOME];
    for some in numbers.chunks(SOME / 2) {
        for (i, n) in some.iter().enumerate() {
            let [high, low] = n.to_be_bytes();
            octets[2 * i] = high;
            octets[2 * i + 1] = low;
        }
        let size = octets.len().min(2 * some.len());
        say_all(out, &octets[..size]);
    }
}

// Writes a number in one, two or four octets, high octet first.
pub fn say(out: &mut Out, n: u32, width: usize) {
    let octets = n.to_be_bytes();
    say_all(out, &octets[octets.len().saturating_sub(width)..]);
}

// Writes that the call was done, and a number that it returned (rule 25.3).
pub fn say_done(out: &mut Out, n: usize, width: usize) {
    say(out, 0, 1);
    say(out, (n % 4294967296) as u32, width);
}

pub fn say_refused(out: &mut Out, why: Refusal) {
    say(out, 0xFF, 1);
    say(out, why.number() as u32, 1);
    say(out, (why.place % 65536) as u32, 2);
}

// Writes that the line is no call (rule 25.5).
pub fn say_no_call(out: &mut Out) {
    say(out, 0xEE, 1);
}

// `size` octets from `start` on, or none if there are fewer.
fn part(octets: &[u8], start: usize, size: usize) -> &[u8] {
    octets
        .get(start..)
        .and_then(|rest| rest.get(..size))
        .unwrap_or(&[])
}

// Writes a length unchanged, and behind it that many of `octets` from `start` on, but not more than a packet may have (rule 25.43).
pub fn say_sized(out: &mut Out, octets: &[u8], start: usize, size: usize) {
    say(out, (size % 65536) as u32, 2);
    say_all(out, part(octets, start, size.min(Packet::LIMIT)));
}

// Writes the answer of a call that got a buffer, and the whole buffer, behind a refusal too (rule 25.4).
pub fn say_written(out: &mut Out, answer: Result<usize, Refusal>, width: usize, lent: &[u8]) {
    match answer {
        Ok(size) => say_done(out, size, width),
        Err(why) => say_refused(out, why),
    }
    say_all(out, lent);
}
