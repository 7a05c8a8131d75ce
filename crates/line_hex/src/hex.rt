// Hexadecimal digits: both cases are read, upper case is written (rule 18.7). The loops do not branch on a digit, so the compiler can take
// many characters at a time.
ghost use Rattle.std.specs.Prelude.{◌≡◌, ◌+◌, ◌*◌, ◌/◌, ◌%◌, ◌<◌, ◌≤◌, true, ◌++◌, length, drop, nat_lt};
ghost use Rattle.length.specs.Promise.{Puts};
ghost use Rattle.line.specs.Hex.{no_digit, digit_of, digit_for, all_digits, octets_in, line_octets, hex_of};
ghost use Rattle.line.specs.Promise.{Appends};
ghost use Rattle.line_hex.specs.Near.{together, NearRead};

use length::{Reason, Refusal};
use line::Line;

// Whether a character is a digit. A letter's two cases differ in one bit.
fn is_digit(c: u8) -> bool
    ensures { result ≡ nat_lt (digit_of c) no_digit }
{
    let decimal = c.wrapping_sub(b'0');
    let letter = (c | 32).wrapping_sub(b'a');
    (decimal < 10) | (letter < 6)
}

// The value of a digit: its low half, and 9 more for a letter.
fn value(c: u8) -> u8
    requires { digit_of c < no_digit }
    ensures { result ≡ digit_of c }
{
    c % 16 + 9 * (c / 64)
}

// A digit below 16, in upper case.
fn digit_for(n: u8) -> u8
    requires { n < 16 }
    ensures { result ≡ digit_for n }
{
    if n < 10 { b'0' + n } else { b'A' + (n - 10) }
}

// Whether every character is a digit.
pub fn all_digits(line: &[u8]) -> bool
    ensures { result ≡ all_digits line.now }
{
    let mut all = true;
    for c in line {
        all = all & is_digit(*c);
    }
    all
}

// `Line::TOGETHER` octets of a line of paired digits, from octet `from` on; the compiler can take that many together.
fn near(line: &[u8], from: usize) -> [u8; Line::TOGETHER]
    requires line_value { all_digits line.now ≡ true }
    requires together_in_bounds { from + together ≤ length line.now / 2 }
    ensures { NearRead line.now from result }
{
    let mut chunk = [0u8; Line::TOGETHER];
    for j in 0..Line::TOGETHER {
        let at = 2 * (from + j);
        let high = value(line[at]);
        let low = value(line[at + 1]);
        chunk[j] = (high % 16) * 16 + (low % 16);
    }
    chunk
}

// The octets of a line of paired digits, to the front of out, one at a time.
fn pair_few(line: &[u8], out: &mut [u8])
    requires line_value { all_digits line.now ≡ true }
    requires line_in_bounds { length line.now / 2 ≤ length out.old }
    ensures { out.new ≡ octets_in line.now ++ drop (length line.now / 2) out.old }
{
    for i in 0..line.len() / 2 {
        let at = 2 * i;
        let high = value(line[at]);
        let low = value(line[at + 1]);
        out[i] = (high % 16) * 16 + (low % 16);
    }
}

// The octets of a line of paired digits, to the front of out. The last chunk ends where the line ends, so it may overlap the one before it.
pub fn pair_up(line: &[u8], out: &mut [u8])
    requires line_value { all_digits line.now ≡ true }
    requires line_in_bounds { length line.now / 2 ≤ length out.old }
    ensures { out.new ≡ octets_in line.now ++ drop (length line.now / 2) out.old }
{
    let n = line.len() / 2;
    if n < Line::TOGETHER {
        pair_few(line, out);
        return;
    }
    let last = n - Line::TOGETHER;
    let mut i = 0;
    // The place moves by as many octets as are converted together.
    while i < last {
        out[i..i + Line::TOGETHER].copy_from_slice(&near(line, i));
        i += Line::TOGETHER;
    }
    out[last..n].copy_from_slice(&near(line, last));
}

// The octets of a line, to the front of out: 2 for a line that is too long, then 15 for one that is not made of paired digits, then 13
// (rules 18.10, 18.11 and 2.13).
pub fn hex_to_octets(line: &[u8], out: &mut [u8]) -> Result<usize, Refusal>
    ensures { Puts (line_octets line.now) out.old out.new result }
{
    let size = line.len();
    if Line::LIMIT < size {
        return Err(Refusal::new(Reason::TooLong));
    }
    let odd = size % 2;
    if odd != 0 {
        return Err(Refusal::new(Reason::WrongSettings));
    }
    if !all_digits(line) {
        return Err(Refusal::new(Reason::WrongSettings));
    }
    let count = size / 2;
    if out.len() < count {
        return Err(Refusal::new(Reason::NoRoom));
    }
    pair_up(line, out);
    Ok(count)
}

// Writes two digits for each octet to out, from place `at` on, and returns the place after them.
pub fn put_digits(octets: &[u8], out: &mut [u8], at: usize) -> usize
    requires { at + 2 * length octets.now ≤ length out.old }
    ensures { Appends (hex_of octets.now) out.old at out.new result }
{
    for (i, octet) in octets.iter().enumerate() {
        let place = at + 2 * i;
        out[place] = digit_for(*octet / 16);
        out[place + 1] = digit_for(*octet % 16);
    }
    at + 2 * octets.len()
}
