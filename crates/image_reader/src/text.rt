// The lines of an image as text: upper-case hexadecimal digits, each line ended by a line feed (rule 20.1). The reader looks for the first
// character that is no upper-case digit, so one pass both finds the end of a line and checks its digits.
ghost use Rattle.std.specs.Prelude.{◌≡◌, ◌+◌, ◌≤◌, length};
ghost use Rattle.octets.specs.Place.{all_below};
ghost use Rattle.line.specs.FeedPromise.{looked_at};
ghost use Rattle.image.specs.Parts.{upper_digit};
ghost use Rattle.image_reader.specs.Text.{upper_at, UpperTo, UpperRun, LineTaken, EditionTold};

use line::Line;
use line_hex::pair_up;

// Whether a character is an upper-case digit.
fn is_upper(c: u8) -> bool
    ensures { result ≡ upper_digit c }
{
    let decimal = std::num::wrapping_sub_u8(c, b'0');
    let letter = std::num::wrapping_sub_u8(c, b'A');
    (decimal < 10) | (letter < 6)
}

// Whether the next `Line::NEAR` characters are upper-case digits; the compiler can check that many together.
fn is_near(s: &[u8], at: usize) -> bool
    requires { at + looked_at ≤ length s.now }
    ensures { result ≡ all_below looked_at (upper_at s.now at) }
{
    let mut all = true;
    for j in 0..Line::NEAR {
        all = all & is_upper(s[at + j]);
    }
    all
}

// Where the upper-case digits at the front end, if all before `from` are such digits.
fn run_from(s: &[u8], from: usize) -> usize
    requires { UpperTo s.now from }
    ensures { UpperRun s.now result }
{
    for at in from..s.len() {
        if !is_upper(s[at]) {
            return at;
        }
    }
    s.len()
}

// Where the upper-case digits at the front end.
fn upper_run(s: &[u8]) -> usize
    ensures { UpperRun s.now result }
{
    let mut at = 0;
    // The place moves by as many characters as are checked together.
    while Line::NEAR <= s.len() - at {
        if !is_near(s, at) {
            return run_from(s, at);
        }
        at += Line::NEAR;
    }
    run_from(s, at)
}

// The line at the front of a text: how many octets it has, and how many characters with its line feed. The octets go to the front of out.
pub fn take_line(text: &[u8], out: &mut [u8]) -> Option<(usize, usize)>
    ensures { LineTaken text.now out.old out.new result }
{
    let stop = upper_run(text);
    if text.len() <= stop {
        return None;
    }
    if text[stop] != Line::FEED {
        return None;
    }
    let odd = stop % 2;
    if odd != 0 {
        return None;
    }
    let count = stop / 2;
    if out.len() < count {
        return None;
    }
    pair_up(&text[..stop], out);
    Some((count, stop + 1))
}

// The octet of the version that a text names. It can be read if the first two characters are upper-case digits (rule 20.12).
pub fn edition_named(text: &[u8]) -> Option<u8>
    ensures { EditionTold text.now result }
{
    if upper_run(text) < 2 {
        return None;
    }
    let mut octet = [0u8];
    pair_up(&text[..2], &mut octet);
    Some(octet[0])
}
