// The octets of a line (rules 25.1 and 25.5).

// The most characters of a line (rule 25.5).
const LIMIT: usize = 240000;

// How many characters of a line are kept: one more, just enough to know that it is too long.
pub const KEPT: usize = LIMIT + 1;

// Writes the octets of a line to the front of `out`, and returns them: None if the line is too long or is not made of paired digits.
pub fn octets_of<'a>(line: &[u8], out: &'a mut [u8; KEPT]) -> Option<&'a [u8]> {
    let pairs = line.len() / 2;
    if LIMIT < line.len() || line.len() % 2 != 0 || !line_hex::all_digits(line) {
        return None;
    }
    line_hex::pair_up(line, out);
    Some(&out[..pairs])
}
