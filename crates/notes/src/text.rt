// What is written, piece by piece, to standard output. A write that fails is passed over.
use length::{Reason, Refusal};
use std::io::Write;

pub fn say<W: Write>(output: &mut W, text: &[u8]) {
    let _ = output.write_all(text);
}

pub fn say_number<W: Write>(output: &mut W, n: usize) {
    let _ = write!(output, "{n}");
}

// Whether a refusal of an offer is met in reading order and so has a place: all up to 6 but 2 (rule 19.8).
fn has_place(reason: Reason) -> bool {
    reason.number() <= Reason::LeftOver.number() && reason.number() != Reason::TooLong.number()
}

// A line of the trace that was refused, and at which octet (rule 19.8).
pub fn say_refused<W: Write>(output: &mut W, line: usize, why: Refusal) {
    say(output, b"line ");
    say_number(output, line);
    say(output, b": refused with ");
    say_number(output, usize::from(why.number()));
    if has_place(why.reason) {
        say(output, b" at octet ");
        say_number(output, why.place);
    }
    say(output, b"\n");
}
