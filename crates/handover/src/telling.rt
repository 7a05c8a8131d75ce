// What the program writes on standard error (rule 20.24).
use length::{Reason, Refusal};
use program_input::{say, words_of};
use std::io;
use std::io::Write;

// The system's own message for an error, without its number.
fn say_reason(rt: &HostRuntime, why: io::Error) {
    if let Ok(text) = format!(in rt.alloc(); "{why}") {
        say(rt, words_of(text.as_str()).as_bytes());
    }
}

// What went wrong with a file, and the system's own message for it.
pub fn say_failed(rt: &HostRuntime, path: &[u8], what: &[u8], why: io::Error) {
    say(rt, b"handover: ");
    say(rt, path);
    say(rt, b": ");
    say(rt, what);
    say(rt, b": ");
    say_reason(rt, why);
    say(rt, b"\n");
}

// In one write, so that no other text comes between.
fn say_meaning(rt: &HostRuntime, reason: Reason) {
    let meaning = match reason {
        Reason::OutsideRanges => ", a session outside its ranges\n",
        Reason::OtherEdition => ", an image of a version that is not known here\n",
        _ => ", a line is missing, extra or misshapen\n",
    };
    say(rt, meaning.as_bytes());
}

// A text that is refused as an image.
pub fn say_refused(rt: &HostRuntime, path: &[u8], why: Refusal) {
    say(rt, b"handover: ");
    say(rt, path);
    say(rt, b": does not read as an image: refusal ");
    let number = why.number();
    let _ = write!(rt.stderr(), "{number}");
    say_meaning(rt, why.reason)
}

pub fn say_long(rt: &HostRuntime) {
    say(rt, b"handover: the name of a FILE is too long\n")
}

// Results that could not all be written (rule 20.30).
pub fn say_unwritten(rt: &HostRuntime) {
    say(rt, b"handover: standard output: cannot be written\n")
}
