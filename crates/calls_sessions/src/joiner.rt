// Lines 30 to 34, on the joiner (rules 25.30 to 25.34).
use calls_lines::{Arguments, Out, say, say_all, say_done, say_no_call, say_refused};
use frame::{Handed, Joiner};
use length::Refusal;

// What the joiner returned, as an octet, and its size (rule 25.31).
fn say_frame(out: &mut Out, what: usize, size: usize) {
    say_done(out, what, 1);
    say(out, (size % 65536) as u32, 2);
}

fn say_handed(out: &mut Out, answer: Result<Handed, Refusal>) {
    match answer {
        Ok(Handed::Nothing) => say_frame(out, 0, 0),
        Ok(Handed::Good(size)) => say_frame(out, 1, size),
        Ok(Handed::Bad(size)) => say_frame(out, 2, size),
        Err(why) => say_refused(out, why),
    }
}

// 31: one field (rule 25.31). After refusal 18 the call returns the tainted joiner (rule 25.7).
fn one_field(out: &mut Out, joiner: Joiner, input: &[u8], lent: &mut [u8]) -> Joiner {
    let mut arguments = Arguments::of(input);
    let kind = arguments.octet();
    let octets = arguments.sized(2);
    if arguments.are_all() {
        let after = frame_joiner::field(joiner, kind, octets, lent);
        say_handed(out, after.answer);
        say_all(out, lent);
        return after.joiner;
    }
    say_no_call(out);
    joiner
}

fn say_lost(out: &mut Out, answer: Result<Handed, Refusal>) {
    match answer {
        Ok(_) => say(out, 0, 1),
        Err(why) => say_refused(out, why),
    }
}

// 32: one lost number (rule 25.32).
fn one_lost(out: &mut Out, joiner: Joiner) -> Joiner {
    let after = frame_joiner::lost(joiner);
    say_lost(out, after.answer);
    after.joiner
}

// 33: shows the joiner: as many octets of its frame as the size says, but not more than there are (rules 25.33 and 25.43).
fn say_joiner(out: &mut Out, joiner: Joiner) {
    let size = usize::from(joiner.size).min(Joiner::LIMIT);
    say(out, 0, 1);
    say(out, u32::from(joiner.tainted), 1);
    say(out, u32::from(joiner.size), 2);
    say_all(out, &joiner.frame[..size]);
}

// Whether the value fits a field of the joiner, and the place is there (rules 25.37, 25.38 and 25.41).
fn fits(field: u8, place: usize, value: u32) -> bool {
    match field {
        0 => value <= 1,
        1 => true,
        2 => place < Joiner::LIMIT && value <= 255,
        _ => false,
    }
}

fn overwritten(joiner: Joiner, field: u8, place: usize, value: u32) -> Joiner {
    let mut r = joiner;
    match field {
        0 => r.tainted = value == 1,
        1 => r.size = (value % 65536) as u16,
        _ => r.frame[place % Joiner::LIMIT] = (value % 256) as u8,
    }
    r
}

// 34: overwrites one field of the joiner, as a caller could (rule 25.34).
fn overwrite(out: &mut Out, joiner: Joiner, octets: &[u8]) -> Joiner {
    let mut arguments = Arguments::of(octets);
    let field = arguments.octet();
    let place = usize::from(arguments.two());
    let value = u32::from(arguments.two());
    if fits(field, place, value) {
        say(out, 0, 1);
        return overwritten(joiner, field, place, value);
    }
    say_no_call(out);
    joiner
}

pub fn answer(out: &mut Out, joiner: Joiner, call: u8, octets: &[u8], lent: &mut [u8]) -> Joiner {
    match call {
        0x30 => {
            say(out, 0, 1);
            Joiner::fresh()
        }
        0x31 => one_field(out, joiner, octets, lent),
        0x32 => one_lost(out, joiner),
        0x33 => {
            say_joiner(out, joiner);
            joiner
        }
        _ => overwrite(out, joiner, octets),
    }
}
