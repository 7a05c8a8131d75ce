// The program for tuning spares against parity (rules 19.1 to 19.3 and 19.8). It reads a trace from standard input as `receive` reads it.
// For each number that leaves it writes the kind and the datagram that filled it, as the release returns them; at the end it writes how
// many numbers spares and parity saved, and from how far ahead.
#![tactic(auto)]

mod saved;
mod text;

use datagram::{Datagram, Packet};
use length::Refusal;
use line::Line;
use program_input::Lines;
use saved::SAVED;
use session_calls::{Released, Session};
use std::io::Write;
use text::say_refused;

// Writes what a release returned, and returns whether a number left. A refusal is written only with leave to skip, as in `receive` (rules
// 18.3 and 18.4).
fn told<W: Write>(
    output: &mut W,
    answer: Result<Released, Refusal>,
    skip: bool,
    line: usize,
    table: &mut [u32; SAVED],
) -> bool {
    match answer {
        Err(why) => {
            if skip {
                say_refused(output, line, why);
            }
            false
        }
        Ok(left) => {
            saved::told(output, left.kind, left.number, left.note, table);
            true
        }
    }
}

// One release, with leave to skip or without: the session after it, in either case, and whether a number left.
#[derive(Drop)]
struct Turn {
    session: Session,
    more: bool,
}

fn release<W: Write>(
    output: &mut W,
    session: Session,
    skip: bool,
    line: usize,
    table: &mut [u32; SAVED],
) -> Turn {
    let mut packet = [0u8; Packet::LIMIT];
    let after = session_calls::release(session, skip, &mut packet);
    let answer = after.answer;
    let more = told(output, answer, skip, line, table);
    let held = after.session;
    Turn {
        session: held,
        more,
    }
}

// All releases after a line (rule 18.1): after as many as there are numbers from the base on, the base is unknown.
fn releases<W: Write>(
    output: &mut W,
    session: Session,
    line: usize,
    table: &mut [u32; SAVED],
) -> Session {
    let mut held = session;
    for _ in 0..Session::HEARD {
        let turn = release(output, held, false, line, table);
        held = turn.session;
        if !turn.more {
            break;
        }
    }
    held
}

// Offers a datagram.
fn offer<W: Write>(output: &mut W, session: Session, octets: &[u8], line: usize) -> Session {
    let after = session_calls::offer(session, octets);
    if let Err(why) = after.answer {
        say_refused(output, line, why);
    }
    after.session
}

// An empty line is one release with leave to skip (rule 18.2); any other line is a datagram in hexadecimal.
fn answer<W: Write>(
    output: &mut W,
    session: Session,
    digits: &[u8],
    line: usize,
    table: &mut [u32; SAVED],
) -> Session {
    if digits.is_empty() {
        return release(output, session, true, line, table).session;
    }
    let mut octets = [0u8; Datagram::LIMIT];
    match line_hex::hex_to_octets(digits, &mut octets) {
        Err(why) => {
            say_refused(output, line, why);
            session
        }
        Ok(count) => offer(output, session, &octets[..count], line),
    }
}

fn main(rt: HostRuntime) {
    let mut lines = Lines::new(rt.stdin());
    let mut output = rt.stdout();
    let mut session = Session::fresh();
    let mut table = [0u32; SAVED];
    let mut kept = [0u8; Line::KEPT];
    // The input need not end, so the lines are counted up to a number that no run reaches.
    for line in 1..usize::MAX {
        let Some(digits) = lines.next_line(&mut kept, b"") else {
            break;
        };
        let held = answer(&mut output, session, digits, line, &mut table);
        session = releases(&mut output, held, line, &mut table);
    }
    saved::say_report(&mut output, session.counts, &table);
}
