// The calls program: one public call a line, one answer a line, so that another program can be compared with it call by call (rule 25.1).
// It holds one receiving session, one sending session and one joiner, all fresh at the start (rule 25.2).
#![tactic(auto)]

mod compare;
mod input;
mod replay;

use calls_lines::{Arguments, CAP, FILLING, Out, say_no_call};
use calls_sessions::Held;
use input::{KEPT, octets_of};
use program_input::Lines;
use std::io;
use std::io::{BufWriter, Write};

// How many octets of arguments a line has before its cap.
#[derive(Drop)]
#[derive(Clone, Copy)]
enum Size {
    Any,
    Only(usize),
}

// The shape of a line: how many octets of arguments it has before its cap, and how many octets its cap has, which is the last argument
// (rules 25.8 to 25.36). None if there is no such call.
fn shape_of(call: u8) -> Option<(Size, usize)> {
    match call {
        0x01 | 0x03 | 0x05 | 0x07 | 0x11 | 0x19 => Some((Size::Any, 0)),
        0x02 => Some((Size::Only(2), 2)),
        0x04 | 0x06 | 0x21 | 0x31 | 0x50 => Some((Size::Any, 2)),
        0x40 => Some((Size::Any, 4)),
        0x10 | 0x14 | 0x15 | 0x1A | 0x20 | 0x30 | 0x32 | 0x33 => Some((Size::Only(0), 0)),
        0x12 => Some((Size::Only(1), 2)),
        0x16 | 0x22 => Some((Size::Only(4), 0)),
        0x17 => Some((Size::Only(10), 0)),
        0x18 => Some((Size::Only(0), 4)),
        0x23 => Some((Size::Only(9), 0)),
        0x34 => Some((Size::Only(5), 0)),
        _ => None,
    }
}

// A line taken apart: its call, its arguments before the cap, and the cap, which is 0 if the call has none.
#[derive(Drop)]
struct Parts<'a> {
    call: u8,
    arguments: &'a [u8],
    cap: usize,
}

// The parts of a line, or None if it is no call.
fn parts_of(octets: &[u8]) -> Option<Parts<'_>> {
    let (call, behind) = octets.split_first()?;
    let (size, width) = shape_of(*call)?;
    let (arguments, cap) = behind.split_at_checked(behind.len().checked_sub(width)?)?;
    if let Size::Only(size) = size
        && arguments.len() != size
    {
        return None;
    }
    Some(Parts {
        call: *call,
        arguments,
        cap: Arguments::of(cap).number(width) as usize,
    })
}

// Makes the calls that need a larger buffer or list of their own. They change nothing that the program holds (rule 25.45).
fn called_apart(out: &mut Out, held: &Held, line: Parts<'_>) {
    match line.call {
        0x40 => replay::answer(out, line.arguments, line.cap),
        0x50 => compare::answer(out, line.arguments, line.cap),
        _ => calls_sessions::write_image(out, *held, line.cap),
    }
}

// Answers a line, and returns what the program holds after it. The call gets a buffer of as many octets as its cap says (rule 25.4).
fn answered(out: &mut Out, held: Held, octets: &[u8]) -> Held {
    let mut all = [FILLING; CAP];
    let Some(line) = parts_of(octets) else {
        say_no_call(out);
        return held;
    };
    if matches!(line.call, 0x18 | 0x40 | 0x50) {
        called_apart(out, &held, line);
        return held;
    }
    match all.get_mut(..line.cap) {
        Some(lent) if line.call < 0x10 => {
            calls_lines::answer(out, line.call, line.arguments, lent);
            held
        }
        Some(lent) => calls_sessions::answer(out, held, line.call, line.arguments, lent),
        None => {
            say_no_call(out);
            held
        }
    }
}

fn main(rt: HostRuntime) -> io::Result<()> {
    let mut lines = Lines::new(rt.stdin());
    let mut out = BufWriter::new(rt.alloc(), rt.stdout())?;
    let mut held = Held::fresh();
    let mut kept = [0u8; KEPT];
    let mut octets = [0u8; KEPT];
    // The input may never end, so the lines are counted up to a number that no run reaches.
    for _ in 0..u64::MAX {
        let Some(line) = lines.next_line(&mut kept, b"") else {
            break;
        };
        // An empty line has no answer (rule 25.6).
        if !line.is_empty() {
            held = answered(&mut out, held, octets_of(line, &mut octets).unwrap_or(&[]));
            let _ = out.write_all(b"\n");
            let _ = out.flush();
        }
    }
    Ok(())
}
