// `replay TRACE NUMBER..` plays a recorded trace again without the datagrams of these numbers. It writes the lines to standard output and
// the four counts to standard error (rules 21.1 to 21.5 and 21.8). The trace is read block by block and may have any length;
// `trace_replay_code::replay_line` decides whether a line is dropped, and plays it otherwise.
#![tactic(auto)]

mod arguments;
mod playing;
mod taking;
mod telling;

use arguments::{MOST, Wrong};
use program_input::{fail, open, say};
use session_held::Session;
use std::env::Env;
use std::io;

// The room for the name of a file.
const PATH: usize = 4096;

fn usage(rt: &HostRuntime) {
    say(
        rt,
        b"usage: replay TRACE NUMBER..
TRACE is a file of lines in hexadecimal, one datagram a line; an empty line gives up a number
NUMBER is a datagram's number to drop, 0 to 65535 in decimal, or 0x and hexadecimal digits
",
    );
}

// Replays the trace in a file.
fn replay(rt: &HostRuntime, path: &[u8], numbers: &[u16]) -> io::Result<()> {
    let mut file = open(rt, path)?;
    let mut session = Session::fresh();
    let told = playing::play(
        &mut file,
        rt.stdout(),
        session.base,
        session.counts,
        &mut session.table,
        &mut session.octets,
        &mut session.messages,
        numbers,
    )?;
    if let Some(last) = told {
        telling::say_counts(rt, last);
    }
    Ok(())
}

// Replays the trace of that name without these numbers, and says so if it cannot be read.
fn run(rt: &HostRuntime, path: &[u8], numbers: &[u16]) -> io::Result<()> {
    replay(rt, path, numbers).or_else(|error| fail(rt, path, error))
}

fn main(rt: HostRuntime) -> io::Result<()> {
    let mut path = [0u8; PATH];
    let mut numbers = [0u16; MOST];
    let Ok(size) = rt.arg(1, &mut path) else {
        usage(&rt);
        return Ok(());
    };
    match arguments::numbers(&rt, &mut numbers) {
        Ok(dropped) => run(&rt, &path[..size], dropped),
        Err(Wrong) => Ok(()),
    }
}
