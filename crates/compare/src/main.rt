// `compare FIRST SECOND` compares two recorded traces and writes the entries of `trace_compare_code::compare`, one a line: the number in
// four hexadecimal digits, then 1 to 5 (rules 22.1 and 22.23). If the comparison is refused, it writes `refused`, the refusal's number and
// place, the trace and the line (rule 22.24). `./compare` makes a table of it.
#![tactic(auto)]

mod telling;

use line::Line;
use program_input::{fail, open, say};
use std::env::Env;
use std::fs::File;
use std::io;
use std::io::{BufWriter, Read};
use telling::Out;
use trace_compare::{Entry, Trace};

// The most characters of a trace: each line with just enough to know that it is too long (rules 1.11 and 1.15).
const TEXT: usize = Trace::LINES * (Line::KEPT + 1);

// At most three entries for a line of the first trace, and one for a line of the second (rule 22.19).
const ENTRIES: usize = 4 * Trace::LINES;

// The room for the name of a file.
const PATH: usize = 4096;

fn usage(rt: &HostRuntime) {
    say(rt, b"usage: compare FIRST SECOND\n");
    say(
        rt,
        b"FIRST and SECOND are files of up to 512 lines in hexadecimal, one datagram a line\n",
    );
}

// Fills a buffer from its front until it is full or the file ends, and returns how many characters it has then. Each read but the last
// gives one or more.
fn read_full(file: &mut File, text: &mut [u8]) -> io::Result<usize> {
    let mut size = 0;
    for _ in 0..text.len() {
        if text.len() <= size {
            break;
        }
        let got = file.read(&mut text[size..])?;
        if got == 0 {
            break;
        }
        size += got;
    }
    Ok(size)
}

// Reads the text of a file to the front of a buffer, and returns it; if there is more, prints that and returns None. It tries to read one
// more octet, to know whether the file ended there (rule 22.25).
fn read_text<'a>(
    rt: &HostRuntime,
    path: &[u8],
    text: &'a mut [u8],
) -> io::Result<Option<&'a [u8]>> {
    let mut file = open(rt, path)?;
    let size = read_full(&mut file, text)?;
    let mut next = [0u8; 1];
    if file.read(&mut next)? > 0 {
        say(rt, b"compare: ");
        say(rt, path);
        say(rt, b" is too long: it may have 512 lines\n");
        return Ok(None);
    }
    Ok(Some(text.get(..size).unwrap_or(&[])))
}

// Reads the file that an argument names; if it cannot, prints why and returns None.
fn read_argument<'a>(
    rt: &HostRuntime,
    at: usize,
    text: &'a mut [u8],
) -> io::Result<Option<&'a [u8]>> {
    let mut path = [0u8; PATH];
    let Ok(size) = rt.arg(at, &mut path) else {
        usage(rt);
        return Ok(None);
    };
    let name = &path[..size];
    match read_text(rt, name, text) {
        Ok(read) => Ok(read),
        Err(error) => {
            fail(rt, name, error)?;
            Ok(None)
        }
    }
}

// Compares and writes the answer. The list is large enough for any two traces (rule 22.19).
fn tell(out: &mut Out, first: &[u8], second: &[u8]) {
    let mut list = [0u16; Entry::SIZE * ENTRIES];
    let answer = trace_compare_code::compare(first, second, &mut list);
    match answer {
        Ok(count) => telling::tell_entries(out, &list, count),
        Err(refusal) => telling::tell_refused(out, refusal),
    }
}

// Reads both files, each to its own buffer, and compares them.
fn run(rt: &HostRuntime, first: &mut [u8], second: &mut [u8]) -> io::Result<()> {
    let mut out = BufWriter::new(rt.alloc(), rt.stdout())?;
    let Some(one) = read_argument(rt, 1, first)? else {
        return Ok(());
    };
    let Some(other) = read_argument(rt, 2, second)? else {
        return Ok(());
    };
    tell(&mut out, one, other);
    Ok(())
}

fn main(rt: HostRuntime) -> io::Result<()> {
    let mut first = [0u8; TEXT];
    let mut second = [0u8; TEXT];
    run(&rt, &mut first, &mut second)
}
