// The program: lines of hexadecimal from standard input, one datagram a line, and its results to standard output (rule 18.1). How they are
// read and written is proved in `program_loop`, from any session on; this program begins with a fresh one.
#![tactic(auto)]

ghost use Rattle.receive.specs.Promise.{Receives};

use program_loop::Served;
use session_held::Session;
use std::io::{Read, Write};

fn receive<R: Read, W: Write>(input: &mut R, output: &mut W) -> Served
    ensures { Receives result }
{
    let session = Session::fresh();
    let base = session.base;
    let counts = session.counts;
    let mut table = session.table;
    let mut octets = session.octets;
    let mut messages = session.messages;
    program_loop::serve(
        input,
        output,
        base,
        counts,
        &mut table,
        &mut octets,
        &mut messages,
    )
}

fn main(rt: HostRuntime) {
    receive(&mut rt.stdin(), &mut rt.stdout());
}
