// The whole trace, with a refusal that writes nothing (rule 21.6). The length of the text is known only at its end, so the caller's buffer
// is saved first and restored if the text does not fit. Only a text longer than what can be saved is measured first: the trace is played
// once without writing.
ghost use Rattle.std.specs.Prelude.{◌≤◌, length};
ghost use Rattle.trace_replay.specs.Promise.{Replays};
ghost use Rattle.trace_replay_code.specs.Inner.{kept_aside, Plays};

use crate::playing::play;
use datagram_writer::put_octets;
use length::Refusal;
use session_held::Session;
use trace_replay::Replayed;

// How many characters of the caller's buffer can be saved.
const KEPT: usize = 131072;

// Plays the trace from a fresh session on, and writes to the caller's buffer if `writes` is set.
fn play_fresh(
    numbers: &[u16],
    trace: &[u8],
    out: &mut [u8],
    writes: bool,
) -> Result<Replayed, Refusal>
    ensures { Plays trace.now numbers.now writes out.old out.new result }
{
    let mut session = Session::fresh();
    play(
        session.base,
        session.counts,
        &mut session.table,
        &mut session.octets,
        &mut session.messages,
        numbers,
        trace,
        out,
        writes,
    )
}

// Plays the trace with the caller's buffer saved, and restores it after a refusal.
fn play_aside(numbers: &[u16], trace: &[u8], out: &mut [u8]) -> Result<Replayed, Refusal>
    requires { length out.old ≤ kept_aside }
    ensures { Replays trace.now numbers.now out.old out.new result }
{
    let mut aside = [0u8; KEPT];
    let count = put_octets(out, &mut aside);
    let answer = play_fresh(numbers, trace, out, true);
    if answer.is_err() {
        put_octets(&aside[..count], out);
    }
    answer
}

// Plays the trace once without writing, and again with writing if the text fits.
fn play_measured(numbers: &[u16], trace: &[u8], out: &mut [u8]) -> Result<Replayed, Refusal>
    ensures { Replays trace.now numbers.now out.old out.new result }
{
    play_fresh(numbers, trace, out, false)?;
    play_fresh(numbers, trace, out, true)
}

// Gives the trace, without the lines whose datagrams have a listed number, to a fresh session, and writes the program's lines to the front
// of the caller's buffer (rules 21.1, 21.2 and 21.6).
pub fn replay(trace: &[u8], numbers: &[u16], out: &mut [u8]) -> Result<Replayed, Refusal>
    ensures { Replays trace.now numbers.now out.old out.new result }
{
    if out.len() <= KEPT {
        return play_aside(numbers, trace, out);
    }
    let first = play_aside(numbers, trace, &mut out[..KEPT]);
    match first {
        Ok(_) => first,
        Err(_) => play_measured(numbers, trace, out),
    }
}
