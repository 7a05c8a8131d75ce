// Line 40: a trace played again with chosen losses (rules 21.1, 21.2 and 25.35).
use calls_lines::{Arguments, FILLING, LONGEST, Out, say, say_all, say_no_call, say_refused};
use length::Refusal;
use session_held::Counts;
use trace_replay::Replayed;

// More numbers than a line can list.
const NUMBERS: usize = 65536;

fn say_counts(out: &mut Out, counts: Counts) {
    say(out, counts.received, 4);
    say(out, counts.spare, 4);
    say(out, counts.repaired, 4);
    say(out, counts.lost, 4);
}

fn say_replayed(out: &mut Out, answer: Result<Replayed, Refusal>) {
    match answer {
        Ok(Replayed { counts, size }) => {
            say(out, 0, 1);
            say_counts(out, counts);
            say(out, (size % 4294967296) as u32, 4);
        }
        Err(why) => say_refused(out, why),
    }
}

// Reads the numbers to drop behind their count and the trace behind its length, and replays it to a buffer of `cap` octets (rules 25.4 and
// 25.35).
pub fn answer(out: &mut Out, octets: &[u8], cap: usize) {
    let mut listed = [0u16; NUMBERS];
    let mut all = [FILLING; LONGEST];
    let mut arguments = Arguments::of(octets);
    let dropped = arguments.numbers(2, &mut listed);
    let trace = arguments.sized(4);
    match all.get_mut(..cap) {
        Some(lent) if arguments.are_all() => {
            let answer = trace_replay_code::replay(trace, dropped, lent);
            say_replayed(out, answer);
            say_all(out, lent);
        }
        _ => say_no_call(out),
    }
}
