// Line 50: two traces compared (rules 22.1, 22.16 and 25.36).
use calls_lines::{Arguments, CAP, Out, say, say_done, say_no_call, say_numbers, say_refused};
use trace_compare::TraceRefusal;

// What each place of the list holds before the call (rule 25.36).
const FILLED: u16 = 0xA5A5;

fn say_compared(out: &mut Out, answer: Result<usize, TraceRefusal>) {
    match answer {
        Ok(count) => say_done(out, count, 2),
        Err(TraceRefusal { why, trace, line }) => {
            say_refused(out, why);
            say(out, trace as u32, 1);
            say(out, (line % 65536) as u32, 2);
        }
    }
}

// Reads the two traces, each behind its length, and compares them, with a list of `cap` numbers (rule 25.36).
pub fn answer(out: &mut Out, octets: &[u8], cap: usize) {
    let mut all = [FILLED; CAP];
    let mut arguments = Arguments::of(octets);
    let one = arguments.sized(4);
    let other = arguments.sized(4);
    match all.get_mut(..cap) {
        Some(list) if arguments.are_all() => {
            let answer = trace_compare_code::compare(one, other, list);
            say_compared(out, answer);
            say_numbers(out, list);
        }
        _ => say_no_call(out),
    }
}
