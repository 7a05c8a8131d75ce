// Solving for C: all held messages together mend losses that no single message mends. Base, counts and messages are unchanged (rule 14.8).
ghost use Rattle.session_held.specs.Table.{lent_by};
ghost use Rattle.session_held.specs.Laid.{InRanges};
ghost use Rattle.host.specs.Receiver.{session_in};
ghost use Rattle.host.specs.Solver.{SolvedTold, SolveHosted};

use crate::receiver::{Head, tbx_core_in_ranges};
use host_answers::Answered;
use length::{Reason, Refusal};
use session_held::{Counts, Session};

fn solved_told(answer: Result<(), Refusal>) -> Answered
    ensures { SolvedTold answer result }
{
    match answer {
        Ok(()) => Answered {
            refusal: 0,
            place: 0,
        },
        Err(why) => Answered {
            refusal: why.number(),
            place: why.place,
        },
    }
}

// Treats the held messages of a session within its ranges as equations, and fills each number for which they, with the known octets, allow
// only one value (rules 14.1 to 14.3).
#[unsafe(no_mangle)]
pub extern "C" fn tbx_core_solve(
    head: Head,
    table: &mut [u16; Session::PLACES],
    octets: &mut [u8; Session::PACKET_OCTETS],
    messages: &[u8; Session::MESSAGE_OCTETS],
) -> Answered
    requires { InRanges (lent_by (session_in head table.old octets.old messages.now)) }
    ensures { SolveHosted head table.old octets.old messages.now table.new
        octets.new result }
{
    let answer = solve_code::solve_core(head.base, head.counts(), table, octets, messages);
    solved_told(answer)
}

// The same for any memory: 17 if it holds no session within its ranges.
#[unsafe(no_mangle)]
pub extern "C" fn tbx_core_solve_checked(
    head: Head,
    table: &mut [u16; Session::PLACES],
    octets: &mut [u8; Session::PACKET_OCTETS],
    messages: &[u8; Session::MESSAGE_OCTETS],
) -> Answered
    ensures { SolveHosted head table.old octets.old messages.now table.new
        octets.new result }
{
    if tbx_core_in_ranges(head, table, octets, messages) {
        return tbx_core_solve(head, table, octets, messages);
    }
    Answered {
        refusal: Reason::OutsideRanges.number(),
        place: 0,
    }
}
