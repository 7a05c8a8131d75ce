// Solving, for losses that no single message repairs (rules 14.1 to 14.8).
ghost use Rattle.session_calls.specs.Solver.{SolveOwes};

use crate::Returned;
use length::{Reason, Refusal};
use session_held::Session;

// Treats the held messages as equations: an unknown number in view is filled if they and the known octets allow only one value for it (rule
// 14.2).
pub fn solve(mut s: Session) -> Returned<()>
    ensures { SolveOwes s result }
{
    if !session_check::in_ranges(s.base, s.counts, &s.table, &s.octets, &s.messages) {
        return Returned {
            session: s,
            answer: Err(Refusal::new(Reason::OutsideRanges)),
        };
    }
    let answer = solve_code::solve_core(s.base, s.counts, &mut s.table, &mut s.octets, &s.messages);
    Returned { session: s, answer }
}
