// The public calls of a receiving session: each checks the session's ranges once (rule 13.12) and then calls the core, which requires them.
// A call takes the session by value and returns it with the answer. A refusal returns the session unchanged and does not touch the caller's
// buffer (rule 2.25).
#![tactic(auto)]

mod receiver;
mod solver;

use length::Refusal;
pub use receiver::{offer, release};
pub use session_held::{Counts, ReleaseKind, Session};
pub use session_release::Released;
pub use solver::solve;

// What a call returns: its answer, and the session after (rule 30.5).
#[derive(Drop)]
pub struct Returned<T> {
    pub session: Session,
    pub answer: Result<T, Refusal>,
}
