// What a replay returns that is not refused (rules 21.1 to 21.6).
#![tactic(auto)]

use session_held::Counts;

// The session's four counts, and how many characters the replay wrote to the front of the caller's buffer (rule 21.2).
#[derive(Drop)]
#[derive(Clone, Copy)]
pub struct Replayed {
    pub counts: Counts,
    pub size: usize,
}
