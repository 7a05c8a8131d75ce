// What a part of a step of the program returns.
use session_held::Counts;

// Base and counts of the session after a part of a step, and the place after what it wrote.
#[derive(Drop)]
pub struct Stepped {
    pub base: u16,
    pub counts: Counts,
    pub end: usize,
}
