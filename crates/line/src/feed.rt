// What a block of the program's input returns.
use session_held::Counts;

// The program part way: base and counts of the session, how much of the line that has begun is kept, how many characters of the block were
// taken, and the place after what was written.
#[derive(Drop)]
pub struct Fed {
    pub base: u16,
    pub counts: Counts,
    pub begun: usize,
    pub taken: usize,
    pub end: usize,
}
