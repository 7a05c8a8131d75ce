// The lines of the program (rules 18.1 to 18.12), and their limits.
#![tactic(auto)]

mod feed;
mod steps;

ghost use Rattle.std.specs.Prelude.{◌≡◌};
ghost use Rattle.line.specs.Hex.{line_limit};
ghost use Rattle.line.specs.Feed.{kept_limit};
ghost use Rattle.line.specs.Promise.{step_limit};

use datagram::{Datagram, Packet};
pub use feed::Fed;
use session_held::Session;
pub use steps::Stepped;

// A line of the program's input.
#[derive(Drop)]
pub struct Line {}

impl Line {
    // The most characters of a line (rule 1.11).
    pub const LIMIT: usize = 2 * Datagram::LIMIT;

    // Of a line that is too long, keep just enough to know that it is too long.
    pub const KEPT: usize = Line::LIMIT + 1;
    // How many characters are checked together in the search for a line feed.
    pub const NEAR: usize = 32;
    // How many octets are converted from digits together.
    pub const TOGETHER: usize = 16;
    // The most characters of a result line, of all releases after a line, and of all that a line can write.
    pub const RESULT: usize = 7 + 2 * Packet::LIMIT;

    pub const RELEASES: usize = Session::HEARD * Line::RESULT;

    pub const STEP: usize = Line::RESULT + Line::RELEASES;
    // The kind of a lost number in a result line (rule 18.5).
    pub const LOST: u8 = 3;
    // A line feed.
    pub const FEED: u8 = 10;

    pub fn limit() -> usize
        ensures { result ≡ line_limit }
    {
        Line::LIMIT
    }

    pub fn kept_limit() -> usize
        ensures { result ≡ kept_limit }
    {
        Line::KEPT
    }

    pub fn step_limit() -> usize
        ensures { result ≡ step_limit }
    {
        Line::STEP
    }
}
