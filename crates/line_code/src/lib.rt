// The program as `line` defines it: one line and its result lines (rules 18.1 to 18.6), and its input, block by block, with its end (rules
// 18.8 and 18.12).
#![tactic(auto)]

mod feed;
mod releasing;
mod results;
mod steps;

pub use feed::{clear_line, find_feed, finish, keep_line, take_block};
pub use steps::step;
