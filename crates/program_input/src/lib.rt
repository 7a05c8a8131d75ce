// What the programs share: the input line by line, and the files that their arguments name. It promises safety and termination only.
#![tactic(auto)]

mod files;
mod lines;

pub use files::{fail, name_of, open, say, words_of};
pub use lines::Lines;
