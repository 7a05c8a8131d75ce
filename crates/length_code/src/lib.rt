// The length reader and the length writer, as `length` defines them (rules 3.1 to 3.9).
#![tactic(auto)]

mod reader;
mod writer;

pub use reader::{read, read_within};
pub use writer::write;
