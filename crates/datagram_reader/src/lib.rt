// The datagram reader, as `datagram` defines it (rules 4.1 to 4.11, 4.15 and 4.16).
#![tactic(auto)]

mod reader;

pub use reader::read;
