// The packet writer, as `packet` defines it (rules 6.18 to 6.23).
#![tactic(auto)]

mod bits;
mod sizes;
mod writer;

pub use writer::write;
