// The history of a sending session, and the next datagram with the spares and messages made from it (rules 1.14, 15.4 to 15.6,
// 15.12 and 15.13), as `sender` defines them.
#![tactic(auto)]

mod items;
mod next;
mod slots;

pub use slots::{History, in_ranges, keep};
