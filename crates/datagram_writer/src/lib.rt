// The datagram writer, and the writers of a datagram's items with their sizes, as `datagram` defines them (rules 4.1 to 4.7 and 4.17).
#![tactic(auto)]

mod put;
mod writer;

pub use put::{item_size, kind_size, put_front, put_item, put_octets};
pub use writer::write;
