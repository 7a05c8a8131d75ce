// What datagrams are: their sizes (rules 1.1 to 1.7), and how they are read and written (rules 4.1 to 4.23).
#![tactic(auto)]

mod kind;
mod reader;
mod rules;

pub use datagram_sizes::{Datagram, Message, Packet, Parity, Spares};
pub use kind::Kind;
pub use reader::{DatagramRead, Part};
pub use rules::count_inside;
