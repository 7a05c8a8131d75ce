// Packets: what they mean, and the types that their readers and their writer share (rules 6.1, 6.27 and 7.1).
#![tactic(auto)]

mod types;

pub use types::{Ending, Enumerated, Field, Named, PacketKind, PacketRead};
