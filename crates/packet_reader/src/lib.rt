// The packet reader, as `packet` defines it (rules 6.1 to 6.17 and 7.1 to 7.11). It reads each item with code of its own,
// since `packet_pencil` is compared with it.
#![tactic(auto)]

mod items;
mod places;
mod reader;
mod values;

// The second reader uses these too: what may follow the last field, and the places with no field.
pub use reader::{may_follow, no_fields, read};
