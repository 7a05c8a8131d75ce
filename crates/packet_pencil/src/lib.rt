// The second packet reader, to be compared with the ASN.1: one bit at a time, one function for each production of Annex A (rule 8.1).
// It reads each item with code of its own, since it is compared with `packet_reader`.
#![tactic(auto)]

mod bits;
mod fields;
mod items;
mod whole;

// The productions one by one, for the program `explain`.
pub use bits::{align, bit, flag};
pub use fields::header;
pub use items::{count, field_data, field_type, octet, size, t30_data, t30_indicator};
pub use whole::{First, read, start};
