// Lines of hexadecimal, read and written as `line` defines them (rules 18.7, 18.10 and 18.11).
#![tactic(auto)]

mod hex;

pub use hex::{all_digits, hex_to_octets, pair_up, put_digits};
