// What libtubarexi.a exports to C (`include/tubarexi.h`): the functions of `host`, each under its name and with its clauses. A library
// crate is no archive, so they stand here once more and only call those.
#![tactic(auto)]

mod image_calls;
mod joiner;
mod packet_calls;
mod receiver;
mod send_calls;
mod solver;

pub use image_calls::{tbx_core_image_read, tbx_core_image_write};
pub use joiner::{tbx_core_joiner_field, tbx_core_joiner_fresh, tbx_core_joiner_lost};
pub use packet_calls::{tbx_core_packet_read, tbx_core_packet_write};
pub use receiver::{
    tbx_core_fresh, tbx_core_in_ranges, tbx_core_offer, tbx_core_offer_checked, tbx_core_release,
    tbx_core_release_checked,
};
pub use send_calls::{
    tbx_core_send, tbx_core_send_checked, tbx_core_sender_fresh, tbx_core_sender_in_ranges,
};
pub use solver::{tbx_core_solve, tbx_core_solve_checked};
