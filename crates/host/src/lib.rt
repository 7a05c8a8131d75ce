// The functions that C calls (`include/tubarexi.h`): the public calls, on sessions in the caller's own memory, with answers encoded as
// numbers (rules 24.1 to 24.4 and 24.11). A call converts nothing: the functions inside the library borrow the table and the stores.
#![tactic(auto)]

mod image_calls;
mod joiner;
mod packet_calls;
mod receiver;
mod send_calls;
mod solver;

pub use image_calls::{AfterRestore, tbx_core_image_read, tbx_core_image_write};
pub use joiner::{tbx_core_joiner_field, tbx_core_joiner_fresh, tbx_core_joiner_lost};
pub use packet_calls::{tbx_core_packet_read, tbx_core_packet_write};
pub use receiver::{
    AfterRelease, Head, tbx_core_fresh, tbx_core_in_ranges, tbx_core_offer, tbx_core_offer_checked,
    tbx_core_release, tbx_core_release_checked,
};
pub use send_calls::{
    AfterSend, tbx_core_send, tbx_core_send_checked, tbx_core_sender_fresh,
    tbx_core_sender_in_ranges,
};
pub use solver::{tbx_core_solve, tbx_core_solve_checked};
