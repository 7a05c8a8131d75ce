// The receiving session in memory, as the calls inside the session receive it: base and counts by value, a table of numbers, and two stores
// of octets, with one slot for each kept packet and one for each held message. A number's slot is the number modulo the count of slots, so
// nothing moves when the base moves on (rule 9.13).
#![tactic(auto)]

mod fresh;
mod table;

ghost use Rattle.std.specs.Prelude.{◌≡◌};
ghost use Rattle.session.specs.View.{session_limit};
ghost use Rattle.session_held.specs.Slots.{slots_kept, slots_heard, kept_octets, message_octets};
ghost use Rattle.session_held.specs.Table.{places};

use datagram::{Packet, Parity};
pub use table::{
    accepted_at, drop_heard, heard_slot, is_known, kept_slot, m_at, mark_at, message_size_at, n_at,
    note_at, set_heard, set_kept, set_message_size, size_at, state_at, total,
};

// The kind of a number that leaves, as an answer names it. In the table a state is encoded as a number.
#[derive(Drop)]
#[derive(Clone, Copy)]
pub enum ReleaseKind {
    Received,
    Spare,
    Repaired,
    Lost,
}

// How many numbers left since the start, by kind (rules 9.10 and 9.11).
#[derive(Drop)]
#[derive(Clone, Copy)]
pub struct Counts {
    pub received: u32,
    pub spare: u32,
    pub repaired: u32,
    pub lost: u32,
}

#[derive(Drop)]
#[derive(Clone, Copy)]
pub struct Session {
    pub base: u16,
    pub counts: Counts,
    pub table: [u16; Session::PLACES],
    pub octets: [u8; Session::PACKET_OCTETS],
    pub messages: [u8; Session::MESSAGE_OCTETS],
}

impl Session {
    // How many numbers may pass in a session (rule 1.10).
    pub const LIMIT: u64 = 1000000;
    // How many numbers are kept before the base, and from the base on (rule 1.13).
    pub const BEFORE: usize = 32;

    pub const HEARD: usize = 32;
    // The same as a distance from the base: a datagram that is nearer may be accepted (rule 10.1).
    pub const AHEAD: u16 = Session::HEARD as u16;

    pub const KEPT: usize = Session::BEFORE + Session::HEARD;

    pub const MESSAGES: usize = Session::HEARD * Parity::MESSAGES;

    pub const PACKET_OCTETS: usize = Session::KEPT * Packet::LIMIT;

    pub const MESSAGE_OCTETS: usize = Session::MESSAGES * Packet::LIMIT;

    // The table has a run for each value: first the states, sizes and notes of kept numbers, then the marks, n and m of numbers from the
    // base on, then the sizes of messages. Message i of a number is at its slot times 4, plus i.
    pub const SIZES: usize = Session::KEPT;

    pub const NOTES: usize = Session::SIZES + Session::KEPT;

    pub const MARKS: usize = Session::NOTES + Session::KEPT;

    pub const NS: usize = Session::MARKS + Session::HEARD;

    pub const MS: usize = Session::NS + Session::HEARD;

    pub const MESSAGE_SIZES: usize = Session::MS + Session::HEARD;

    pub const PLACES: usize = Session::MESSAGE_SIZES + Session::MESSAGES;

    // The states, encoded as numbers: C lends the table, and any other number in it is outside the ranges (rule 13.11).
    pub const UNKNOWN: u16 = 0;

    pub const RECEIVED: u16 = 1;

    pub const SPARE: u16 = 2;

    pub const REPAIRED: u16 = 3;

    pub const BLANK: u16 = 4;

    pub fn limit() -> u64
        ensures { result ≡ session_limit }
    {
        Session::LIMIT
    }

    pub fn kept() -> usize
        ensures { result ≡ slots_kept }
    {
        Session::KEPT
    }

    pub fn heard() -> usize
        ensures { result ≡ slots_heard }
    {
        Session::HEARD
    }

    pub fn packet_octets() -> usize
        ensures { result ≡ kept_octets }
    {
        Session::PACKET_OCTETS
    }

    pub fn message_octets() -> usize
        ensures { result ≡ message_octets }
    {
        Session::MESSAGE_OCTETS
    }

    pub fn places() -> usize
        ensures { result ≡ places }
    {
        Session::PLACES
    }
}
