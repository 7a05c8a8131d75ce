// Why a comparison of two traces is refused, the limit of a trace, and the codes of an entry (rule 1.15 and rules 22.2 to 22.7).
#![tactic(auto)]

ghost use Rattle.std.specs.Prelude.{◌≡◌};
ghost use Rattle.trace_compare.specs.Entries.{only_first, only_second, packet_differs, spares_differ, parity_differs};
ghost use Rattle.trace_compare.specs.Traces.{lines_limit};

use length::Refusal;

// Why a comparison is refused, and at which line of which trace. The trace is 1 or 2 and the line counts from 1; both are 0 if the refusal
// belongs to no line (rule 22.15).
#[derive(Drop)]
#[derive(Clone, Copy)]
pub struct TraceRefusal {
    pub why: Refusal,
    pub trace: u8,
    pub line: usize,
}

// A trace.
#[derive(Drop)]
pub struct Trace {}

impl Trace {
    // A trace has at most 512 lines (rule 1.15).
    pub const LINES: usize = 512;
    // The traces by the numbers with which a refusal names them (rule 22.15).
    pub const FIRST: u8 = 1;

    pub const SECOND: u8 = 2;

    pub const NONE: u8 = 0;

    pub fn lines() -> usize
        ensures { result ≡ lines_limit }
    {
        Trace::LINES
    }
}

// An entry is a datagram's number, then a code from 1 to 5, both numbers in the caller's list (rules 22.2 to 22.7).
#[derive(Drop)]
pub struct Entry {}

impl Entry {
    // How many 16-bit numbers an entry takes in the list (rule 22.2).
    pub const SIZE: usize = 2;

    pub const ONLY_FIRST: u16 = 1;

    pub const ONLY_SECOND: u16 = 2;

    pub const PACKET: u16 = 3;

    pub const SPARES: u16 = 4;

    pub const PARITY: u16 = 5;

    pub fn only_first() -> u16
        ensures { result ≡ only_first }
    {
        Entry::ONLY_FIRST
    }

    pub fn only_second() -> u16
        ensures { result ≡ only_second }
    {
        Entry::ONLY_SECOND
    }

    pub fn packet() -> u16
        ensures { result ≡ packet_differs }
    {
        Entry::PACKET
    }

    pub fn spares() -> u16
        ensures { result ≡ spares_differ }
    {
        Entry::SPARES
    }

    pub fn parity() -> u16
        ensures { result ≡ parity_differs }
    {
        Entry::PARITY
    }
}
