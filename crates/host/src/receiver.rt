// The receiving session for C: base and counts are passed by value, table and stores by pointer. The functions that require the session's
// ranges are for memory that only the library wrote (rule 24.4); those that end in `checked` take any memory and refuse 17 (rule 24.3).
ghost use Rattle.std.specs.Prelude.{◌≡◌};
ghost use Rattle.session_held.specs.Table.{lent_by};
ghost use Rattle.session_held.specs.Laid.{InRanges};
ghost use Rattle.session_held.specs.Promise.{Fresh};
ghost use Rattle.host.specs.Receiver.{head_of, counts_in, session_in, RangesHosted, OfferHosted, ReleaseHosted};

use host_answers::{Answered, Number, number_told, offered_told};
use length::Reason;
use session_held::{Counts, Session};

// Base and counts, as C stores them.
#[repr(C)]
#[derive(Drop)]
#[derive(Clone, Copy)]
pub struct Head {
    pub base: u16,
    pub received: u32,
    pub spare: u32,
    pub repaired: u32,
    pub lost: u32,
}

impl Head {
    pub fn new(base: u16, counts: Counts) -> Head
        ensures { result ≡ head_of base counts }
    {
        Head {
            base,
            received: counts.received,
            spare: counts.spare,
            repaired: counts.repaired,
            lost: counts.lost,
        }
    }

    pub fn counts(self) -> Counts
        ensures { result ≡ counts_in self }
    {
        Counts {
            received: self.received,
            spare: self.spare,
            repaired: self.repaired,
            lost: self.lost,
        }
    }
}

// What a release returns: base and counts after it, and the answer.
#[repr(C)]
#[derive(Drop)]
pub struct AfterRelease {
    pub head: Head,
    pub left: Number,
}

// Writes a fresh session to the caller's memory (rules 9.1 and 24.18).
#[unsafe(no_mangle)]
pub extern "C" fn tbx_core_fresh(
    table: &mut [u16; Session::PLACES],
    octets: &mut [u8; Session::PACKET_OCTETS],
    messages: &mut [u8; Session::MESSAGE_OCTETS],
) -> Head
    ensures { Fresh (session_in result table.new octets.new messages.new) }
{
    let fresh = Session::fresh();
    // A field's array is stored by way of a variable.
    let new_table = fresh.table;
    let new_octets = fresh.octets;
    let new_messages = fresh.messages;
    *table = new_table;
    *octets = new_octets;
    *messages = new_messages;
    Head::new(fresh.base, fresh.counts)
}

// Whether the memory holds a session within its ranges (rules 13.1 to 13.11).
#[unsafe(no_mangle)]
pub extern "C" fn tbx_core_in_ranges(
    head: Head,
    table: &[u16; Session::PLACES],
    octets: &[u8; Session::PACKET_OCTETS],
    messages: &[u8; Session::MESSAGE_OCTETS],
) -> bool
    ensures { RangesHosted head table.now octets.now messages.now result }
{
    session_check::in_ranges(head.base, head.counts(), table, octets, messages)
}

// Offers any octets from the network to a session within its ranges (rules 10.1 to 10.10).
#[unsafe(no_mangle)]
pub extern "C" fn tbx_core_offer(
    head: Head,
    table: &mut [u16; Session::PLACES],
    octets: &mut [u8; Session::PACKET_OCTETS],
    messages: &mut [u8; Session::MESSAGE_OCTETS],
    datagram: &[u8],
) -> Answered
    requires { InRanges (lent_by (session_in head table.old octets.old messages.old)) }
    ensures { OfferHosted datagram.now head table.old octets.old messages.old
        table.new octets.new messages.new result }
{
    let counts = head.counts();
    let answer = session_offer::offer_core(head.base, counts, table, octets, messages, datagram);
    offered_told(answer)
}

// The same for any memory: 17 if it holds no session within its ranges.
#[unsafe(no_mangle)]
pub extern "C" fn tbx_core_offer_checked(
    head: Head,
    table: &mut [u16; Session::PLACES],
    octets: &mut [u8; Session::PACKET_OCTETS],
    messages: &mut [u8; Session::MESSAGE_OCTETS],
    datagram: &[u8],
) -> Answered
    ensures { OfferHosted datagram.now head table.old octets.old messages.old
        table.new octets.new messages.new result }
{
    if tbx_core_in_ranges(head, table, octets, messages) {
        return tbx_core_offer(head, table, octets, messages, datagram);
    }
    Answered {
        refusal: Reason::OutsideRanges.number(),
        place: 0,
    }
}

// Releases the number at the base of a session within its ranges, and writes its packet to the front of `out` (rules 12.2 to 12.9).
#[unsafe(no_mangle)]
pub extern "C" fn tbx_core_release(
    head: Head,
    table: &mut [u16; Session::PLACES],
    octets: &mut [u8; Session::PACKET_OCTETS],
    messages: &mut [u8; Session::MESSAGE_OCTETS],
    skip: bool,
    out: &mut [u8],
) -> AfterRelease
    requires { InRanges (lent_by (session_in head table.old octets.old messages.old)) }
    ensures { ReleaseHosted skip head table.old octets.old messages.old out.old
        table.new octets.new messages.new out.new result }
{
    let counts = head.counts();
    let done = session_release::release_core(head.base, counts, table, octets, messages, skip, out);
    AfterRelease {
        head: Head::new(done.base, done.counts),
        left: number_told(done.answer),
    }
}

// The same for any memory: 17 if it holds no session within its ranges.
#[unsafe(no_mangle)]
pub extern "C" fn tbx_core_release_checked(
    head: Head,
    table: &mut [u16; Session::PLACES],
    octets: &mut [u8; Session::PACKET_OCTETS],
    messages: &mut [u8; Session::MESSAGE_OCTETS],
    skip: bool,
    out: &mut [u8],
) -> AfterRelease
    ensures { ReleaseHosted skip head table.old octets.old messages.old out.old
        table.new octets.new messages.new out.new result }
{
    if tbx_core_in_ranges(head, table, octets, messages) {
        return tbx_core_release(head, table, octets, messages, skip, out);
    }
    let left = Number {
        refusal: Reason::OutsideRanges.number(),
        kind: 0,
        number: 0,
        note: 0,
        place: 0,
        size: 0,
    };
    AfterRelease { head, left }
}
