// Offer, over the memory of a session (rules 10.1 to 10.6). It serves callers inside this repository: it requires that the session is
// within its ranges, which the public calls check (refusal 17), and keeps it so. Base and counts are unchanged.
#![tactic(auto)]

mod kept;

ghost use Rattle.std.specs.Prelude.{◌≡◌, ◌≤◌, length};
ghost use Rattle.datagram.specs.Claims.{Inside};
ghost use Rattle.session_held.specs.Table.{lent};
ghost use Rattle.session_held.specs.Laid.{InRanges};
ghost use Rattle.session_offer.specs.Outcome.{refused_as};
ghost use Rattle.session_offer.specs.Steps.{spare_count, message_count, covered_of, carried_items, MayBeAccepted, AcceptedAt, OffersRead};
ghost use Rattle.session_offer.specs.Promise.{Offers};

use datagram::{Kind, Part, Spares};
pub use kept::keep;
use length::{Reason, Refusal};
use session_held::{Counts, Session};

// A number is late from this distance on (rule 10.3).
const LATE_FROM: u16 = 32768;

// How many of a datagram's items are spares, how many are messages, and n, which is 0 with spares.
fn spares_of(kind: Kind, count: usize) -> usize
    ensures { result ≡ spare_count kind count }
{
    match kind {
        Kind::Spares => count,
        Kind::Parity(_) => 0,
    }
}

fn messages_of(kind: Kind, count: usize) -> usize
    ensures { result ≡ message_count kind count }
{
    match kind {
        Kind::Spares => 0,
        Kind::Parity(_) => count,
    }
}

fn covered_of(kind: Kind) -> usize
    ensures { result ≡ covered_of kind }
{
    match kind {
        Kind::Spares => 0,
        Kind::Parity(n) => n,
    }
}

// Accepts a datagram at its distance from the base: its packet, its spares in order, its mark and messages, then repair (rule 10.6). With
// parity there are no spares, and with spares no messages.
fn accept(
    base: u16,
    counts: Counts,
    table: &mut [u16; Session::PLACES],
    octets: &mut [u8; Session::PACKET_OCTETS],
    messages: &mut [u8; Session::MESSAGE_OCTETS],
    s: &[u8],
    number: u16,
    distance: u16,
    packet: Part,
    kind: Kind,
    count: usize,
    items: [Part; Spares::LIMIT],
)
    requires in_ranges { InRanges (lent base counts table.old octets.old messages.old) }
    requires may_be_accepted { MayBeAccepted (lent base counts table.old octets.old messages.old) s.now number distance packet kind count items }
    ensures { AcceptedAt (carried_items s.now number packet kind count items) distance
        (lent base counts table.old octets.old messages.old)
        (lent base counts table.new octets.new messages.new) }
{
    kept::keep(table, octets, number, Session::RECEIVED, number, s, packet);
    let spares = spares_of(kind, count);
    kept::keep_spares(table, octets, number, s, items, spares);
    let n = covered_of(kind);
    let m = messages_of(kind, count);
    kept::hold(base, table, messages, s, distance, n, items, m);
    session_repair::mend(base, table, octets, messages, number);
}

// A refusal, made from its reason.
fn refused(reason: Reason) -> Result<(), Refusal>
    ensures { result ≡ refused_as reason }
{
    Err(Refusal::new(reason))
}

// Offers a datagram that was read: it is too far ahead, late, repeated or accepted (rules 10.1 to 10.4).
fn offer_read(
    base: u16,
    counts: Counts,
    table: &mut [u16; Session::PLACES],
    octets: &mut [u8; Session::PACKET_OCTETS],
    messages: &mut [u8; Session::MESSAGE_OCTETS],
    s: &[u8],
    number: u16,
    packet: Part,
    kind: Kind,
    count: usize,
    items: [Part; Spares::LIMIT],
) -> Result<(), Refusal>
    requires in_ranges { InRanges (lent base counts table.old octets.old messages.old) }
    requires inside { Inside s.now packet kind count items }
    requires count_in_bounds { count ≤ length items }
    ensures { OffersRead (carried_items s.now number packet kind count items)
        (lent base counts table.old octets.old messages.old)
        (lent base counts table.new octets.new messages.new) result }
{
    let distance = number.wrapping_sub(base);
    if LATE_FROM <= distance {
        return refused(Reason::Late);
    }
    if Session::AHEAD <= distance {
        return refused(Reason::TooFar);
    }
    if session_held::accepted_at(table, session_held::heard_slot(number)) {
        return refused(Reason::Repeated);
    }
    accept(
        base, counts, table, octets, messages, s, number, distance, packet, kind, count, items,
    );
    Ok(())
}

// Offers any octets to the session (rule 10.13).
pub fn offer_core(
    base: u16,
    counts: Counts,
    table: &mut [u16; Session::PLACES],
    octets: &mut [u8; Session::PACKET_OCTETS],
    messages: &mut [u8; Session::MESSAGE_OCTETS],
    s: &[u8],
) -> Result<(), Refusal>
    requires { InRanges (lent base counts table.old octets.old messages.old) }
    ensures { Offers s.now (lent base counts table.old octets.old messages.old)
        (lent base counts table.new octets.new messages.new) result }
{
    let read = datagram_reader::read(s)?;
    offer_read(
        base,
        counts,
        table,
        octets,
        messages,
        s,
        read.number,
        read.packet,
        read.kind,
        read.count,
        read.items,
    )
}
