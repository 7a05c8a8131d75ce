// Offer and release (rules 10.5 and 12.9).
ghost use Rattle.session_calls.specs.Receiver.{OfferOwes, ReleaseOwes};

use crate::Returned;
use length::{Reason, Refusal};
use session_held::Session;
use session_release::Released;

// Offers any octets from the network to the session (rule 10.13).
pub fn offer(mut s: Session, datagram: &[u8]) -> Returned<()>
    ensures { OfferOwes s datagram.now result }
{
    if !session_check::in_ranges(s.base, s.counts, &s.table, &s.octets, &s.messages) {
        return Returned {
            session: s,
            answer: Err(Refusal::new(Reason::OutsideRanges)),
        };
    }
    let answer = session_offer::offer_core(
        s.base,
        s.counts,
        &mut s.table,
        &mut s.octets,
        &mut s.messages,
        datagram,
    );
    Returned { session: s, answer }
}

// The number at the base leaves, its packet is written to the front of out, and the base moves on by one (rules 12.2 and 12.5). An unknown
// base is refused, or lost if it may be skipped (rules 12.3 and 12.4).
pub fn release(mut s: Session, skip: bool, out: &mut [u8]) -> Returned<Released>
    ensures { ReleaseOwes s skip out.old out.new result }
{
    if !session_check::in_ranges(s.base, s.counts, &s.table, &s.octets, &s.messages) {
        return Returned {
            session: s,
            answer: Err(Refusal::new(Reason::OutsideRanges)),
        };
    }
    let done = session_release::release_core(
        s.base,
        s.counts,
        &mut s.table,
        &mut s.octets,
        &mut s.messages,
        skip,
        out,
    );
    s.base = done.base;
    s.counts = done.counts;
    Returned {
        session: s,
        answer: done.answer,
    }
}
