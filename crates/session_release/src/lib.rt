// Release, over the memory of a session (rules 12.2 to 12.9). It serves callers inside this repository: it requires that the session is
// within its ranges, which the public call checks (refusal 17), and keeps it so. It writes only the slots of the number that leaves and of
// the one that comes into view.
#![tactic(auto)]

mod counts;

ghost use Rattle.std.specs.Prelude.{◌≡◌, ◌+◌, ◌<◌, ◌≤◌, length};
ghost use Rattle.datagram.specs.Sizes.{messages_limit};
ghost use Rattle.session.specs.View.{following};
ghost use Rattle.session_held.specs.Slots.{slots_heard, message_octets};
ghost use Rattle.session_held.specs.Table.{lent, last_state};
ghost use Rattle.session_held.specs.Laid.{InRanges};
ghost use Rattle.session_release.specs.Steps.{Named, Freed, release_refused};
ghost use Rattle.session_release.specs.Promise.{MayMoveOn, MovesOn, Leaves, Releases};

use counts::{all_passed, count_one};
use datagram::Parity;
use length::{Reason, Refusal};
use session_held::{Counts, ReleaseKind, Session};

// The number that left: its kind, number and note and the size of its packet, note and size 0 if it is lost (rules 12.2 and 12.4).
#[derive(Drop)]
#[derive(Clone, Copy)]
pub struct Released {
    pub kind: ReleaseKind,
    pub number: u16,
    pub note: u16,
    pub size: usize,
}

// What a release returns: the base and the counts after it, and what left, or the refusal.
#[derive(Drop)]
pub struct ReleaseDone {
    pub base: u16,
    pub counts: Counts,
    pub answer: Result<Released, Refusal>,
}

// The kind of a number that leaves in this state; a blank number never leaves (rule 9.3).
fn kind_of(state: u16) -> ReleaseKind
    requires { state < last_state }
    ensures { Named state result }
{
    match state {
        Session::UNKNOWN => ReleaseKind::Lost,
        Session::RECEIVED => ReleaseKind::Received,
        Session::SPARE => ReleaseKind::Spare,
        _ => ReleaseKind::Repaired,
    }
}

// The number after n, modulo 65,536 (rule 2.35).
fn number_after(n: u16) -> u16
    ensures { result ≡ following n }
{
    n.wrapping_add(1)
}

// Clears the first m messages of the number in slot j of those from the base on.
fn free_messages(messages: &mut [u8], j: usize, m: usize)
    requires j_lt_slots_heard { j < slots_heard }
    requires messages_len { length messages.old ≡ message_octets }
    requires m_le_messages_limit { m ≤ messages_limit }
    ensures { Freed j m messages.old messages.new }
{
    let at = j * Parity::MESSAGES;
    for i in 0..m {
        session_slots::clear(messages, at + i);
    }
}

// The base and the counts after a number left.
#[derive(Drop)]
struct Moved {
    base: u16,
    counts: Counts,
}

// The number at the base, which is of this kind, leaves: it is counted, and the base moves on by one (rule 12.5). The number drops its
// accepted mark and its messages, and the one that comes into view is unknown (rules 12.7 and 12.8). The number that comes into view has
// the slot of the oldest number before the base, which leaves the view.
fn move_on(
    base: u16,
    counts: Counts,
    kind: ReleaseKind,
    table: &mut [u16; Session::PLACES],
    octets: &mut [u8; Session::PACKET_OCTETS],
    messages: &mut [u8; Session::MESSAGE_OCTETS],
) -> Moved
    requires in_ranges { InRanges (lent base counts table.old octets.old messages.old) }
    requires may_move_on { MayMoveOn kind (lent base counts table.old octets.old messages.old) }
    ensures { MovesOn (lent base counts table.old octets.old messages.old)
        (lent result.base result.counts table.new octets.new messages.new) }
{
    let comes = (usize::from(base) + Session::BEFORE) % Session::KEPT;
    let leaves = session_held::heard_slot(base);
    let m = session_held::m_at(table, leaves);
    session_slots::clear(octets, comes);
    free_messages(messages, leaves, m);
    session_held::set_kept(table, comes, Session::UNKNOWN, 0, 0);
    session_held::drop_heard(table, leaves);
    Moved {
        base: number_after(base),
        counts: count_one(kind, counts),
    }
}

fn release_refused(base: u16, counts: Counts, reason: Reason) -> ReleaseDone
    ensures { result ≡ release_refused base counts reason }
{
    ReleaseDone {
        base,
        counts,
        answer: Err(Refusal::new(reason)),
    }
}

// Refuses with 16, 10 or 13, in this order (rule 12.9): 10 if the base is unknown and may not be skipped, 13 if its packet is longer than
// room. Otherwise the number at the base leaves, an unknown one as lost. Its packet stays in its slot, where the caller finds it.
pub fn leave_core(
    base: u16,
    counts: Counts,
    table: &mut [u16; Session::PLACES],
    octets: &mut [u8; Session::PACKET_OCTETS],
    messages: &mut [u8; Session::MESSAGE_OCTETS],
    skip: bool,
    room: usize,
) -> ReleaseDone
    requires { InRanges (lent base counts table.old octets.old messages.old) }
    ensures { Leaves skip room (lent base counts table.old octets.old messages.old)
        (lent result.base result.counts table.new octets.new messages.new) result.answer }
{
    if all_passed(counts) {
        return release_refused(base, counts, Reason::AllPassed);
    }
    let slot = session_held::kept_slot(base);
    let state = session_held::state_at(table, slot);
    if state == Session::UNKNOWN && !skip {
        return release_refused(base, counts, Reason::BaseUnknown);
    }
    let size = session_held::size_at(table, slot);
    if room < size {
        return release_refused(base, counts, Reason::NoRoom);
    }
    let note = session_held::note_at(table, slot);
    let kind = kind_of(state);
    let moved = move_on(base, counts, kind, table, octets, messages);
    ReleaseDone {
        base: moved.base,
        counts: moved.counts,
        answer: Ok(Released {
            kind,
            number: base,
            note,
            size,
        }),
    }
}

// A release: the packet of the number that leaves is written to the front of out (rule 12.2). A lost number has no octets, so nothing is
// written (rule 12.4).
pub fn release_core(
    base: u16,
    counts: Counts,
    table: &mut [u16; Session::PLACES],
    octets: &mut [u8; Session::PACKET_OCTETS],
    messages: &mut [u8; Session::MESSAGE_OCTETS],
    skip: bool,
    out: &mut [u8],
) -> ReleaseDone
    requires { InRanges (lent base counts table.old octets.old messages.old) }
    ensures { Releases skip (lent base counts table.old octets.old messages.old)
        (lent result.base result.counts table.new octets.new messages.new) out.old out.new
        result.answer }
{
    let done = leave_core(base, counts, table, octets, messages, skip, out.len());
    if let Ok(left) = done.answer {
        let slot = session_held::kept_slot(left.number);
        session_slots::copy_out(octets, slot, left.size, out);
    }
    done
}
