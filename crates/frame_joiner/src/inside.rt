// How a joiner's storage is checked, filled and cleared (rules 16.1 to 16.16). The caller lends the storage, and passes `tainted` and
// `size` by value. `feed` and `taint` take any joiner; the other functions are for this crate only.
ghost use Rattle.std.specs.Prelude.{◌≡◌, false, [], length};
ghost use Rattle.frame.specs.Frame.{frame_limit, ends_frame, hands_good, hands_bad};
ghost use Rattle.session_slots.specs.Store.{mask_over};
ghost use Rattle.frame.specs.Joiner.{in_storage, ranges_of};
ghost use Rattle.frame_joiner.specs.Inner.{LaidOut, Adds, Gives, Drops, Admitted, FieldFed, Taints, unchanged, waited};

use datagram_writer::put_octets;
use frame::{Handed, Joiner};
use length::{Reason, Refusal};
use packet::Field;
use packet_rules::right_data;

// A joiner after a call, and what the call returns. C lends the frame's storage, so the other parts of a joiner are apart from it.
#[derive(Drop)]
pub struct Kept {
    pub tainted: bool,
    pub size: u16,
    pub answer: Result<Handed, Refusal>,
}

// The mask of the storage, in the form that `session_slots` uses for a slot.
fn passing() -> [u8; Joiner::LIMIT + Joiner::LIMIT]
    ensures { result ≡ mask_over frame_limit }
{
    let mut table = [255; Joiner::LIMIT + Joiner::LIMIT];
    session_slots::clear_run(&mut table[..Joiner::LIMIT]);
    table
}

// The ranges: at most 300 octets, none while tainted, and zeros past the length (rule 16.16).
fn in_ranges(tainted: bool, size: usize, frame: &[u8]) -> bool
    requires { length frame.now ≡ frame_limit }
    ensures { result ≡ ranges_of tainted size frame.now }
{
    if Joiner::LIMIT < size {
        return false;
    }
    // `|` and `&` do not branch: with `||` and `&&` the proof would need a case for each branch.
    let bare = !tainted | (size == 0);
    let table = passing();
    let clean = session_slots::zeros_in_run(frame, size, &table);
    bare & clean
}

// Sets the octets of the open frame to zero.
fn clear(frame: &mut [u8], size: usize)
    requires { LaidOut size frame.old }
    ensures { frame.new ≡ in_storage [] }
{
    session_slots::clear_run(&mut frame[..size]);
}

// Types 2 and 4 return a good frame (rule 16.3), types 3 and 5 a bad one (rule 16.4).
fn hands_good(kind: u8) -> bool
    ensures { result ≡ hands_good kind }
{
    kind == 2 || kind == 4
}

fn hands_bad(kind: u8) -> bool
    ensures { result ≡ hands_bad kind }
{
    kind == 3 || kind == 5
}

// Types 1 to 5, which end a taint (rule 16.8).
fn ends_frame(kind: u8) -> bool
    ensures { result ≡ ends_frame kind }
{
    1 <= kind && kind <= 5
}

// A refusal that changes nothing.
fn refused(tainted: bool, size: u16, reason: Reason) -> Kept
    ensures { result ≡ unchanged tainted size reason }
{
    Kept {
        tainted,
        size,
        answer: Err(Refusal::new(reason)),
    }
}

// A field while tainted: nothing is kept or returned (rule 16.9).
fn wait(kind: u8) -> Kept
    ensures { result ≡ waited kind }
{
    Kept {
        tainted: !ends_frame(kind),
        size: 0,
        answer: Ok(Handed::Nothing),
    }
}

// Type 0 adds its data (rule 16.2). If the frame would pass 300 octets, it is 18 and the joiner is tainted (rule 16.13).
fn add(size: usize, frame: &mut [u8], octets: &[u8]) -> Kept
    requires { LaidOut size frame.old }
    ensures { Adds size octets.now frame.old frame.new result }
{
    if Joiner::LIMIT - size < octets.len() {
        clear(frame, size);
        return refused(true, 0, Reason::FrameTooLong);
    }
    let more = put_octets(octets, &mut frame[size..]);
    Kept {
        tainted: false,
        size: (size + more) as u16,
        answer: Ok(Handed::Nothing),
    }
}

// Writes the open frame to the front of out and returns this answer; then the open frame has no octets (rule 16.7). Without room it is 13,
// and the frame stays open (rule 16.15).
fn give(size: usize, frame: &mut [u8], answer: Handed, out: &mut [u8]) -> Kept
    requires { LaidOut size frame.old }
    ensures { Gives size answer frame.old frame.new out.old out.new result }
{
    if out.len() < size {
        return refused(false, size as u16, Reason::NoRoom);
    }
    put_octets(&frame[..size], out);
    clear(frame, size);
    Kept {
        tainted: false,
        size: 0,
        answer: Ok(answer),
    }
}

// Drops what is open (rules 16.5 and 16.8).
fn drop_open(size: usize, frame: &mut [u8], tainted: bool) -> Kept
    requires { LaidOut size frame.old }
    ensures { Drops tainted frame.new result }
{
    clear(frame, size);
    Kept {
        tainted,
        size: 0,
        answer: Ok(Handed::Nothing),
    }
}

// A field while the joiner is not tainted (rules 16.2 to 16.7). `&` does not branch: with `&&` the proof would need a case for each branch.
fn join(size: usize, frame: &mut [u8], kind: u8, octets: &[u8], out: &mut [u8]) -> Kept
    requires { Admitted size kind octets.now frame.old }
    ensures { FieldFed false size kind octets.now frame.old frame.new out.old
        out.new result }
{
    if kind == 0 {
        add(size, frame, octets)
    } else if hands_bad(kind) {
        give(size, frame, Handed::Bad(size), out)
    } else if hands_good(kind) & (0 < size) {
        give(size, frame, Handed::Good(size), out)
    } else {
        drop_open(size, frame, false)
    }
}

// One field, with the refusals in the order 17, 12, 14, then 18 or 13 (rule 16.14).
pub fn feed(
    tainted: bool,
    size: u16,
    frame: &mut [u8; Joiner::LIMIT],
    kind: u8,
    octets: &[u8],
    out: &mut [u8],
) -> Kept
    ensures { FieldFed tainted size kind octets.now frame.old frame.new out.old
        out.new result }
{
    let n = size as usize;
    if !in_ranges(tainted, n, frame) {
        return refused(tainted, size, Reason::OutsideRanges);
    }
    if Field::TYPES < kind {
        return refused(tainted, size, Reason::NotAssigned);
    }
    if !right_data(kind, 0 < octets.len()) {
        return refused(tainted, size, Reason::WrongData);
    }
    if tainted {
        return wait(kind);
    }
    join(n, frame, kind, octets, out)
}

// One lost number: what is open is dropped, and the joiner is tainted (rule 16.8).
pub fn taint(tainted: bool, size: u16, frame: &mut [u8; Joiner::LIMIT]) -> Kept
    ensures { Taints tainted size frame.old frame.new result }
{
    let n = size as usize;
    if !in_ranges(tainted, n, frame) {
        return refused(tainted, size, Reason::OutsideRanges);
    }
    drop_open(n, frame, true)
}
