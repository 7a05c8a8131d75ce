// What the receiving session holds, read and overwritten field by field: lines 14, 15 and 17 (rules 25.19, 25.20 and 25.22). Only this
// file depends on how the table and the stores of a receiving session are laid out.
use calls_lines::{Out, Target, say, say_done, say_sized};
use datagram::{Packet, Parity};
use session_calls::Session;

// The fields of line 17: the base and the counts, those that are in the table, and those that are octets (rule 25.38).
// They are octets of the test program's lines (tests/CALLS.md).
const BASE: u8 = 0;

const RECEIVED: u8 = 1;

const SPARE: u8 = 2;

const REPAIRED: u8 = 3;

const LOST: u8 = 4;

const STATE: u8 = 5;

const SIZE: u8 = 6;

const PACKET_OCTET: u8 = 7;

const ACCEPTED: u8 = 8;

const N: u8 = 9;

const M: u8 = 10;

const MESSAGE_SIZE: u8 = 11;

const MESSAGE_OCTET: u8 = 12;

const NOTE: u8 = 13;

// The slot of a message of a number (rule 25.39).
fn message_slot(number: u16, message: usize) -> usize {
    let slot = usize::from(number) % Session::HEARD;
    slot * Parity::MESSAGES + message % Parity::MESSAGES
}

// The place in the table of a field of a number, or of one of its messages (rule 25.39).
fn place_of(field: u8, number: u16, message: usize) -> usize {
    let kept = usize::from(number) % Session::KEPT;
    let heard = usize::from(number) % Session::HEARD;
    match field {
        STATE => kept,
        SIZE => Session::SIZES + kept,
        NOTE => Session::NOTES + kept,
        ACCEPTED => Session::MARKS + heard,
        N => Session::NS + heard,
        M => Session::MS + heard,
        _ => Session::MESSAGE_SIZES + message_slot(number, message) % Session::MESSAGES,
    }
}

// The value at that place.
fn value_at(t: &[u16; Session::PLACES], field: u8, number: u16, message: usize) -> u16 {
    t[place_of(field, number, message) % Session::PLACES]
}

// The session after `lost` skips in all, given one that already keeps what that many skips leave: only base and counts are set.
pub fn gone_on(session: Session, lost: u32) -> Session {
    let mut r = session;
    r.base = (lost % 65536) as u16;
    r.counts.lost = lost;
    r
}

// 17: overwrites one field (rule 25.22). The caller has checked that its place is there and the value fits.
pub fn overwritten(session: Session, t: Target) -> Session {
    let mut r = session;
    let number = t.number;
    let message = usize::from(t.message);
    let octet = usize::from(t.octet) % Packet::LIMIT;
    let value = t.value;
    match t.field {
        BASE => r.base = (value % 65536) as u16,
        RECEIVED => r.counts.received = value,
        SPARE => r.counts.spare = value,
        REPAIRED => r.counts.repaired = value,
        LOST => r.counts.lost = value,
        PACKET_OCTET => {
            let at = usize::from(number) % Session::KEPT * Packet::LIMIT + octet;
            r.octets[at] = (value % 256) as u8;
        }
        MESSAGE_OCTET => {
            let at = message_slot(number, message) % Session::MESSAGES * Packet::LIMIT + octet;
            r.messages[at] = (value % 256) as u8;
        }
        field => {
            let place = place_of(field, number, message) % Session::PLACES;
            r.table[place] = (value % 65536) as u16;
        }
    }
    r
}

// 14: the counts (rule 25.19).
pub fn say_counts(out: &mut Out, session: Session) {
    let c = session.counts;
    say(out, 0, 1);
    say(out, c.received, 4);
    say(out, c.spare, 4);
    say(out, c.repaired, 4);
    say(out, c.lost, 4);
}

// A number in view: state, note and packet (rule 25.20).
fn say_kept(out: &mut Out, t: &[u16; Session::PLACES], o: &[u8], number: u16) {
    let state = value_at(t, STATE, number, 0);
    say(out, (state % 256) as u32, 1);
    let note = value_at(t, NOTE, number, 0);
    say(out, u32::from(note), 2);
    let start = usize::from(number) % Session::KEPT * Packet::LIMIT;
    let size = value_at(t, SIZE, number, 0);
    say_sized(out, o, start, usize::from(size));
}

// Message i of a number, if it has more than i messages.
fn say_message(out: &mut Out, t: &[u16; Session::PLACES], g: &[u8], number: u16, i: usize) {
    let m = value_at(t, M, number, 0);
    if i < usize::from(m) {
        let size = value_at(t, MESSAGE_SIZE, number, i);
        let start = message_slot(number, i) % Session::MESSAGES * Packet::LIMIT;
        say_sized(out, g, start, usize::from(size));
    }
}

// A number from the base on: accepted, n, m and its messages (rule 25.20).
fn say_heard(out: &mut Out, t: &[u16; Session::PLACES], g: &[u8], number: u16) {
    let accepted = value_at(t, ACCEPTED, number, 0);
    say(out, (accepted % 256) as u32, 1);
    let n = value_at(t, N, number, 0);
    say(out, (n % 256) as u32, 1);
    let m = value_at(t, M, number, 0);
    say(out, (m % 256) as u32, 1);
    for i in 0..Parity::MESSAGES {
        say_message(out, t, g, number, i);
    }
}

// How many numbers are kept, and how many of them from the base on.
const KEPT: u16 = Session::KEPT as u16;

const HEARD: u16 = Session::HEARD as u16;

// 15: the view, which is the 64 numbers in view, then the 32 from the base on (rule 25.20).
pub fn say_view(out: &mut Out, session: Session) {
    let base = session.base;
    say_done(out, usize::from(base), 2);
    for i in 0..KEPT {
        let number = base.wrapping_sub(32).wrapping_add(i);
        say_kept(out, &session.table, &session.octets, number);
    }
    for i in 0..HEARD {
        let number = base.wrapping_add(i);
        say_heard(out, &session.table, &session.messages, number);
    }
}
