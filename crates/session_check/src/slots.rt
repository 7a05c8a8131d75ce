// The ranges of one slot of a kept number, and of one slot of a number from the base on. A slot of length 0 is checked without the mask,
// and if a number has no messages, one loop checks all its message slots.
ghost use Rattle.std.specs.Prelude.{◌≡◌, ◌<◌, ◌≤◌, ◌&&◌, length, if◌then◌else◌, nat_le, nat_lt};
ghost use Rattle.octets.specs.Place.{all_below};
ghost use Rattle.datagram.specs.Sizes.{packet_limit, message_limit, messages_limit};
ghost use Rattle.session_slots.specs.Store.{HasSlot, zeros_past, mask};
ghost use Rattle.session_held.specs.Slots.{slots_heard, message_octets};
ghost use Rattle.session.specs.Ranges.{note_right};
ghost use Rattle.session_held.specs.Table.{places, state_numbered};
ghost use Rattle.session_held.specs.Laid.{message_laid};
ghost use Rattle.session_check.specs.Pieces.{state_right, marked_right, heard_right, sizeless, empty_at};

use crate::HELD_OCTETS;
use datagram::{Message, Packet, Parity};
use session_held::Session;

// An unknown or blank number has length 0, any other 1 to 256 (rule 13.4), and the number in the table encodes a state (rule 13.11). There
// is no branch, so the loop over all slots may check several together.
pub fn state_right(state: u16, size: usize, blank: bool) -> bool
    ensures { result ≡ state_right state size blank }
{
    let empty = ((state == Session::UNKNOWN) & !blank) | ((state == Session::BLANK) & blank);
    let filled = (state != Session::UNKNOWN) & (state < Session::BLANK);
    let fits = (Packet::LEAST <= size) & (size <= Packet::LIMIT);
    (empty & (size == 0)) | (filled & (fits & !blank))
}

// The note of a received number is its own number, that of a blank or unknown number is 0, and a spare or repaired number may have any
// (rule 13.10).
pub fn note_right(state: u16, note: u16, number: u16) -> bool
    ensures { result ≡ note_right (state_numbered state) note number }
{
    let any = (state == Session::SPARE) | (state == Session::REPAIRED);
    let own = (state == Session::RECEIVED) & (note == number);
    let none = (state != Session::RECEIVED) & (note == 0);
    any | (own | none)
}

// Octets past a length are zero (rule 13.5).
pub fn slot_right(octets: &[u8], slot: usize, size: usize, passes: &[u8]) -> bool
    requires has_slot { HasSlot slot octets.now }
    requires size_le_packet_limit { size ≤ packet_limit }
    requires passes_value { passes.now ≡ mask }
    ensures { result ≡ zeros_past octets.now slot size }
{
    if size == 0 {
        session_slots::all_zero(octets, slot)
    } else {
        session_slots::zeros_past(octets, slot, size, passes)
    }
}

// An accepted number is known, only accepted numbers have messages, with m = 0 also n = 0, otherwise n and m are within the sizes (rules
// 13.6 to 13.8), and the mark is 0 or 1 (rule 13.11).
// The parts are joined without a branch.
fn mark_right(mark: u16, known: bool, n: usize, m: usize) -> bool
    ensures { result ≡ marked_right mark known n m }
{
    if mark == 1 {
        if m == 0 {
            known & (n == 0)
        } else {
            known
                & ((Parity::PACKETS_LEAST <= n) & (n <= Parity::PACKETS) & (m <= Parity::MESSAGES))
        }
    } else {
        (mark == 0) & ((m == 0) & (n == 0))
    }
}

// How many octets message i of m may have: message places past m have length 0 (rules 13.8 and 13.9).
fn most(i: usize, m: usize) -> usize
    ensures { result ≡ (if nat_lt i m then message_limit else 0) }
{
    if i < m { Message::LIMIT } else { 0 }
}

// A message in its slot: its length is within the limit, and octets past it are zero (rules 13.5 and 13.8).
fn message_right(size: usize, limit: usize, messages: &[u8], slot: usize, passes: &[u8]) -> bool
    requires has_slot { HasSlot slot messages.now }
    requires limit_le_message_limit { limit ≤ message_limit }
    requires passes_value { passes.now ≡ mask }
    ensures { result ≡ (nat_le size limit && zeros_past messages.now slot size) }
{
    size <= limit && slot_right(messages, slot, size, passes)
}

// All messages of the number in a slot, which has m of them.
fn messages_right(table: &[u16], slot: usize, m: usize, messages: &[u8], passes: &[u8]) -> bool
    requires table_len { length table.now ≡ places }
    requires slot_lt_slots_heard { slot < slots_heard }
    requires messages_len { length messages.now ≡ message_octets }
    requires passes_value { passes.now ≡ mask }
    ensures { result ≡ all_below messages_limit (message_laid table.now messages.now slot m) }
{
    let at = slot * Parity::MESSAGES;
    let mut ok = true;
    for i in 0..Parity::MESSAGES {
        let place = at + i;
        let size = session_held::message_size_at(table, place);
        ok &= message_right(size, most(i, m), messages, place, passes);
    }
    ok
}

// Whether all messages of a number have length 0.
fn no_sizes(table: &[u16], slot: usize) -> bool
    requires table_len { length table.now ≡ places }
    requires slot_lt_slots_heard { slot < slots_heard }
    ensures { result ≡ all_below messages_limit (sizeless table.now slot) }
{
    let at = slot * Parity::MESSAGES;
    let mut ok = true;
    for i in 0..Parity::MESSAGES {
        ok &= session_held::message_size_at(table, at + i) == 0;
    }
    ok
}

// Whether the slots of all messages of a number have only zeros.
fn no_octets(messages: &[u8], slot: usize) -> bool
    requires messages_len { length messages.now ≡ message_octets }
    requires slot_lt_slots_heard { slot < slots_heard }
    ensures { result ≡ all_below messages_limit (empty_at messages.now slot) }
{
    let at = slot * HELD_OCTETS;
    let mut ok = true;
    // By index, as the contract names places of all messages: over a slice of these octets the proof did not close.
    for k in 0..HELD_OCTETS {
        ok &= messages[at + k] == 0;
    }
    ok
}

// The message slots of a number that has no messages (rules 13.5 and 13.9).
fn no_messages(table: &[u16], slot: usize, messages: &[u8]) -> bool
    requires table_len { length table.now ≡ places }
    requires slot_lt_slots_heard { slot < slots_heard }
    requires messages_len { length messages.now ≡ message_octets }
    ensures { result ≡ all_below messages_limit (message_laid table.now messages.now slot 0) }
{
    no_sizes(table, slot) && no_octets(messages, slot)
}

// A number from the base on in its slot: its mark, n and m, and its messages (rules 13.5 to 13.9).
pub fn heard_right(table: &[u16], slot: usize, known: bool, messages: &[u8], passes: &[u8]) -> bool
    requires table_len { length table.now ≡ places }
    requires slot_lt_slots_heard { slot < slots_heard }
    requires messages_len { length messages.now ≡ message_octets }
    requires passes_value { passes.now ≡ mask }
    ensures { result ≡ heard_right table.now messages.now slot known }
{
    let mark = session_held::mark_at(table, slot);
    let n = session_held::n_at(table, slot);
    let m = session_held::m_at(table, slot);
    if !mark_right(mark, known, n, m) {
        false
    } else if m == 0 {
        no_messages(table, slot, messages)
    } else {
        messages_right(table, slot, m, messages, passes)
    }
}
