// The slots of a number, and the values of the table: only these functions read and write them. They serve callers inside this repository:
// they require that the table has its full length and that the slot exists.
ghost use Rattle.std.specs.Prelude.{◌≡◌, not, ◌+◌, ◌*◌, ◌%◌, ◌≤◌, ◌<◌, length, set, eqb};
ghost use Rattle.datagram.specs.Sizes.{messages_limit};
ghost use Rattle.session.specs.Cells.{is_unknown};
ghost use Rattle.session.specs.View.{sum};
ghost use Rattle.session_held.specs.Slots.{slots_kept, slots_heard, slots_messages};
ghost use Rattle.session_held.specs.Table.{counts_of, places, state_in, size_in, note_in, mark_in, n_in, m_in, message_size_in, message_place};
ghost use Rattle.session_held.specs.Table.{state_numbered, kept_set, heard_set, sizes_freed, heard_dropped};

use crate::{Counts, Session};
use datagram::Parity;

// The slot of a number among the kept ones, and among those from the base on (rule 9.13).
pub fn kept_slot(number: u16) -> usize
    ensures { result ≡ number % slots_kept }
{
    usize::from(number) % Session::KEPT
}

pub fn heard_slot(number: u16) -> usize
    ensures { result ≡ number % slots_heard }
{
    usize::from(number) % Session::HEARD
}

// How many numbers have passed, of all kinds: four numbers of 32 bits never pass 64 bits (rule 13.2).
pub fn total(c: Counts) -> u64
    ensures { result ≡ sum (counts_of c) }
{
    u64::from(c.received) + u64::from(c.spare) + u64::from(c.repaired) + u64::from(c.lost)
}

// The state of a kept number, encoded as a number, and how many octets its packet has.
pub fn state_at(table: &[u16], slot: usize) -> u16
    requires table_len { length table.now ≡ places }
    requires slot_lt_slots_kept { slot < slots_kept }
    ensures { result ≡ state_in table.now slot }
{
    table[slot]
}

pub fn size_at(table: &[u16], slot: usize) -> usize
    requires table_len { length table.now ≡ places }
    requires slot_lt_slots_kept { slot < slots_kept }
    ensures { result ≡ size_in table.now slot }
{
    octets::wide(table[Session::SIZES + slot])
}

// The note of a kept number: the number of the datagram whose offer filled it (rule 9.5).
pub fn note_at(table: &[u16], slot: usize) -> u16
    requires table_len { length table.now ≡ places }
    requires slot_lt_slots_kept { slot < slots_kept }
    ensures { result ≡ note_in table.now slot }
{
    table[Session::NOTES + slot]
}

// Whether a kept number is known.
pub fn is_known(table: &[u16], slot: usize) -> bool
    requires table_len { length table.now ≡ places }
    requires slot_lt_slots_kept { slot < slots_kept }
    ensures { result ≡ not (is_unknown (state_numbered (state_in table.now slot))) }
{
    table[slot] != Session::UNKNOWN
}

// Of a number from the base on: its mark, whether its datagram was accepted, its n and its m (rule 9.4).
pub fn mark_at(table: &[u16], slot: usize) -> u16
    requires table_len { length table.now ≡ places }
    requires slot_lt_slots_heard { slot < slots_heard }
    ensures { result ≡ mark_in table.now slot }
{
    table[Session::MARKS + slot]
}

pub fn accepted_at(table: &[u16], slot: usize) -> bool
    requires table_len { length table.now ≡ places }
    requires slot_lt_slots_heard { slot < slots_heard }
    ensures { result ≡ eqb (mark_in table.now slot) 1 }
{
    table[Session::MARKS + slot] == 1
}

pub fn n_at(table: &[u16], slot: usize) -> usize
    requires table_len { length table.now ≡ places }
    requires slot_lt_slots_heard { slot < slots_heard }
    ensures { result ≡ n_in table.now slot }
{
    octets::wide(table[Session::NS + slot])
}

pub fn m_at(table: &[u16], slot: usize) -> usize
    requires table_len { length table.now ≡ places }
    requires slot_lt_slots_heard { slot < slots_heard }
    ensures { result ≡ m_in table.now slot }
{
    octets::wide(table[Session::MS + slot])
}

// How many octets a message has.
pub fn message_size_at(table: &[u16], slot: usize) -> usize
    requires table_len { length table.now ≡ places }
    requires slot_lt_slots_messages { slot < slots_messages }
    ensures { result ≡ message_size_in table.now slot }
{
    octets::wide(table[Session::MESSAGE_SIZES + slot])
}

// Sets the state, the size and the note of a kept number.
pub fn set_kept(table: &mut [u16], slot: usize, state: u16, size: u16, note: u16)
    requires table_len { length table.old ≡ places }
    requires slot_lt_slots_kept { slot < slots_kept }
    ensures { table.new ≡ kept_set table.old slot state size note }
{
    table[slot] = state;
    table[Session::SIZES + slot] = size;
    table[Session::NOTES + slot] = note;
}

// Marks a number from the base on as accepted, with its n and m (rule 10.10).
pub fn set_heard(table: &mut [u16], slot: usize, n: u16, m: u16)
    requires table_len { length table.old ≡ places }
    requires slot_lt_slots_heard { slot < slots_heard }
    ensures { table.new ≡ heard_set table.old slot 1 n m }
{
    table[Session::MARKS + slot] = 1;
    table[Session::NS + slot] = n;
    table[Session::MS + slot] = m;
}

pub fn set_message_size(table: &mut [u16], slot: usize, size: u16)
    requires table_len { length table.old ≡ places }
    requires slot_lt_slots_messages { slot < slots_messages }
    ensures { table.new ≡ set table.old (message_place slot) size }
{
    table[Session::MESSAGE_SIZES + slot] = size;
}

// Drops the mark and the messages of a number (rule 12.7).
pub fn drop_heard(table: &mut [u16], slot: usize)
    requires table_len { length table.old ≡ places }
    requires slot_lt_slots_heard { slot < slots_heard }
    ensures { table.new ≡ heard_dropped table.old slot }
{
    table[Session::MARKS + slot] = 0;
    table[Session::NS + slot] = 0;
    table[Session::MS + slot] = 0;
    free_sizes(table, Session::MESSAGE_SIZES + slot * Parity::MESSAGES);
}

// Sets four sizes to 0.
fn free_sizes(table: &mut [u16], at: usize)
    requires { at + messages_limit ≤ length table.old }
    ensures { table.new ≡ sizes_freed table.old at }
{
    table[at] = 0;
    table[at + 1] = 0;
    table[at + 2] = 0;
    table[at + 3] = 0;
}
