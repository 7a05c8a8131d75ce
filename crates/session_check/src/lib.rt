// Whether a session is within its ranges (rules 13.1 to 13.11): refusal 17 is given exactly if it is not (rule 13.12). Kept numbers are
// checked slot by slot, and what is held by distance from the base. These functions serve callers inside this repository: they require the
// lengths of the table and the stores.
#![tactic(auto)]

mod slots;

ghost use Rattle.std.specs.Prelude.{◌≡◌, ◌%◌, ◌&&◌, length, ◌==◌, nat_le};
ghost use Rattle.octets.specs.Place.{all_below};
ghost use Rattle.session.specs.Cells.{kept_ahead};
ghost use Rattle.session_slots.specs.Store.{mask};
ghost use Rattle.session.specs.View.{numbers, session_limit};
ghost use Rattle.session_held.specs.Slots.{slots_kept, kept_octets, message_octets};
ghost use Rattle.session_held.specs.Table.{places, lent};
ghost use Rattle.session_held.specs.Laid.{lent_in_ranges};
ghost use Rattle.session_check.specs.Pieces.{passed_of, SizesFit, state_test, note_test, packet_test, all_kept, heard_test};

use datagram::{Packet, Parity};
use session_held::{Counts, Session};
use slots::{heard_right, note_right, slot_right, state_right};

// Numbers are counted modulo this (rule 2.35).
const NUMBERS: u64 = 65536;
// How many kept numbers there are, and how many of them are before the base, in the table's sixteen bits.
const KEPT: u16 = Session::KEPT as u16;

const BEFORE: u16 = Session::BEFORE as u16;
// How many octets the slots of all messages of a number have.
const HELD_OCTETS: usize = Parity::MESSAGES * Packet::LIMIT;

// The base equals the sum of the counts modulo 65,536, and the sum is at most 1,000,000 (rules 13.1 and 13.2).
fn sum_right(base: u16, whole: u64) -> bool
    ensures { result ≡ (base == whole % numbers && nat_le whole session_limit) }
{
    u64::from(base) == whole % NUMBERS && whole <= Session::LIMIT
}

// How many of the 32 numbers before the base have passed; the others are blank (rule 13.3).
fn passed(whole: u64) -> u16
    ensures { result ≡ passed_of whole }
{
    if whole < Session::BEFORE as u64 {
        whole as u16
    } else {
        BEFORE
    }
}

// The states and lengths of all kept numbers, slot by slot. The number base - j is blank exactly if j exceeds the sum of the counts, and no
// other is (rule 13.3): the number in a slot is at place number - base + 32 of the view. Sixteen-bit numbers, and no branch that leaves the
// loop, allow eight slots to be checked together.
fn all_states_right(base: u16, whole: u64, table: &[u16]) -> bool
    requires { length table.now ≡ places }
    ensures { result ≡ all_below slots_kept (state_test base whole table.now) }
{
    let shift = BEFORE + KEPT - base % KEPT;
    let gone = passed(whole);
    let mut ok = true;
    for i in 0..Session::KEPT {
        let state = session_held::state_at(table, i);
        let size = session_held::size_at(table, i);
        let place = (i as u16 + shift) % KEPT;
        let right = state_right(state, size, gone + place < BEFORE);
        ok &= right;
    }
    ok
}

// The notes of all kept numbers, slot by slot, also without a branch (rule 13.10). The number at the first place of the view is base - 32.
fn all_notes_right(base: u16, table: &[u16]) -> bool
    requires { length table.now ≡ places }
    ensures { result ≡ all_below slots_kept (note_test base table.now) }
{
    let shift = BEFORE + KEPT - base % KEPT;
    let first = base.wrapping_sub(BEFORE);
    let mut ok = true;
    for i in 0..Session::KEPT {
        let state = session_held::state_at(table, i);
        let note = session_held::note_at(table, i);
        let place = (i as u16 + shift) % KEPT;
        let number = first.wrapping_add(place);
        let right = note_right(state, note, number);
        ok &= right;
    }
    ok
}

// The octets of all packets, whose lengths are right (rule 13.5).
fn all_packets_laid(table: &[u16], octets: &[u8], passes: &[u8]) -> bool
    requires table_len { length table.now ≡ places }
    requires sizes_fit { SizesFit table.now }
    requires octets_len { length octets.now ≡ kept_octets }
    requires passes_value { passes.now ≡ mask }
    ensures { result ≡ all_below slots_kept (packet_test table.now octets.now) }
{
    let mut ok = true;
    for i in 0..Session::KEPT {
        let size = session_held::size_at(table, i);
        let right = slot_right(octets, i, size, passes);
        ok &= right;
    }
    ok
}

// All kept numbers.
fn all_kept_right(base: u16, whole: u64, table: &[u16], octets: &[u8], passes: &[u8]) -> bool
    requires table_len { length table.now ≡ places }
    requires octets_len { length octets.now ≡ kept_octets }
    requires passes_value { passes.now ≡ mask }
    ensures { result ≡ all_kept base whole table.now octets.now }
{
    all_states_right(base, whole, table) && all_packets_laid(table, octets, passes)
}

// All that is held, by distance from the base (rules 13.5 to 13.9).
fn all_heard_right(base: u16, table: &[u16], messages: &[u8], passes: &[u8]) -> bool
    requires table_len { length table.now ≡ places }
    requires messages_len { length messages.now ≡ message_octets }
    requires passes_value { passes.now ≡ mask }
    ensures { result ≡ all_below kept_ahead (heard_test base table.now messages.now) }
{
    let base = usize::from(base);
    let mut ok = true;
    for d in 0..Session::HEARD {
        let slot = (base + d) % Session::HEARD;
        let place = (base + Session::BEFORE + (Session::BEFORE + d)) % Session::KEPT;
        let known = session_held::is_known(table, place);
        let right = heard_right(table, slot, known, messages, passes);
        ok &= right;
    }
    ok
}

// All ranges of a session (rules 13.1 to 13.11).
pub fn in_ranges(base: u16, counts: Counts, table: &[u16], octets: &[u8], messages: &[u8]) -> bool
    requires table_len { length table.now ≡ places }
    requires octets_len { length octets.now ≡ kept_octets }
    requires messages_len { length messages.now ≡ message_octets }
    ensures { result ≡ lent_in_ranges (lent base counts table.now octets.now messages.now) }
{
    let whole = session_held::total(counts);
    let passes = session_slots::passing();
    let summed = sum_right(base, whole);
    let kept = all_kept_right(base, whole, table, octets, &passes);
    let noted = all_notes_right(base, table);
    let heard = all_heard_right(base, table, messages, &passes);
    // All four are found by now, so they are joined without a branch.
    ((summed & kept) & noted) & heard
}
