// The stored history: the slot of a number (rule 15.18), the ranges (rule 15.13), and how a packet joins (rule 15.12).
ghost use Rattle.std.specs.Prelude.{◌≡◌, ◌+◌, ◌%◌, ◌<◌, ◌≤◌, length};
ghost use Rattle.datagram.specs.Sizes.{packet_limit};
ghost use Rattle.session_slots.specs.Store.{mask};
ghost use Rattle.sender.specs.Sending.{history_kept};
ghost use Rattle.sender.specs.Sender.{length_in};
ghost use Rattle.sender.specs.Ranges.{size_in_range, place_in_range, history_in_ranges};
ghost use Rattle.sender.specs.Inner.Held.{Arrays, Joins};

use datagram::Packet;
use sender::Sender;

// The stored history, and the number of the packet that is sent after it.
#[derive(Drop)]
#[derive(Clone, Copy)]
pub struct History<'a> {
    pub number: u16,
    pub sizes: &'a [u16],
    pub octets: &'a [u8],
}

// The slot of a number.
pub fn slot_of(number: u16) -> usize
    ensures { result ≡ number % history_kept }
{
    usize::from(number) % Sender::HISTORY
}

// How many octets the packet in a slot has.
pub fn size_in(sizes: &[u16], slot: usize) -> usize
    requires { slot < length sizes.now }
    ensures { result ≡ length_in sizes.now slot }
{
    usize::from(sizes[slot])
}

// ---- the ranges

// Whether a length is in range (rule 15.13): `at` is how many packets were sent plus the place, so below 32 it is before the first.
fn size_right(at: usize, size: usize) -> bool
    ensures { result ≡ size_in_range at size }
{
    if at < Sender::HISTORY {
        size == 0
    } else {
        Packet::LEAST <= size && size <= Packet::LIMIT
    }
}

// Whether the packet at place p is in range: its length, and zeros past it.
fn place_right(sent: usize, sizes: &[u16], octets: &[u8], p: usize, table: &[u8]) -> bool
    requires { (sent + p < 4294967296) × (Arrays sizes.now octets.now) × (table.now ≡ mask) }
    ensures { result ≡ place_in_range sent sizes.now octets.now p }
{
    let at = sent + p;
    let slot = at % Sender::HISTORY;
    let size = size_in(sizes, slot);
    size_right(at, size) && session_slots::zeros_past(octets, slot, size, table)
}

// Whether the session is within its ranges (rule 15.13).
pub fn in_ranges(sent: usize, sizes: &[u16], octets: &[u8]) -> bool
    requires { Arrays sizes.now octets.now }
    ensures { result ≡ history_in_ranges sent sizes.now octets.now }
{
    if Sender::LIMIT < sent {
        return false;
    }
    let table = session_slots::passing();
    for p in 0..Sender::HISTORY {
        if !place_right(sent, sizes, octets, p, &table) {
            return false;
        }
    }
    true
}

// ---- a packet joins

// The packet takes the slot of its number, which held the oldest packet (rule 15.12).
pub fn keep(number: u16, packet: &[u8], sizes: &mut [u16], octets: &mut [u8])
    requires { (Arrays sizes.old octets.old) × (length packet.now ≤ packet_limit) }
    ensures { Joins number packet.now sizes.old octets.old sizes.new octets.new }
{
    let slot = slot_of(number);
    session_slots::clear(octets, slot);
    session_slots::put(octets, slot, packet);
    sizes[slot] = packet.len() as u16;
}
