// The line of a number (rules 20.4, 20.5, 20.7 and 20.13): state octet, accepted octet, note in two octets, packet, n, m and m messages.
// Its packet and messages are returned as parts of its octets.
ghost use Rattle.std.specs.Prelude.{◌≡◌, ◌+◌, ◌*◌, ◌<◌, ◌≤◌, length, slice_index};
ghost use Rattle.image.specs.Layout.{from_base};
ghost use Rattle.image_reader.specs.Number.{TailTold, NumberTold};

use crate::items::{item_at, items_at};
use datagram::{Parity, Part};
use session_held::Session;

// The greatest n and m, in the table's sixteen bits.
const COVERED: u16 = Parity::PACKETS as u16;

const FEW: u16 = Parity::MESSAGES as u16;

// What follows the packet.
#[derive(Drop)]
pub struct Tail {
    pub n: u16,
    pub m: u16,
    pub parts: [Part; Parity::MESSAGES],
}

// A line.
#[derive(Drop)]
pub struct Number {
    pub state: u16,
    pub mark: u16,
    pub note: u16,
    pub packet: Part,
    pub n: u16,
    pub m: u16,
    pub parts: [Part; Parity::MESSAGES],
}

// An octet as the table has it.
fn octet(s: &[u8], at: usize) -> u16
    requires { at < length s.now }
    ensures { result ≡ slice_index s.now at }
{
    u16::from(s[at])
}

// Two octets as a number, the high one first.
pub fn two(high: u8, low: u8) -> u16
    ensures { result ≡ high * 256 + low }
{
    u16::from(high) * 256 + u16::from(low)
}

// The greatest value that a line may have: before the base it is 0.
fn from_base(ahead: bool, most: u16) -> u16
    ensures { result ≡ from_base ahead most }
{
    if ahead { most } else { 0 }
}

// n, m and m messages, and nothing after them.
fn tail_at(s: &[u8], at: usize, limit: usize, ahead: bool) -> Option<Tail>
    requires { at ≤ length s.now }
    ensures { TailTold limit ahead s.now at result }
{
    if s.len() - at < 2 {
        return None;
    }
    let n = octet(s, at);
    if from_base(ahead, COVERED) < n {
        return None;
    }
    let m = octet(s, at + 1);
    if from_base(ahead, FEW) < m {
        return None;
    }
    let items = items_at(s, at + 2, usize::from(m), limit)?;
    if items.end != s.len() {
        return None;
    }
    let parts = items.parts;
    Some(Tail { n, m, parts })
}

// The number whose line has these octets.
pub fn number_in(s: &[u8], limit: usize, ahead: bool) -> Option<Number>
    ensures { NumberTold limit ahead s.now result }
{
    if s.len() < 4 {
        return None;
    }
    let state = octet(s, 0);
    if Session::BLANK < state {
        return None;
    }
    let mark = octet(s, 1);
    if from_base(ahead, 1) < mark {
        return None;
    }
    let note = two(s[2], s[3]);
    let packet = item_at(s, 4, limit)?;
    let Tail { n, m, parts } = tail_at(s, packet.start + packet.size, limit, ahead)?;
    Some(Number {
        state,
        mark,
        note,
        packet,
        n,
        m,
        parts,
    })
}
