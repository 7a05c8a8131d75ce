// The datagram writer (rule 4.17). It decides everything first, room included (rule 2.33). Then it lends the rest of the buffer to the item
// writers in turn (rule 30.3).
ghost use Rattle.std.specs.Prelude.{◌≤◌, ◌≡◌, length, eqb};
ghost use Rattle.length.specs.Answers.{done};
ghost use Rattle.length.specs.Length.{length_limit};
ghost use Rattle.length.specs.Promise.{Puts, Put};
ghost use Rattle.datagram.specs.Write.{datagram_octets, carried_of, sum_of, item_inside, items_inside, lengths_inside};
ghost use Rattle.datagram.specs.Inner.Heads.{Bounded, datagram_size};
ghost use Rattle.datagram_writer.specs.Promise.{DatagramWritten};

use crate::put::{item_size, items_size, kind_size, put_front, put_items};
use datagram::{Kind, Message, Packet, count_inside};
use length::{Reason, Refusal, within};

// ---- what is refused

// The length of a spare (rule 4.10) or of a message (rule 1.7) is inside the sizes.
fn item_inside(kind: Kind, n: usize) -> bool
    ensures { result ≡ item_inside kind n }
{
    match kind {
        Kind::Spares => within(Packet::LEAST, Packet::LIMIT, n),
        Kind::Parity(_) => within(Message::LEAST, Message::LIMIT, n),
    }
}

// The length of every spare or message is inside the sizes.
fn items_inside(kind: Kind, lengths: &[u16]) -> bool
    ensures { result ≡ items_inside kind lengths.now }
{
    lengths
        .iter()
        .all(|&length| item_inside(kind, usize::from(length)))
}

// Every length is inside the sizes: the newest packet's (rule 4.18), then those of the spares or messages.
fn lengths_inside(packet: &[u8], kind: Kind, lengths: &[u16]) -> bool
    ensures { result ≡ lengths_inside packet.now kind lengths.now }
{
    within(Packet::LEAST, Packet::LIMIT, packet.len()) && items_inside(kind, lengths)
}

// The lengths sum to the total. The loop subtracts them from the total, so nothing wraps (rule 2.34).
fn sums_to(lengths: &[u16], total: usize) -> bool
    ensures { result ≡ eqb (sum_of lengths.now) total }
{
    let mut left = total;
    for length in lengths {
        let n = usize::from(*length);
        if left < n {
            return false;
        }
        left -= n;
    }
    left == 0
}

// ---- what is written

// How many octets the whole datagram takes.
fn datagram_size(number: u16, packet: &[u8], kind: Kind, lengths: &[u16]) -> usize
    requires { (length packet.now ≤ length_limit) × (sum_of lengths.now ≤ length_limit) }
    ensures { result ≡ datagram_size number packet.now kind lengths.now }
{
    let newest = item_size(packet.len());
    let before = kind_size(kind, lengths.len());
    let items = items_size(lengths);
    let head = 2 + newest;
    let all = head + before;
    all + items
}

// The whole datagram, each item written behind the last one (rule 30.3).
fn put_datagram(
    number: u16,
    packet: &[u8],
    kind: Kind,
    lengths: &[u16],
    data: &[u8],
    out: &mut [u8],
) -> usize
    requires { (Bounded packet.now kind lengths.now «data».now) ×
        (datagram_size number packet.now kind lengths.now ≤ length out.old) }
    ensures { Put (datagram_octets (carried_of number packet.now kind lengths.now «data».now))
        out.old out.new result }
{
    let at = put_front(number, packet, kind, lengths.len(), out);
    let items = put_items(lengths, data, &mut out[at..]);
    at + items
}

// An allowed datagram, written if there is room; otherwise 13 (rule 2.13).
fn write_allowed(
    number: u16,
    packet: &[u8],
    kind: Kind,
    lengths: &[u16],
    data: &[u8],
    out: &mut [u8],
) -> Result<usize, Refusal>
    requires { Bounded packet.now kind lengths.now «data».now }
    ensures { Puts (done (datagram_octets (carried_of number packet.now kind lengths.now
        «data».now))) out.old out.new result }
{
    let size = datagram_size(number, packet, kind, lengths);
    if out.len() < size {
        return Err(Refusal::new(Reason::NoRoom));
    }
    let written = put_datagram(number, packet, kind, lengths, data, out);
    Ok(written)
}

// A datagram of the number, the newest packet, and spares or messages, given as their lengths and one run of data (rule 4.17). A refusal
// writes nothing (rule 2.25).
pub fn write(
    number: u16,
    packet: &[u8],
    kind: Kind,
    lengths: &[u16],
    data: &[u8],
    out: &mut [u8],
) -> Result<usize, Refusal>
    ensures { DatagramWritten number packet.now kind lengths.now «data».now
        out.old out.new result }
{
    let counted = count_inside(kind, lengths.len());
    let summed = sums_to(lengths, data.len());
    let sized = lengths_inside(packet, kind, lengths);
    if !counted {
        return Err(Refusal::new(Reason::OutsideSizes));
    }
    if !summed {
        return Err(Refusal::new(Reason::WrongSettings));
    }
    if !sized {
        return Err(Refusal::new(Reason::OutsideSizes));
    }
    write_allowed(number, packet, kind, lengths, data, out)
}
