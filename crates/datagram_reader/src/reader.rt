// The datagram reader (rule 4.15). It makes one pass over the octets and copies none of them: it reports what it read as parts of the
// input (rule 4.23). It does not read inside a packet (rule 4.22). The length's answer is taken apart by `let else` (rule 30.4).
ghost use Rattle.std.specs.Prelude.{◌≡◌, ◌+◌, ◌*◌, ◌≤◌, length};
ghost use Rattle.datagram.specs.Read.{least_of, most_of};
ghost use Rattle.datagram.specs.Promise.{DatagramReads};
ghost use Rattle.datagram_reader.specs.Pieces.{OctetRead, LengthTold, ItemRead, SparesRead, ParityRead, ExtraRead};
ghost use Rattle.datagram_reader.specs.Pieces.{ItemsBegin, WholeRead};

use datagram::{DatagramRead, Kind, Packet, Parity, Part, Spares};
use length::{Length, Reason, Refusal};

// What comes between the newest packet and the items: the kind and count of the items, and where the first begins.
#[derive(Drop)]
#[derive(Clone, Copy)]
struct Extra {
    kind: Kind,
    count: usize,
    first: usize,
}

// The number: two octets, high first (rule 4.1).
fn number_of(high: u8, low: u8) -> u16
    ensures { result ≡ high * 256 + low }
{
    (high as u16) * 256 + (low as u16)
}

// A plain octet from least to most (rule 4.8).
fn octet_at(octets: &[u8], at: usize, least: usize, most: usize) -> Result<Length, Refusal>
    ensures { OctetRead least most octets.now at result }
{
    if octets.len() <= at {
        return Err(Refusal::at(Reason::EndsEarly, at));
    }
    let value = length::wide(octets[at]);
    if length::within(least, most, value) {
        return Ok(Length { value, size: 1 });
    }
    Err(Refusal::at(Reason::OutsideSizes, at))
}

// A length or count from least to most; a refusal is passed up with its place moved (rule 3.9).
fn length_at(octets: &[u8], at: usize, least: usize, most: usize) -> Result<Length, Refusal>
    requires { at ≤ length octets.now }
    ensures { LengthTold least most octets.now at result }
{
    let read = length_code::read_within(&octets[at..], least, most);
    let Ok(found) = read else {
        return Err(Length::refusal(read).further(at));
    };
    Ok(found)
}

// A packet, spare or message: its length, then its octets (rules 2.28 and 3.6).
fn item_at(octets: &[u8], at: usize, least: usize, most: usize) -> Result<Part, Refusal>
    requires { at ≤ length octets.now }
    ensures { ItemRead least most octets.now at result }
{
    let found = length_at(octets, at, least, most)?;
    let start = at + found.size;
    if octets.len() - start < found.value {
        return Err(Refusal::at(Reason::EndsEarly, start));
    }
    Ok(Part {
        start,
        size: found.value,
    })
}

// For spares a count (rule 4.4).
fn spares_at(octets: &[u8], at: usize) -> Result<Extra, Refusal>
    requires { at ≤ length octets.now }
    ensures { SparesRead octets.now at result }
{
    let found = length_at(octets, at, Spares::LEAST, Spares::LIMIT)?;
    let first = at + found.size;
    Ok(Extra {
        kind: Kind::Spares,
        count: found.value,
        first,
    })
}

// For parity octet 01, octet n and count m (rules 4.6 and 4.8).
fn parity_at(octets: &[u8], at: usize) -> Result<Extra, Refusal>
    requires { at ≤ length octets.now }
    ensures { ParityRead octets.now at result }
{
    octet_at(octets, at, 1, 1)?;
    let second = at + 1;
    let covered = octet_at(octets, second, Parity::PACKETS_LEAST, Parity::PACKETS)?;
    let third = at + 2;
    let found = length_at(octets, third, Parity::MESSAGES_LEAST, Parity::MESSAGES)?;
    let first = third + found.size;
    Ok(Extra {
        kind: Kind::Parity(covered.value),
        count: found.value,
        first,
    })
}

// What follows the newest packet: one octet, 00 for spares or 80 for parity (rule 4.3).
fn extra_at(octets: &[u8], at: usize) -> Result<Extra, Refusal>
    ensures { ExtraRead octets.now at result }
{
    if octets.len() <= at {
        return Err(Refusal::at(Reason::EndsEarly, at));
    }
    let choice = length::wide(octets[at]);
    let low = choice % 128;
    if low != 0 {
        return Err(Refusal::at(Reason::SpareBit, at));
    }
    let next = at + 1;
    if choice < 128 {
        return spares_at(octets, next);
    }
    parity_at(octets, next)
}

// The least length of an item (rules 4.10 and 4.11).
fn least(kind: Kind) -> usize
    ensures { result ≡ least_of kind }
{
    match kind {
        Kind::Spares => Packet::LEAST,
        Kind::Parity(_) => datagram::Message::LEAST,
    }
}

// The greatest length of an item (rules 1.1 and 1.7).
fn most(kind: Kind) -> usize
    ensures { result ≡ most_of kind }
{
    match kind {
        Kind::Spares => Packet::LIMIT,
        Kind::Parity(_) => datagram::Message::LIMIT,
    }
}

// The spares or messages, one after the other, when all before them is read. Octets behind the last are 6 (rule 4.7).
fn whole_of(octets: &[u8], number: u16, packet: Part, extra: Extra) -> Result<DatagramRead, Refusal>
    requires { ItemsBegin octets.now extra.count extra.first }
    ensures { WholeRead octets.now number packet extra.kind extra.count extra.first result }
{
    let low = least(extra.kind);
    let high = most(extra.kind);
    let nowhere = Part { start: 0, size: 0 };
    let mut items = [nowhere; Spares::LIMIT];
    let mut at = extra.first;
    for i in 0..extra.count {
        let part = item_at(octets, at, low, high)?;
        items[i] = part;
        at = part.start + part.size;
    }
    if at < octets.len() {
        return Err(Refusal::at(Reason::LeftOver, at));
    }
    Ok(DatagramRead {
        number,
        packet,
        kind: extra.kind,
        count: extra.count,
        items,
    })
}

// The datagram in `octets`: 2, then in reading order (rule 4.15).
pub fn read(octets: &[u8]) -> Result<DatagramRead, Refusal>
    ensures { DatagramReads octets.now result }
{
    if datagram::Datagram::LIMIT < octets.len() {
        return Err(Refusal::new(Reason::TooLong));
    }
    if octets.len() < 2 {
        return Err(Refusal::new(Reason::EndsEarly));
    }
    let number = number_of(octets[0], octets[1]);
    let packet = item_at(octets, 2, Packet::LEAST, Packet::LIMIT)?;
    let extra = extra_at(octets, packet.start + packet.size)?;
    whole_of(octets, number, packet, extra)
}
