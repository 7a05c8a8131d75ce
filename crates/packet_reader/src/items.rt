// A packet item by item, in a named edition: the first item, the count of fields, a field. Each item has a function of its own, which
// returns the item, or the refusal of the whole packet at the octet at which the item begins (rules 2.27 and 2.28).

ghost use Rattle.std.specs.Prelude.{◌≡◌, ◌≤◌, length};
ghost use Rattle.datagram.specs.Sizes.{packet_limit};
ghost use Rattle.packet_laws.specs.Octets.{kind_of};
ghost use Rattle.packet_reader.specs.Items.{InPacket, OctetIn, FirstHere, AfterFirst, FirstTold, CountTold};
ghost use Rattle.packet_reader.specs.Items.{AfterType, HeaderTold, SizeTold, DataTold, FieldTold};

use crate::places::{bit, bits, power, read_edge};
use crate::values::{plain_width, read_value};
use datagram::Packet;
use length::{Length, Reason, Refusal, wide};
use packet::{Field, Named, PacketKind};

// What the first item says, and the octets up to the edge after it.
#[derive(Drop)]
pub struct First {
    pub kind: PacketKind,
    pub value: u8,
    pub present: bool,
    pub octets: usize,
}

// A field's type, whether it has data, and the place after the header.
#[derive(Drop)]
struct Header {
    kind: u8,
    present: bool,
    next: usize,
}

// The kind that the second bit says (rule 6.1).
fn kind_of(octets: &[u8]) -> PacketKind
    ensures { result ≡ kind_of octets.now }
{
    if bit(octets, 1) {
        PacketKind::Data
    } else {
        PacketKind::Indicator
    }
}

// What follows the first value: zero bits to an octet edge, and whether fields may be present or not (rule 6.14).
fn after_first(octets: &[u8], kind: PacketKind, value: u8, p: usize) -> Result<First, Refusal>
    requires { InPacket octets.now p }
    ensures { AfterFirst octets.now kind value p result }
{
    let edge = read_edge(octets, p)?;
    let present = bit(octets, 0);
    if packet_rules::right_fields(kind, present) {
        Ok(First {
            kind,
            value,
            present,
            octets: edge,
        })
    } else {
        Err(Refusal::new(Reason::WrongData))
    }
}

// The first item of `octets`, its value part by part.
fn first_by_parts(octets: &[u8], named: Named, kind: PacketKind) -> Result<First, Refusal>
    requires { FirstHere octets.now kind }
    ensures { FirstTold named octets.now result }
{
    let e = packet_rules::values(named, kind);
    let (value, next) = read_value(octets, 0, 2, e)?;
    after_first(octets, kind, value, next)
}

// The first item of `octets`: bits for fields present and for the kind, the value, and zero bits to an octet edge (rules 6.1 and 6.2). A
// value before the extension mark is read in one step.
pub fn read_first(octets: &[u8], named: Named) -> Result<First, Refusal>
    requires { length octets.now ≤ packet_limit }
    ensures { FirstTold named octets.now result }
{
    let kind = kind_of(octets);
    let e = packet_rules::values(named, kind);
    let width = plain_width(e);
    let all = 8 * octets.len();
    let next = 2 + width;
    if all < next {
        return first_by_parts(octets, named, kind);
    }
    let value = bits(octets, width, 2);
    if e.assigned <= value {
        return first_by_parts(octets, named, kind);
    }
    after_first(octets, kind, value as u8, next)
}

// The count of fields from the octet `at` on, where the first item says that they are present (rule 6.4), and the place after it.
// The length's answer is taken apart by `let else`, and its refusal passed up with its place moved (rule 30.4).
pub fn read_count(input: &[u8], at: usize, present: bool) -> Result<(usize, usize), Refusal>
    requires { OctetIn input.now at }
    ensures { CountTold input.now at present result }
{
    if !present {
        return Ok((0, 8 * at));
    }
    let read = length_code::read_within(&input[at..], Field::LEAST, Field::LIMIT);
    let Ok(found) = read else {
        return Err(Length::refusal(read).further(at));
    };
    Ok((found.value, 8 * (at + found.size)))
}

// What follows a field's type, which ends at a place: whether it may have data or not (rule 6.15). The header begins at the octet `item`.
fn after_type(item: usize, kind: u8, present: bool, p: usize) -> Result<Header, Refusal>
    ensures { AfterType item kind present p result }
{
    if packet_rules::right_data(kind, present) {
        Ok(Header {
            kind,
            present,
            next: p,
        })
    } else {
        Err(Refusal::at(Reason::WrongData, item))
    }
}

// The field header at a place, its type part by part.
fn header_by_parts(octets: &[u8], p: usize, named: Named) -> Result<Header, Refusal>
    requires { InPacket octets.now p }
    ensures { HeaderTold named octets.now p result }
{
    let e = packet_rules::types(named);
    let (kind, next) = read_value(octets, p / 8, p + 1, e)?;
    after_type(p / 8, kind, bit(octets, p), next)
}

// The field header at a place: a bit for data present, and the field's type (rules 6.7 and 7.9). A type before the extension mark is read
// in one step with that bit.
fn read_header(octets: &[u8], p: usize, named: Named) -> Result<Header, Refusal>
    requires { InPacket octets.now p }
    ensures { HeaderTold named octets.now p result }
{
    let e = packet_rules::types(named);
    let below = plain_width(e);
    let width = below + 1;
    let all = 8 * octets.len();
    let next = p + width;
    if all < next {
        return header_by_parts(octets, p, named);
    }
    let header = bits(octets, width, p);
    let values = power(below);
    let value = header % values;
    if e.assigned <= value {
        return header_by_parts(octets, p, named);
    }
    let top = header >> below;
    let present = 0 < top % 2;
    after_type(p / 8, value as u8, present, next)
}

// The length of the data that begins after the two octets at the front of `octets` (rules 6.8 and 6.9).
fn read_size(octets: &[u8]) -> Result<usize, Refusal>
    ensures { SizeTold octets.now result }
{
    if octets.len() < 2 {
        return Err(Refusal::new(Reason::EndsEarly));
    }
    let high = wide(octets[0]) * 256;
    let size = high + wide(octets[1]) + 1;
    if Packet::LIMIT < size {
        return Err(Refusal::new(Reason::OutsideSizes));
    }
    let left = octets.len() - 2;
    if left < size {
        return Err(Refusal::at(Reason::EndsEarly, 2));
    }
    Ok(size)
}

// What follows a header with data: an octet edge, the data's length and the data (rule 6.8). The field, and the place after it.
fn read_data(octets: &[u8], kind: u8, p: usize) -> Result<(Field, usize), Refusal>
    requires { InPacket octets.now p }
    ensures { DataTold octets.now kind p result }
{
    let at = read_edge(octets, p)?;
    match read_size(&octets[at..]) {
        Err(refusal) => Err(refusal.further(at)),
        Ok(size) => {
            let start = at + 2;
            Ok((Field { kind, start, size }, 8 * (start + size)))
        }
    }
}

// The field at a place: its header, and what follows it. The field, and the place after it.
pub fn read_field(octets: &[u8], p: usize, named: Named) -> Result<(Field, usize), Refusal>
    requires { InPacket octets.now p }
    ensures { FieldTold named octets.now p result }
{
    let header = read_header(octets, p, named)?;
    if header.present {
        return read_data(octets, header.kind, header.next);
    }
    let bare = Field {
        kind: header.kind,
        start: 0,
        size: 0,
    };
    Ok((bare, header.next))
}
