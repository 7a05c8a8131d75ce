// What is decided before a packet is written: over the whole packet and in the order of the refusals (rule 6.20), so that a refused call
// writes nothing (rule 2.33). Only this crate uses these functions.
ghost use Rattle.std.specs.Prelude.{◌≡◌, ◌-◌, ◌^◌, ◌≤◌, ◌<◌, length, leb};
ghost use Rattle.packet.specs.Edition.{many};
ghost use Rattle.packet.specs.Packet.{fields_limit, every};
ghost use Rattle.packet.specs.Write.{lengths_sum, one_each, in_sizes};
ghost use Rattle.packet_laws.specs.Octets.{Narrow};
ghost use Rattle.packet_laws.specs.Laid.{value_bits};
ghost use Rattle.packet_laws.specs.Items.{ValueWide, TypesRight, PastFits, FieldPast, FieldsPast, AllAssigned, AllRight};
ghost use Rattle.packet_laws.specs.Items.{PacketSized, Measured};
ghost use Rattle.datagram.specs.Sizes.{packet_limit};

use datagram::Packet;
use length::{Reason, Refusal};
use packet::{Enumerated, Field, Named, PacketKind};

// The sum of the lengths of at most 16 fields; nothing wraps (rule 2.34).
fn sum_of(lengths: &[u16]) -> usize
    requires { length lengths.now ≤ fields_limit }
    ensures { result ≡ lengths_sum lengths.now }
{
    lengths.iter().map(|&n| usize::from(n)).sum()
}

// How many bits a value takes: with the bit for extension, where there is a mark; an added value a 1, a 0 and six bits (rules 6.2 and 7.5).
pub fn value_width(known: Enumerated, value: u8) -> usize
    requires { Narrow known }
    ensures { ValueWide known value result }
{
    if known.assigned <= usize::from(value) {
        8
    } else if known.extensible {
        1 + known.width
    } else {
        known.width
    }
}

// The number that these bits make.
pub fn value_bits(known: Enumerated, value: u8) -> usize
    requires { Narrow known }
    ensures { result ≡ value_bits known value }
{
    let number = usize::from(value);
    if known.assigned <= number {
        128 + (number - known.assigned)
    } else {
        number
    }
}

// The place after a field at `place` with `size` octets of data: its header and, with data, an octet edge, two octets, the data (rule 6.8).
fn past_field(known: Enumerated, place: usize, kind: u8, size: usize) -> usize
    requires { Narrow known × (place < 2 ^ 24) × (size < 65536) }
    ensures { FieldPast known place kind size result }
{
    let width = value_width(known, kind);
    let next = place + 1 + width;
    if 0 < size {
        8 * ((next + 7) / 8 + 2 + size)
    } else {
        next
    }
}

// The place after at most 16 fields, the first of which is at this place.
fn past_fields(known: Enumerated, from: usize, types: &[u8], lengths: &[u16]) -> usize
    requires { PastFits known from types.now lengths.now }
    ensures { FieldsPast known from types.now lengths.now result }
{
    let mut place = from;
    for (i, kind) in types.iter().enumerate() {
        place = past_field(known, place, *kind, usize::from(lengths[i]));
    }
    place
}

// Whether each type is assigned (rule 6.19).
fn all_types(known: Enumerated, types: &[u8]) -> bool
    requires { Narrow known }
    ensures { result ≡ every (λ t. leb t (many known - 1)) types.now }
{
    let count = known.assigned + known.added;
    let last = (count - 1) as u8;
    types.iter().all(|&kind| kind <= last)
}

// Whether the data of each field is within the packet limit (rule 6.23).
fn all_short(lengths: &[u16]) -> bool
    ensures { result ≡ every (λ n. leb n packet_limit) lengths.now }
{
    lengths.iter().all(|&n| usize::from(n) <= Packet::LIMIT)
}

// Whether each of as many fields as there are types has data or not, as its type may (rules 6.10 and 7.10).
fn right_types(types: &[u8], lengths: &[u16]) -> bool
    requires { length types.now ≡ length lengths.now }
    ensures { TypesRight types.now lengths.now result }
{
    for (i, kind) in types.iter().enumerate() {
        if !packet_rules::right_data(*kind, 0 < lengths[i]) {
            return false;
        }
    }
    true
}

// Not 15: there is one length for each type, and the lengths sum to the data (rule 6.20).
fn one_each(types: &[u8], lengths: &[u16], data: &[u8]) -> bool
    requires { length types.now ≤ fields_limit }
    ensures { result ≡ one_each types.now lengths.now «data».now }
{
    types.len() == lengths.len() && sum_of(lengths) == data.len()
}

// Not 12: the value and each type are assigned (rules 2.12 and 6.19).
fn all_assigned(named: Named, kind: PacketKind, value: u8, types: &[u8]) -> bool
    ensures { AllAssigned named kind value types.now result }
{
    let values = packet_rules::values(named, kind);
    usize::from(value) < values.assigned + values.added
        && all_types(packet_rules::types(named), types)
}

// Not 14: data where it must be, none where none may be, and no fields on an indicator (rules 2.14 and 6.22).
fn all_right(named: Named, kind: PacketKind, types: &[u8], lengths: &[u16]) -> bool
    requires { length types.now ≡ length lengths.now }
    ensures { AllRight named kind types.now lengths.now result }
{
    packet_rules::right_fields(kind, 0 < types.len()) && right_types(types, lengths)
}

// Not the second 4: the data of each field and the whole are within the packet limit (rule 6.23).
fn in_sizes(lengths: &[u16], size: usize) -> bool
    ensures { result ≡ in_sizes lengths.now size }
{
    all_short(lengths) && size <= Packet::LIMIT
}

// The octets of a packet with at most 16 fields, of these types and lengths.
fn packet_size(named: Named, kind: PacketKind, value: u8, types: &[u8], lengths: &[u16]) -> usize
    requires { (length types.now ≤ fields_limit) × (length types.now ≡ length lengths.now) }
    ensures { PacketSized named kind value types.now lengths.now result }
{
    let values = packet_rules::values(named, kind);
    let bits = 2 + value_width(values, value);
    let first = (bits + 7) / 8;
    if 0 < types.len() {
        let known = packet_rules::types(named);
        let end = past_fields(known, 8 * (first + 1), types, lengths);
        (end + 7) / 8
    } else {
        first
    }
}

// How many octets a packet has, or its first refusal, without that for room (rule 6.20).
pub fn measure(
    named: Named,
    kind: PacketKind,
    value: u8,
    types: &[u8],
    lengths: &[u16],
    data: &[u8],
) -> Result<usize, Refusal>
    ensures { Measured named kind value types.now lengths.now «data».now result }
{
    if Field::LIMIT < types.len() {
        return Err(Refusal::new(Reason::OutsideSizes));
    }
    if !one_each(types, lengths, data) {
        return Err(Refusal::new(Reason::WrongSettings));
    }
    if !all_assigned(named, kind, value, types) {
        return Err(Refusal::new(Reason::NotAssigned));
    }
    if !all_right(named, kind, types, lengths) {
        return Err(Refusal::new(Reason::WrongData));
    }
    let size = packet_size(named, kind, value, types, lengths);
    if !in_sizes(lengths, size) {
        return Err(Refusal::new(Reason::OutsideSizes));
    }
    Ok(size)
}
