// A packet in reading order: the first item, the count of fields, each field, the end (rule 6.13).

ghost use Rattle.std.specs.Prelude.{◌≡◌, ◌≤◌, []};
ghost use Rattle.packet.specs.Packet.{fields_limit, all_zero, may_follow};
ghost use Rattle.packet_reader.specs.Items.{InPacket, FieldsTold, EndTold, NamedTold};
ghost use Rattle.packet.specs.Promise.{ReadBy, padded_fields};

use crate::items::{read_count, read_field, read_first};
use crate::places::read_edge;
use datagram::Packet;
use length::{Reason, Refusal};
use packet::{Ending, Field, Named, PacketRead};

// The fields that were read, and the place after the last one.
#[derive(Drop)]
struct FieldsRead {
    fields: [Field; Field::LIMIT],
    next: usize,
}

// As many places as a packet may have fields, all zero (rule 6.27).
pub fn no_fields() -> [Field; Field::LIMIT]
    ensures { result ≡ padded_fields [] }
{
    [Field {
        kind: 0,
        start: 0,
        size: 0,
    }; Field::LIMIT]
}

// `count` fields, the first of which begins at `from`.
fn read_fields(
    octets: &[u8],
    count: usize,
    from: usize,
    named: Named,
) -> Result<FieldsRead, Refusal>
    requires count_le_fields_limit { count ≤ fields_limit }
    requires in_packet { InPacket octets.now from }
    ensures { FieldsTold named count octets.now from result }
{
    let mut fields = no_fields();
    let mut p = from;
    for i in 0..count {
        let (field, next) = read_field(octets, p, named)?;
        fields[i] = field;
        p = next;
    }
    Ok(FieldsRead { fields, next: p })
}

// Whether `octets` holds zeros only.
fn all_zero(octets: &[u8]) -> bool
    ensures { result ≡ all_zero octets.now }
{
    octets.iter().all(|&octet| octet == 0)
}

// Whether octets may be left behind the last field: none in a received or spare packet, zeros only in a repaired one (rules 6.11 and 6.12).
pub fn may_follow(left: &[u8], ending: Ending) -> bool
    ensures { result ≡ may_follow ending left.now }
{
    match ending {
        Ending::Whole => left.len() == 0,
        Ending::Repaired => all_zero(left),
    }
}

// The end of a packet: an octet edge, and behind it only what may follow (rules 5.2, 6.11 and 6.12).
fn read_end(octets: &[u8], p: usize, ending: Ending) -> Result<(), Refusal>
    requires { InPacket octets.now p }
    ensures { EndTold ending octets.now p result }
{
    let at = read_edge(octets, p)?;
    if may_follow(&octets[at..], ending) {
        Ok(())
    } else {
        Err(Refusal::at(Reason::LeftOver, at))
    }
}

// A packet in the named edition, or its first refusal: 4 over the packet limit, then reading order (rule 6.13).
fn read_named(named: Named, octets: &[u8], ending: Ending) -> Result<PacketRead, Refusal>
    ensures { NamedTold named ending octets.now result }
{
    if Packet::LIMIT < octets.len() {
        return Err(Refusal::new(Reason::OutsideSizes));
    }
    let first = read_first(octets, named)?;
    let (count, from) = read_count(octets, first.octets, first.present)?;
    let all = read_fields(octets, count, from, named)?;
    read_end(octets, all.next, ending)?;
    let fields = all.fields;
    Ok(PacketRead {
        kind: first.kind,
        value: first.value,
        count,
        fields,
    })
}

// A packet in the edition that an octet names, or a refusal: 15 for another octet comes first (rule 7.2).
pub fn read(edition: u8, octets: &[u8], ending: Ending) -> Result<PacketRead, Refusal>
    ensures { ReadBy edition ending octets.now result }
{
    match packet_rules::choice_of(edition) {
        Some(named) => read_named(named, octets, ending),
        None => Err(Refusal::new(Reason::WrongSettings)),
    }
}
