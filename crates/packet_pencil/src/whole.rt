// IFPPacket ::= SEQUENCE { type-of-msg Type-of-msg, data-field Data-Field OPTIONAL }
ghost use Rattle.std.specs.Prelude.{◌≤◌, length};
ghost use Rattle.datagram.specs.Sizes.{packet_limit};
ghost use Rattle.packet.specs.Promise.{ReadBy};
ghost use Rattle.packet_reader.specs.Items.{NamedTold};
ghost use Rattle.packet_pencil.specs.Packet.{ChosenTaken, TypeTaken, StartTaken, AfterTaken};

use crate::bits::{align, flag};
use crate::fields::{Fields, data_field};
use crate::items::{octet, t30_data, t30_indicator};
use datagram::Packet;
use length::{Reason, Refusal};
use packet::{Ending, Named, PacketKind, PacketRead};
use packet_reader::{may_follow, no_fields};
use packet_rules::choice_of;

// A packet's kind and value, whether it has a data field, and the place after them.
#[derive(Drop)]
pub struct First {
    pub kind: PacketKind,
    pub value: u8,
    pub present: bool,
    pub next: usize,
}

// 06/98: CHOICE { t30-indicator ENUMERATED .., data ENUMERATED .. }: the one that was chosen.
// 2002:  CHOICE { t30-indicator ENUMERATED .., t30-data ENUMERATED .. }
fn chosen(
    named: Named,
    octets: &[u8],
    item: usize,
    at: usize,
    present: bool,
    is_data: bool,
) -> Result<First, Refusal>
    requires { length octets.now ≤ packet_limit }
    ensures { ChosenTaken named present is_data octets.now item at result }
{
    if is_data {
        let (value, next) = t30_data(named, octets, item, at)?;
        return Ok(First {
            kind: PacketKind::Data,
            value: (value % 256) as u8,
            present,
            next,
        });
    }
    let (value, next) = t30_indicator(named, octets, item, at)?;
    Ok(First {
        kind: PacketKind::Indicator,
        value: (value % 256) as u8,
        present,
        next,
    })
}

// The bit for data-field OPTIONAL, and the Type-of-msg.
pub fn type_of_msg(named: Named, octets: &[u8], item: usize, at: usize) -> Result<First, Refusal>
    requires { length octets.now ≤ packet_limit }
    ensures { TypeTaken named octets.now item at result }
{
    let (present, next) = flag(octets, item, at)?;
    let (is_data, value_at) = flag(octets, item, next)?;
    chosen(named, octets, item, value_at, present, is_data)
}

// The start of a packet: its type, zero bits to an octet edge, and no data field on an indicator (rule 6.14).
pub fn start(named: Named, octets: &[u8], at: usize) -> Result<First, Refusal>
    requires { length octets.now ≤ packet_limit }
    ensures { StartTaken named octets.now at result }
{
    let item = at / 8;
    let first = type_of_msg(named, octets, item, at)?;
    let edge = align(octets, first.next)?;
    if packet_rules::right_fields(first.kind, first.present) {
        Ok(First {
            next: edge,
            ..first
        })
    } else {
        Err(Refusal::at(Reason::WrongData, item))
    }
}

// data-field Data-Field OPTIONAL
fn optional(named: Named, octets: &[u8], at: usize, present: bool) -> Result<Fields, Refusal>
    requires { length octets.now ≤ packet_limit }
    ensures { AfterTaken named present octets.now at result }
{
    if present {
        return data_field(named, octets, at);
    }
    let fields = no_fields();
    Ok(Fields {
        count: 0,
        fields,
        next: at,
    })
}

// A packet of this edition, or its first refusal: 4 over the packet limit, then reading order (rule 6.13).
fn read_named(named: Named, octets: &[u8], ending: Ending) -> Result<PacketRead, Refusal>
    ensures { NamedTold named ending octets.now result }
{
    if Packet::LIMIT < octets.len() {
        return Err(Refusal::new(Reason::OutsideSizes));
    }
    let first = start(named, octets, 0)?;
    let all = optional(named, octets, first.next, first.present)?;
    let edge = align(octets, all.next)?;
    let from = octet(octets, edge);
    if !may_follow(&octets[from..], ending) {
        return Err(Refusal::at(Reason::LeftOver, edge / 8));
    }
    let fields = all.fields;
    Ok(PacketRead {
        kind: first.kind,
        value: first.value,
        count: all.count,
        fields,
    })
}

// A packet of the edition that an octet names, 0 that of 06/98 and 1 that of 2002; another octet is 15, before all (rules 7.1 and 7.2).
pub fn read(edition: u8, octets: &[u8], ending: Ending) -> Result<PacketRead, Refusal>
    ensures { ReadBy edition ending octets.now result }
{
    match choice_of(edition) {
        Some(named) => read_named(named, octets, ending),
        None => Err(Refusal::new(Reason::WrongSettings)),
    }
}
