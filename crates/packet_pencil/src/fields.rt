// Data-Field ::= SEQUENCE OF SEQUENCE { field-type, field-data OPTIONAL }
ghost use Rattle.std.specs.Prelude.{◌≤◌, length};
ghost use Rattle.datagram.specs.Sizes.{packet_limit};
ghost use Rattle.packet.specs.Packet.{fields_limit};
ghost use Rattle.packet_pencil.specs.Fields.{HeaderTaken, FieldTaken, SequenceTaken, FieldsTaken};

use crate::bits::flag;
use crate::items::{count, field_data, field_type};
use length::{Reason, Refusal};
use packet::{Field, Named};
use packet_reader::no_fields;

// The fields that were read: the first `count` places of `fields`. All others are zero (rule 6.27). `next` is the place after them.
// There is no heap, so the array has room for the most fields.
#[derive(Drop)]
pub struct Fields {
    pub count: usize,
    pub fields: [Field; Field::LIMIT],
    pub next: usize,
}

// The field type, behind the bit for field-data OPTIONAL: one item (rules 6.7 and 7.9). The type, whether it has data, and the place after
// both. Which types carry data is the same in both editions.
pub fn header(named: Named, octets: &[u8], at: usize) -> Result<(u8, bool, usize), Refusal>
    requires { length octets.now ≤ packet_limit }
    ensures { HeaderTaken named octets.now at result }
{
    let item = at / 8;
    let (present, next) = flag(octets, item, at)?;
    let (kind, end) = field_type(named, octets, item, next)?;
    let small = (kind % 256) as u8;
    if packet_rules::right_data(small, present) {
        Ok((small, present, end))
    } else {
        Err(Refusal::at(Reason::WrongData, item))
    }
}

// SEQUENCE { field-type, field-data OPTIONAL }, and the place after it.
pub fn field(named: Named, octets: &[u8], at: usize) -> Result<(Field, usize), Refusal>
    requires { length octets.now ≤ packet_limit }
    ensures { FieldTaken named octets.now at result }
{
    let (kind, present, next) = header(named, octets, at)?;
    if !present {
        let bare = Field {
            kind,
            start: 0,
            size: 0,
        };
        return Ok((bare, next));
    }
    let (start, size, end) = field_data(octets, next)?;
    Ok((Field { kind, start, size }, end))
}

// SEQUENCE OF: `count` fields, one after the other.
fn sequence(named: Named, octets: &[u8], from: usize, count: usize) -> Result<Fields, Refusal>
    requires { (length octets.now ≤ packet_limit) × (count ≤ fields_limit) }
    ensures { SequenceTaken named count octets.now from result }
{
    let mut fields = no_fields();
    let mut at = from;
    for i in 0..count {
        let (one, next) = field(named, octets, at)?;
        fields[i] = one;
        at = next;
    }
    Ok(Fields {
        count,
        fields,
        next: at,
    })
}

// Data-Field: the count of fields, and the fields (rule 6.4).
pub fn data_field(named: Named, octets: &[u8], at: usize) -> Result<Fields, Refusal>
    requires { length octets.now ≤ packet_limit }
    ensures { FieldsTaken named octets.now at result }
{
    let (n, next) = count(octets, at)?;
    sequence(named, octets, next, n)
}
