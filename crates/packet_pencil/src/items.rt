// Annex A's small productions, each at its place: a value of an ENUMERATED type, a length of one or two octets, plain octets (rule 8.1).
ghost use Rattle.std.specs.Prelude.{◌≤◌, length};
ghost use Rattle.datagram.specs.Sizes.{packet_limit};
ghost use Rattle.packet.specs.Edition.{edition_of};
ghost use Rattle.packet_laws.specs.Octets.{Narrow};
ghost use Rattle.packet_pencil.specs.Items.{RootTaken, AddedTaken, AdditionTaken, ValueTaken};
ghost use Rattle.packet_pencil.specs.Items.{OctetTaken, LongTaken, LengthTaken, CountTaken, SizeTaken, PartTaken};

use crate::bits::{align, bits, flag};
use datagram::Packet;
use length::{Reason, Refusal};
use packet::{Enumerated, Field, Named, PacketKind};

// How many bits an added value takes, behind the bit for extension and a bit that is 0 (rule 7.5).
const ADDED_WIDTH: usize = 6;

// How many bits a length by the length rule has behind its first bits, in one octet and in two, and the least that has two (rules 3.1, 3.2
// and 3.4).
const SHORT_WIDTH: usize = 7;

const LONG_WIDTH: usize = 14;

const LONG_LEAST: usize = 128;

// How many bits the length of a field's data has (rule 6.8).
const SIZE_WIDTH: usize = 16;

// One of the values before the extension mark, in as many bits as they have (rule 6.3).
fn root(
    octets: &[u8],
    item: usize,
    at: usize,
    values: Enumerated,
) -> Result<(usize, usize), Refusal>
    requires { (length octets.now ≤ packet_limit) × Narrow values }
    ensures { RootTaken values octets.now item at result }
{
    let (value, next) = bits(octets, item, at, values.width)?;
    if value < values.assigned {
        Ok((value, next))
    } else {
        Err(Refusal::at(Reason::NotAssigned, item))
    }
}

// Which of the added values, in six bits counted from zero; past the last one it is 12 (rules 7.5 and 7.8).
fn counted(
    octets: &[u8],
    item: usize,
    at: usize,
    values: Enumerated,
) -> Result<(usize, usize), Refusal>
    requires { (length octets.now ≤ packet_limit) × Narrow values }
    ensures { AddedTaken values octets.now item at result }
{
    let (which, next) = bits(octets, item, at, ADDED_WIDTH)?;
    if which < values.added {
        Ok((values.assigned + which, next))
    } else {
        Err(Refusal::at(Reason::NotAssigned, item))
    }
}

// One of the values added after the extension mark, if any, behind the bit for extension: a 0 bit, then which one (rules 7.5 to 7.8).
fn addition(
    octets: &[u8],
    item: usize,
    at: usize,
    values: Enumerated,
) -> Result<(usize, usize), Refusal>
    requires { (length octets.now ≤ packet_limit) × Narrow values }
    ensures { AdditionTaken values octets.now item at result }
{
    if values.added == 0 {
        return Err(Refusal::at(Reason::NotAssigned, item));
    }
    let (large, next) = flag(octets, item, at)?;
    if large {
        Err(Refusal::at(Reason::NotAssigned, item))
    } else {
        counted(octets, item, next, values)
    }
}

// ENUMERATED { .., ..., .. }: the bit for extension, where there is a mark; then a value before the mark or after it (rules 6.2 and 7.5).
fn enumerated(
    octets: &[u8],
    item: usize,
    at: usize,
    values: Enumerated,
) -> Result<(usize, usize), Refusal>
    requires { (length octets.now ≤ packet_limit) × Narrow values }
    ensures { ValueTaken values octets.now item at result }
{
    if !values.extensible {
        return root(octets, item, at, values);
    }
    let (extended, next) = flag(octets, item, at)?;
    if extended {
        addition(octets, item, next, values)
    } else {
        root(octets, item, next, values)
    }
}

// Each production of the ASN.1 has a function of its own, also where two are alike but for their values.
// 06/98: t30-indicator ENUMERATED { no-signal, .. v17-14400-long-training, ... }
// 2002:  t30-indicator ENUMERATED { no-signal, .. v17-14400-long-training, ..., v8-ansam, v8-signal, v34-cntl-channel-1200,
//            v34-pri-channel, v34-CC-retrain, v33-12000-training, v33-14400-training }
pub fn t30_indicator(
    named: Named,
    octets: &[u8],
    item: usize,
    at: usize,
) -> Result<(usize, usize), Refusal>
    requires { length octets.now ≤ packet_limit }
    ensures { ValueTaken (edition_of named).indicators octets.now item at result }
{
    let values = packet_rules::values(named, PacketKind::Indicator);
    enumerated(octets, item, at, values)
}

// 06/98: data ENUMERATED { v21, .. v17-14400, ... }
// 2002:  t30-data ENUMERATED { v21, .. v17-14400, ..., v8, v34-pri-rate, v34-CC-1200, v34-pri-ch, v33-12000, v33-14400 }
pub fn t30_data(
    named: Named,
    octets: &[u8],
    item: usize,
    at: usize,
) -> Result<(usize, usize), Refusal>
    requires { length octets.now ≤ packet_limit }
    ensures { ValueTaken (edition_of named).kinds octets.now item at result }
{
    let values = packet_rules::values(named, PacketKind::Data);
    enumerated(octets, item, at, values)
}

// 06/98: field-type ENUMERATED { hdlc-data, .. t4-non-ecm-sig-end }
// 2002:  field-type ENUMERATED { hdlc-data, .. t4-non-ecm-sig-end, ..., cm-message, jm-message, ci-message, v34rate }
pub fn field_type(
    named: Named,
    octets: &[u8],
    item: usize,
    at: usize,
) -> Result<(usize, usize), Refusal>
    requires { length octets.now ≤ packet_limit }
    ensures { ValueTaken (edition_of named).types octets.now item at result }
{
    let values = packet_rules::types(named);
    enumerated(octets, item, at, values)
}

// The octet at a place, or the end where the place is past it.
pub fn octet(octets: &[u8], at: usize) -> usize
    ensures { OctetTaken octets.now at result }
{
    let whole = at / 8;
    if octets.len() < whole {
        octets.len()
    } else {
        whole
    }
}

// A length in two octets, behind its first bit, a 1: a 0 bit, then fourteen bits, for 128 or more; otherwise it is 3 (rules 3.2 to 3.4).
fn long(octets: &[u8], item: usize, at: usize) -> Result<(usize, usize), Refusal>
    requires { length octets.now ≤ packet_limit }
    ensures { LongTaken octets.now item at result }
{
    let (longer, next) = flag(octets, item, at)?;
    if longer {
        return Err(Refusal::at(Reason::BadForm, item));
    }
    let (value, end) = bits(octets, item, next, LONG_WIDTH)?;
    if value < LONG_LEAST {
        Err(Refusal::at(Reason::BadForm, item))
    } else {
        Ok((value, end))
    }
}

// A length or count by the length rule: a 0 bit, then seven bits; or the long form behind a 1 bit (rules 3.1 and 3.2).
fn counting(octets: &[u8], item: usize, at: usize) -> Result<(usize, usize), Refusal>
    requires { length octets.now ≤ packet_limit }
    ensures { LengthTaken octets.now item at result }
{
    let (is_long, next) = flag(octets, item, at)?;
    if is_long {
        long(octets, item, next)
    } else {
        bits(octets, item, next, SHORT_WIDTH)
    }
}

// The count of fields of a SEQUENCE OF, 1 to 16, by the length rule (rule 6.4).
pub fn count(octets: &[u8], at: usize) -> Result<(usize, usize), Refusal>
    requires { length octets.now ≤ packet_limit }
    ensures { CountTaken octets.now at result }
{
    let edge = align(octets, at)?;
    let item = edge / 8;
    let (value, next) = counting(octets, item, edge)?;
    if value < Field::LEAST {
        return Err(Refusal::at(Reason::OutsideSizes, item));
    }
    if Field::LIMIT < value {
        return Err(Refusal::at(Reason::OutsideSizes, item));
    }
    Ok((value, next))
}

// The length of an OCTET STRING (SIZE (1..65535)): sixteen bits, from an octet edge on, with the length minus one (rules 6.8 and 6.9).
pub fn size(octets: &[u8], at: usize) -> Result<(usize, usize), Refusal>
    requires { length octets.now ≤ packet_limit }
    ensures { SizeTaken octets.now at result }
{
    let edge = align(octets, at)?;
    let item = edge / 8;
    let (less_one, next) = bits(octets, item, edge, SIZE_WIDTH)?;
    if Packet::LIMIT <= less_one {
        Err(Refusal::at(Reason::OutsideSizes, item))
    } else {
        Ok((less_one + 1, next))
    }
}

// field-data OCTET STRING (SIZE (1..65535)): the octet at which the data begins, how many octets it has, and the place after it.
pub fn field_data(octets: &[u8], at: usize) -> Result<(usize, usize, usize), Refusal>
    requires { length octets.now ≤ packet_limit }
    ensures { PartTaken octets.now at result }
{
    let (size, begin) = size(octets, at)?;
    let start = octet(octets, begin);
    if octets.len() - start < size {
        Err(Refusal::at(Reason::EndsEarly, begin / 8))
    } else {
        Ok((start, size, begin + 8 * size))
    }
}
