// A packet, written. Everything is decided first (rule 2.33); then each item is put at the front of the part of the buffer that is still
// free. A header may leave bits that wait for the rest of their octet (rule 5.6).
ghost use Rattle.std.specs.Prelude.{◌++◌, length};
ghost use Rattle.length.specs.Promise.{Puts, Put};
ghost use Rattle.format.specs.Waiting.{waiting, none_wait};
ghost use Rattle.packet.specs.Edition.{edition_of};
ghost use Rattle.packet.specs.Packet.{is_data};
ghost use Rattle.packet.specs.Write.{packet_to_write};
ghost use Rattle.packet.specs.Promise.{PacketWritten};
ghost use Rattle.packet_laws.specs.Laid.{first_octets, size_octets, fields_octets, counted_fields, laid_octets};
ghost use Rattle.packet_laws.specs.Items.{BitIs, DataFits, FirstFits, HeaderFits, HeaderPut, FieldFits};
ghost use Rattle.packet_laws.specs.Items.{FieldPut, FieldsFit, CountedFit, PacketFits};

use crate::bits::{Filled, Waiting, bit, put_bits, put_edge};
use crate::sizes::{measure, value_bits, value_width};
use length::{Reason, Refusal};
use packet::{Enumerated, Named, PacketKind};

// The length of some data and the data at the front of out (rule 6.8), and how many octets they took.
fn put_data(data: &[u8], out: &mut [u8]) -> usize
    requires { DataFits «data».now out.old }
    ensures { Put (size_octets (length «data».now) ++ «data».now) out.old out.new result }
{
    let less = data.len() - 1;
    let high = less / 256;
    out[0] = (high % 256) as u8;
    out[1] = (less % 256) as u8;
    2 + datagram_writer::put_octets(data, &mut out[2..])
}

// A header after the bits that wait: the bit for data present, and the type (rules 5.6 and 6.7).
fn put_header(known: Enumerated, kind: u8, present: bool, before: Waiting, out: &mut [u8]) -> Filled
    requires { HeaderFits known (waiting before.width before.value) kind present out.old }
    ensures { HeaderPut known (waiting before.width before.value) kind present out.old out.new result.octets
        result.after.width result.after.value }
{
    let flag = put_bits(before, 1, bit(present), &mut *out);
    let at = flag.octets;
    let count = value_width(known, kind);
    let bits = value_bits(known, kind);
    let all = put_bits(flag.after, count, bits, &mut out[at..]);
    let octets = at + all.octets;
    Filled {
        octets,
        after: all.after,
    }
}

// A field after the bits that wait (rules 6.7 and 6.8).
fn put_field(known: Enumerated, kind: u8, data: &[u8], before: Waiting, out: &mut [u8]) -> Filled
    requires { FieldFits known (waiting before.width before.value) kind «data».now out.old }
    ensures { FieldPut known (waiting before.width before.value) kind «data».now out.old out.new result.octets
        result.after.width result.after.value }
{
    if data.len() < 1 {
        return put_header(known, kind, false, before, out);
    }
    let header = put_header(known, kind, true, before, &mut *out);
    let at = header.octets;
    let from = at + put_edge(header.after, &mut out[at..]);
    let octets = from + put_data(data, &mut out[from..]);
    Filled {
        octets,
        after: Waiting { width: 0, value: 0 },
    }
}

// As many fields as there are types at the front of out, the data of each the next part of data, and how many octets they took.
fn put_fields(
    known: Enumerated,
    types: &[u8],
    lengths: &[u16],
    data: &[u8],
    out: &mut [u8],
) -> usize
    requires { FieldsFit known types.now lengths.now «data».now out.old }
    ensures { Put (fields_octets known none_wait types.now lengths.now «data».now)
        out.old out.new result }
{
    let mut from = 0;
    let mut at = 0;
    let mut before = Waiting { width: 0, value: 0 };
    for (i, kind) in types.iter().enumerate() {
        let to = from + usize::from(lengths[i]);
        let field = put_field(known, *kind, &data[from..to], before, &mut out[at..]);
        at += field.octets;
        before = field.after;
        from = to;
    }
    let end = put_edge(before, &mut out[at..]);
    at + end
}

// The count of fields and the fields at the front of out (rule 6.4), and how many octets they took.
fn put_counted(
    known: Enumerated,
    types: &[u8],
    lengths: &[u16],
    data: &[u8],
    out: &mut [u8],
) -> usize
    requires { CountedFit known types.now lengths.now «data».now out.old }
    ensures { Put (counted_fields known types.now lengths.now «data».now)
        out.old out.new result }
{
    // there are at most 16 fields and room for their count, so it is never refused
    let Ok(at) = length_code::write(types.len(), &mut *out) else {
        return 0;
    };
    let size = put_fields(known, types, lengths, data, &mut out[at..]);
    at + size
}

// The bit for indicator or data (rule 6.1).
fn kind_bit(kind: PacketKind) -> usize
    ensures { BitIs (is_data kind) result }
{
    match kind {
        PacketKind::Indicator => 0,
        PacketKind::Data => 1,
    }
}

// The first item at the front of out, and how many octets it took: fields present, the kind, the value, an octet edge (rules 6.1 and 6.2).
fn put_first(known: Enumerated, kind: PacketKind, value: u8, present: bool, out: &mut [u8]) -> usize
    requires { FirstFits known (record { kind = kind; value = value; present = present }) out.old }
    ensures { Put (first_octets known (record { kind = kind; value = value; present = present })) out.old
        out.new result }
{
    let lead = Waiting {
        width: 2,
        value: 2 * bit(present) + kind_bit(kind),
    };
    let count = value_width(known, value);
    let bits = value_bits(known, value);
    let all = put_bits(lead, count, bits, &mut *out);
    let at = all.octets;
    let end = put_edge(all.after, &mut out[at..]);
    at + end
}

// A packet at the front of out, and how many octets it took.
fn put_packet(
    named: Named,
    kind: PacketKind,
    value: u8,
    types: &[u8],
    lengths: &[u16],
    data: &[u8],
    out: &mut [u8],
) -> usize
    requires { PacketFits named kind value types.now lengths.now «data».now out.old }
    ensures { Put (laid_octets (edition_of named) kind value types.now lengths.now «data».now)
        out.old out.new result }
{
    let present = 0 < types.len();
    let values = packet_rules::values(named, kind);
    let at = put_first(values, kind, value, present, &mut *out);
    if !present {
        return at;
    }
    let known = packet_rules::types(named);
    let size = put_counted(known, types, lengths, data, &mut out[at..]);
    at + size
}

// A packet of an edition, written to the front of out (rule 2.26). A refusal writes nothing (rule 2.25).
fn write_named(
    named: Named,
    kind: PacketKind,
    value: u8,
    types: &[u8],
    lengths: &[u16],
    data: &[u8],
    out: &mut [u8],
) -> Result<usize, Refusal>
    ensures { Puts
        (packet_to_write (edition_of named) kind value types.now lengths.now «data».now)
        out.old out.new result }
{
    let size = measure(named, kind, value, types, lengths, data)?;
    if out.len() < size {
        return Err(Refusal::new(Reason::NoRoom));
    }
    Ok(put_packet(named, kind, value, types, lengths, data, out))
}

// The same by the edition that the caller names; another octet is 15, before all else (rules 7.1 and 7.2).
pub fn write(
    edition: u8,
    kind: PacketKind,
    value: u8,
    types: &[u8],
    lengths: &[u16],
    data: &[u8],
    out: &mut [u8],
) -> Result<usize, Refusal>
    ensures { PacketWritten edition kind value types.now lengths.now «data».now
        out.old out.new result }
{
    match packet_rules::choice_of(edition) {
        None => Err(Refusal::new(Reason::WrongSettings)),
        Some(named) => write_named(named, kind, value, types, lengths, data, out),
    }
}
