// Packets for C: the calls need no session and keep nothing. A kind is the octet 0 for an indicator or 1 for data (rule 24.5).
ghost use Rattle.host.specs.Packet.{PacketHosted, WriteHosted};

use host_answers::{PacketFound, Wrote, ending_of, kind_named, kind_told, no_kind, written_told};
use length::Reason;

// Reads a packet in the edition that an octet names, as repaired or not (rules 6.13 and 7.1).
#[unsafe(no_mangle)]
pub extern "C" fn tbx_core_packet_read(octets: &[u8], edition: u8, repaired: bool) -> PacketFound
    ensures { PacketHosted edition repaired octets.now result }
{
    let ending = ending_of(repaired);
    match packet_reader::read(edition, octets, ending) {
        Ok(packet) => {
            let fields = packet.fields;
            PacketFound {
                refusal: 0,
                kind: kind_told(packet.kind),
                value: packet.value,
                place: 0,
                count: packet.count,
                fields,
            }
        }
        Err(why) => {
            let fields = packet_reader::no_fields();
            PacketFound {
                refusal: why.number(),
                kind: 0,
                value: 0,
                place: why.place,
                count: 0,
                fields,
            }
        }
    }
}

// Writes a packet of this kind and value, with a field for each type, to the front of `out`. A field takes as many of the next octets of
// the data as its length says (rule 6.20).
#[unsafe(no_mangle)]
pub extern "C" fn tbx_core_packet_write(
    edition: u8,
    kind: u8,
    value: u8,
    types: &[u8],
    lengths: &[u16],
    data: &[u8],
    out: &mut [u8],
) -> Wrote
    ensures { WriteHosted edition kind value types.now lengths.now «data».now out.old
        out.new result }
{
    if no_kind(kind) {
        return Wrote {
            refusal: Reason::WrongSettings.number(),
            place: 0,
            size: 0,
        };
    }
    let named = kind_named(kind);
    let answer = packet_writer::write(edition, named, value, types, lengths, data, out);
    written_told(answer)
}
