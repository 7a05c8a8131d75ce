// Packets for C (rule 24.5).
ghost use Rattle.host.specs.Packet.{PacketHosted, WriteHosted};

use host_answers::{PacketFound, Wrote};

#[unsafe(no_mangle)]
pub extern "C" fn tbx_core_packet_read(octets: &[u8], edition: u8, repaired: bool) -> PacketFound
    ensures { PacketHosted edition repaired octets.now result }
{
    host::tbx_core_packet_read(octets, edition, repaired)
}

#[unsafe(no_mangle)]
pub extern "C" fn tbx_core_packet_write(
    edition: u8,
    kind: u8,
    value: u8,
    types: &[u8],
    lengths: &[u16],
    data: &[u8],
    out: &mut [u8],
) -> Wrote
    ensures { WriteHosted edition kind value types.now lengths.now «data».now out.old
        out.new result }
{
    host::tbx_core_packet_write(edition, kind, value, types, lengths, data, out)
}
