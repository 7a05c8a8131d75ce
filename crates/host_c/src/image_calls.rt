// Images of a receiving session for C (rule 24.12).
ghost use Rattle.host.specs.Image.{ImageHosted, RestoreHosted};

use host::{AfterRestore, Head};
use host_answers::Wrote;
use session_held::Session;

#[unsafe(no_mangle)]
pub extern "C" fn tbx_core_image_write(
    head: Head,
    table: &[u16; Session::PLACES],
    octets: &[u8; Session::PACKET_OCTETS],
    messages: &[u8; Session::MESSAGE_OCTETS],
    out: &mut [u8],
) -> Wrote
    ensures { ImageHosted head table.now octets.now messages.now out.old
        out.new result }
{
    host::tbx_core_image_write(head, table, octets, messages, out)
}

#[unsafe(no_mangle)]
pub extern "C" fn tbx_core_image_read(
    head: Head,
    table: &mut [u16; Session::PLACES],
    octets: &mut [u8; Session::PACKET_OCTETS],
    messages: &mut [u8; Session::MESSAGE_OCTETS],
    text: &[u8],
) -> AfterRestore
    ensures { RestoreHosted text.now head table.old octets.old messages.old
        table.new octets.new messages.new result }
{
    host::tbx_core_image_read(head, table, octets, messages, text)
}
