// The sending session for C (rules 24.3 and 24.4).
ghost use Rattle.sender.specs.Inner.Held.{Within};
ghost use Rattle.sender.specs.Promise.{SenderMade};
ghost use Rattle.host.specs.Sender.{sender_in, SenderRanges, SendHosted};

use host::AfterSend;
use sender::Sender;

#[unsafe(no_mangle)]
pub extern "C" fn tbx_core_sender_fresh(
    sizes: &mut [u16; Sender::HISTORY],
    octets: &mut [u8; Sender::OCTETS],
) -> u32
    ensures { SenderMade (sender_in result sizes.new octets.new) }
{
    host::tbx_core_sender_fresh(sizes, octets)
}

#[unsafe(no_mangle)]
pub extern "C" fn tbx_core_sender_in_ranges(
    sent: u32,
    sizes: &[u16; Sender::HISTORY],
    octets: &[u8; Sender::OCTETS],
) -> bool
    ensures { SenderRanges sent sizes.now octets.now result }
{
    host::tbx_core_sender_in_ranges(sent, sizes, octets)
}

#[unsafe(no_mangle)]
pub extern "C" fn tbx_core_send(
    sent: u32,
    sizes: &mut [u16; Sender::HISTORY],
    octets: &mut [u8; Sender::OCTETS],
    packet: &[u8],
    parity: bool,
    count: u8,
    n: u8,
    out: &mut [u8],
) -> AfterSend
    requires { Within sent sizes.old octets.old }
    ensures { SendHosted parity count n packet.now sent sizes.old octets.old out.old
        sizes.new octets.new out.new result }
{
    host::tbx_core_send(sent, sizes, octets, packet, parity, count, n, out)
}

#[unsafe(no_mangle)]
pub extern "C" fn tbx_core_send_checked(
    sent: u32,
    sizes: &mut [u16; Sender::HISTORY],
    octets: &mut [u8; Sender::OCTETS],
    packet: &[u8],
    parity: bool,
    count: u8,
    n: u8,
    out: &mut [u8],
) -> AfterSend
    ensures { SendHosted parity count n packet.now sent sizes.old octets.old out.old
        sizes.new octets.new out.new result }
{
    host::tbx_core_send_checked(sent, sizes, octets, packet, parity, count, n, out)
}
