// The receiving session for C: what a call requires, and what it does, is what the function of `host` with its name says (rule 24.1).
ghost use Rattle.session_held.specs.Table.{lent_by};
ghost use Rattle.session_held.specs.Laid.{InRanges};
ghost use Rattle.session_held.specs.Promise.{Fresh};
ghost use Rattle.host.specs.Receiver.{session_in, RangesHosted, OfferHosted, ReleaseHosted};

use host::{AfterRelease, Head};
use host_answers::Answered;
use session_held::Session;

#[unsafe(no_mangle)]
pub extern "C" fn tbx_core_fresh(
    table: &mut [u16; Session::PLACES],
    octets: &mut [u8; Session::PACKET_OCTETS],
    messages: &mut [u8; Session::MESSAGE_OCTETS],
) -> Head
    ensures { Fresh (session_in result table.new octets.new messages.new) }
{
    host::tbx_core_fresh(table, octets, messages)
}

#[unsafe(no_mangle)]
pub extern "C" fn tbx_core_in_ranges(
    head: Head,
    table: &[u16; Session::PLACES],
    octets: &[u8; Session::PACKET_OCTETS],
    messages: &[u8; Session::MESSAGE_OCTETS],
) -> bool
    ensures { RangesHosted head table.now octets.now messages.now result }
{
    host::tbx_core_in_ranges(head, table, octets, messages)
}

#[unsafe(no_mangle)]
pub extern "C" fn tbx_core_offer(
    head: Head,
    table: &mut [u16; Session::PLACES],
    octets: &mut [u8; Session::PACKET_OCTETS],
    messages: &mut [u8; Session::MESSAGE_OCTETS],
    datagram: &[u8],
) -> Answered
    requires { InRanges (lent_by (session_in head table.old octets.old messages.old)) }
    ensures { OfferHosted datagram.now head table.old octets.old messages.old
        table.new octets.new messages.new result }
{
    host::tbx_core_offer(head, table, octets, messages, datagram)
}

#[unsafe(no_mangle)]
pub extern "C" fn tbx_core_offer_checked(
    head: Head,
    table: &mut [u16; Session::PLACES],
    octets: &mut [u8; Session::PACKET_OCTETS],
    messages: &mut [u8; Session::MESSAGE_OCTETS],
    datagram: &[u8],
) -> Answered
    ensures { OfferHosted datagram.now head table.old octets.old messages.old
        table.new octets.new messages.new result }
{
    host::tbx_core_offer_checked(head, table, octets, messages, datagram)
}

#[unsafe(no_mangle)]
pub extern "C" fn tbx_core_release(
    head: Head,
    table: &mut [u16; Session::PLACES],
    octets: &mut [u8; Session::PACKET_OCTETS],
    messages: &mut [u8; Session::MESSAGE_OCTETS],
    skip: bool,
    out: &mut [u8],
) -> AfterRelease
    requires { InRanges (lent_by (session_in head table.old octets.old messages.old)) }
    ensures { ReleaseHosted skip head table.old octets.old messages.old out.old
        table.new octets.new messages.new out.new result }
{
    host::tbx_core_release(head, table, octets, messages, skip, out)
}

#[unsafe(no_mangle)]
pub extern "C" fn tbx_core_release_checked(
    head: Head,
    table: &mut [u16; Session::PLACES],
    octets: &mut [u8; Session::PACKET_OCTETS],
    messages: &mut [u8; Session::MESSAGE_OCTETS],
    skip: bool,
    out: &mut [u8],
) -> AfterRelease
    ensures { ReleaseHosted skip head table.old octets.old messages.old out.old
        table.new octets.new messages.new out.new result }
{
    host::tbx_core_release_checked(head, table, octets, messages, skip, out)
}
