// The sending session for C: how many packets were sent is passed by value, the history by pointer. The `checked` function takes any memory
// (rules 24.3 and 24.4).
ghost use Rattle.sender.specs.Inner.Held.{Within};
ghost use Rattle.sender.specs.Promise.{SenderMade};
ghost use Rattle.host.specs.Sender.{sender_in, SenderRanges, SendHosted};

use host_answers::{Wrote, settings_of};
use length::Reason;
use sender::Sender;
use sender_calls::send_held;

// What a send returns: how many packets were sent after it, and the answer.
#[repr(C)]
#[derive(Drop)]
pub struct AfterSend {
    pub sent: u32,
    pub wrote: Wrote,
}

// Writes a fresh sending session to the caller's memory (rules 15.1 and 24.18).
#[unsafe(no_mangle)]
pub extern "C" fn tbx_core_sender_fresh(
    sizes: &mut [u16; Sender::HISTORY],
    octets: &mut [u8; Sender::OCTETS],
) -> u32
    ensures { SenderMade (sender_in result sizes.new octets.new) }
{
    let fresh = Sender::fresh();
    let new_sizes = fresh.sizes;
    let new_octets = fresh.octets;
    *sizes = new_sizes;
    *octets = new_octets;
    fresh.sent
}

// Whether the memory holds a sending session within its ranges (rule 15.13).
#[unsafe(no_mangle)]
pub extern "C" fn tbx_core_sender_in_ranges(
    sent: u32,
    sizes: &[u16; Sender::HISTORY],
    octets: &[u8; Sender::OCTETS],
) -> bool
    ensures { SenderRanges sent sizes.now octets.now result }
{
    sender_history::in_ranges(sent as usize, sizes, octets)
}

// Sends a packet from a session within its ranges, and writes its datagram to the front of `out` (rules 15.2 to 15.12).
#[unsafe(no_mangle)]
pub extern "C" fn tbx_core_send(
    sent: u32,
    sizes: &mut [u16; Sender::HISTORY],
    octets: &mut [u8; Sender::OCTETS],
    packet: &[u8],
    parity: bool,
    count: u8,
    n: u8,
    out: &mut [u8],
) -> AfterSend
    requires { Within sent sizes.old octets.old }
    ensures { SendHosted parity count n packet.now sent sizes.old octets.old out.old
        sizes.new octets.new out.new result }
{
    let settings = settings_of(parity, count, n);
    let wide = sent as usize;
    let answer = send_held(wide, sizes, octets, packet, settings, out);
    match answer {
        Ok(size) => {
            let next = sent + 1;
            let wrote = Wrote {
                refusal: 0,
                place: 0,
                size,
            };
            AfterSend { sent: next, wrote }
        }
        Err(why) => {
            let wrote = Wrote {
                refusal: why.number(),
                place: why.place,
                size: 0,
            };
            AfterSend { sent, wrote }
        }
    }
}

// The same for any memory: 17 if it holds no session within its ranges.
#[unsafe(no_mangle)]
pub extern "C" fn tbx_core_send_checked(
    sent: u32,
    sizes: &mut [u16; Sender::HISTORY],
    octets: &mut [u8; Sender::OCTETS],
    packet: &[u8],
    parity: bool,
    count: u8,
    n: u8,
    out: &mut [u8],
) -> AfterSend
    ensures { SendHosted parity count n packet.now sent sizes.old octets.old out.old
        sizes.new octets.new out.new result }
{
    if tbx_core_sender_in_ranges(sent, sizes, octets) {
        return tbx_core_send(sent, sizes, octets, packet, parity, count, n, out);
    }
    let wrote = Wrote {
        refusal: Reason::OutsideRanges.number(),
        place: 0,
        size: 0,
    };
    AfterSend { sent, wrote }
}
