// The calls on a sending session (rules 15.2, 15.8, 15.11 and 15.13), as `sender` defines them.
#![tactic(auto)]

mod inner;

ghost use Rattle.sender.specs.Promise.{RangesTold, Sends};
ghost use Rattle.sender_calls.specs.Inner.{RefusedSend};

pub use inner::send_held;
use length::{Reason, Refusal};
use sender::{Sender, Sent, Settings};

// Whether a session is within its ranges (rule 15.13).
pub fn in_ranges(s: Sender) -> bool
    ensures { RangesTold s result }
{
    sender_history::in_ranges(s.sent as usize, &s.sizes, &s.octets)
}

// A refusal returns the session unchanged (rule 15.11).
fn unchanged(s: Sender, why: Refusal) -> Sent
    ensures { RefusedSend s why result }
{
    Sent {
        sender: s,
        answer: Err(why),
    }
}

// Sends a packet with these settings: writes its datagram to the front of `out` (rule 15.2).
pub fn send(s: Sender, packet: &[u8], settings: Settings, out: &mut [u8]) -> Sent
    ensures { Sends s settings packet.now out.old out.new result }
{
    let sent = s.sent as usize;
    let mut sizes = s.sizes;
    let mut octets = s.octets;
    if !sender_history::in_ranges(sent, &sizes, &octets) {
        return unchanged(s, Refusal::new(Reason::OutsideRanges));
    }
    let answer = inner::send_held(sent, &mut sizes, &mut octets, packet, settings, out);
    let next = s.sent + 1;
    let moved = Sender {
        sent: next,
        sizes,
        octets,
    };
    match answer {
        Ok(n) => Sent {
            sender: moved,
            answer: Ok(n),
        },
        Err(why) => unchanged(s, why),
    }
}
