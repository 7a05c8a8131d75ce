// The sending session as the code stores it, and a fresh one (rules 1.14, 15.1 and 15.16).
#![tactic(auto)]

ghost use Rattle.std.specs.Prelude.{◌≡◌};
ghost use Rattle.session.specs.View.{session_limit};
ghost use Rattle.sender.specs.Sending.{history_kept};
ghost use Rattle.sender.specs.Sender.{history_octets};
ghost use Rattle.sender.specs.Promise.{SenderMade};

use datagram::Packet;
use length::Refusal;
use session_held::Session;

// Beside its packet a datagram carries k spares, or m messages over n packets each (rule 15.2).
#[derive(Drop)]
#[derive(Clone, Copy)]
pub enum Settings {
    Spares(u8),
    Parity { n: u8, m: u8 },
}

// How many packets were sent, and the sizes and octets of the last 32 (rule 15.16). A number's slot is the number modulo 32, so
// nothing moves when a packet is sent.
#[derive(Drop)]
#[derive(Clone, Copy)]
pub struct Sender {
    pub sent: u32,
    pub sizes: [u16; Sender::HISTORY],
    pub octets: [u8; Sender::OCTETS],
}

// What a send returns: the session, and how many octets it wrote or why it was refused.
#[derive(Drop)]
pub struct Sent {
    pub sender: Sender,
    pub answer: Result<usize, Refusal>,
}

impl Sender {
    // How many numbers may pass in a session: the receiving session's limit (rule 1.10).
    pub const LIMIT: usize = Session::LIMIT as usize;
    // How many packets are kept (rule 1.14).
    pub const HISTORY: usize = 32;

    pub const OCTETS: usize = Sender::HISTORY * Packet::LIMIT;

    pub fn limit() -> usize
        ensures { result ≡ session_limit }
    {
        Sender::LIMIT
    }

    pub fn history() -> usize
        ensures { result ≡ history_kept }
    {
        Sender::HISTORY
    }

    pub fn history_octets() -> usize
        ensures { result ≡ history_octets }
    {
        Sender::OCTETS
    }

    // A session that has sent nothing (rule 15.1).
    pub fn fresh() -> Sender
        ensures { SenderMade result }
    {
        Sender {
            sent: 0,
            sizes: [0; Sender::HISTORY],
            octets: [0; Sender::OCTETS],
        }
    }
}
