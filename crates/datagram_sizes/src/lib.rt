// The sizes (rules 1.1 to 1.7): each limit is a constant of the type that it limits, and is written once, here (rule 1.18). The contracts
// of the functions say that the constants equal the definitions in specs/.
#![tactic(auto)]

ghost use Rattle.std.specs.Prelude.{◌≡◌};
ghost use Rattle.datagram_sizes.specs.Sizes.{packet_least, packet_limit, message_least, message_limit, datagram_limit};
ghost use Rattle.datagram_sizes.specs.Sizes.{spares_least, spares_limit, covered_least, covered_limit, messages_least, messages_limit};
ghost use Rattle.datagram_sizes.specs.Sizes.{reach_limit};

// An IFP packet (rule 1.1).
#[derive(Drop)]
pub struct Packet {}

impl Packet {
    pub const LEAST: usize = 1;

    pub const LIMIT: usize = 256;

    pub fn least() -> usize
        ensures { result ≡ packet_least }
    {
        Packet::LEAST
    }

    pub fn limit() -> usize
        ensures { result ≡ packet_limit }
    {
        Packet::LIMIT
    }
}

// A parity message (rule 1.7): the exclusive or of packets, so never longer than a packet.
#[derive(Drop)]
pub struct Message {}

impl Message {
    pub const LEAST: usize = 0;

    pub const LIMIT: usize = Packet::LIMIT;

    pub fn least() -> usize
        ensures { result ≡ message_least }
    {
        Message::LEAST
    }

    pub fn limit() -> usize
        ensures { result ≡ message_limit }
    {
        Message::LIMIT
    }
}

// A UDPTL datagram (rule 1.2).
#[derive(Drop)]
pub struct Datagram {}

impl Datagram {
    pub const LIMIT: usize = 2400;

    pub fn limit() -> usize
        ensures { result ≡ datagram_limit }
    {
        Datagram::LIMIT
    }
}

// The spares in a datagram (rule 1.3).
#[derive(Drop)]
pub struct Spares {}

impl Spares {
    pub const LEAST: usize = 0;

    pub const LIMIT: usize = 8;

    pub fn least() -> usize
        ensures { result ≡ spares_least }
    {
        Spares::LEAST
    }

    pub fn limit() -> usize
        ensures { result ≡ spares_limit }
    {
        Spares::LIMIT
    }
}

// The messages in a datagram, m of them, each over n packets: the least and the most of both, and their reach (rules 1.4 to 1.6).
#[derive(Drop)]
pub struct Parity {}

impl Parity {
    pub const PACKETS_LEAST: usize = 1;

    pub const PACKETS: usize = 8;

    pub const MESSAGES_LEAST: usize = 1;

    pub const MESSAGES: usize = 4;

    pub const REACH: usize = Parity::PACKETS * Parity::MESSAGES;

    pub fn packets_least() -> usize
        ensures { result ≡ covered_least }
    {
        Parity::PACKETS_LEAST
    }

    pub fn packets_limit() -> usize
        ensures { result ≡ covered_limit }
    {
        Parity::PACKETS
    }

    pub fn messages_least() -> usize
        ensures { result ≡ messages_least }
    {
        Parity::MESSAGES_LEAST
    }

    pub fn messages_limit() -> usize
        ensures { result ≡ messages_limit }
    {
        Parity::MESSAGES
    }

    pub fn reach_limit() -> usize
        ensures { result ≡ reach_limit }
    {
        Parity::REACH
    }
}
