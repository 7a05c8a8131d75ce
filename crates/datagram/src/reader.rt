// What the datagram reader returns (rule 4.23). It copies no octets: it reports what it read as parts of the input.
use crate::kind::Kind;
use datagram_sizes::Spares;

// A packet, spare or message as a part of the datagram.
#[derive(Drop)]
#[derive(Clone, Copy)]
pub struct Part {
    pub start: usize,
    pub size: usize,
}

// A datagram as read: its number, its newest packet, and the kind, the count and in order the places of the spares or messages. Elements
// past their count are zero (rule 4.23). There is no heap, so the array has room for the most items.
#[derive(Drop)]
#[derive(Clone, Copy)]
pub struct DatagramRead {
    pub number: u16,
    pub packet: Part,
    pub kind: Kind,
    pub count: usize,
    pub items: [Part; Spares::LIMIT],
}
