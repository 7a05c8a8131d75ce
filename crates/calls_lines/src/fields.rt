// Lines 17 and 23: which fields of a session can be overwritten, at which places and with which values (rules 25.37, 25.38 and 25.41).
use crate::arguments::Arguments;
use datagram::{Packet, Parity};

// What a line asks for.
#[derive(Drop)]
#[derive(Clone, Copy)]
pub struct Target {
    pub field: u8,
    pub number: u16,
    pub message: u8,
    pub octet: u16,
    pub value: u32,
}

// Field, number, in line 17 alone a message, then octet and value, which are the last six octets (rules 25.22 and 25.29).
pub fn target_of(octets: &[u8]) -> Target {
    let mut front = Arguments::of(octets);
    let mut last = Arguments::of(&octets[octets.len().saturating_sub(6)..]);
    Target {
        field: front.octet(),
        number: front.two(),
        message: front.octet(),
        octet: last.two(),
        value: last.number(4),
    }
}

// The row of a field: the largest value that it holds; how far before the base its numbers begin, and how many there are; how many
// messages, and how many octets, it has at a number.
#[derive(Drop)]
pub struct Row(pub u32, pub u16, pub u32, pub u32, pub u32);

// More than any place that a line can name.
const ANY: u32 = 65536;

const MESSAGES: u32 = Parity::MESSAGES as u32;

const OCTETS: u32 = Packet::LIMIT as u32;

// The row of a field, by the line's first two octets. For line 23 the base is the number that is sent next.
pub fn row_of(line: u16) -> Row {
    match line {
        0x1700 => Row(0xFFFF, 0, ANY, ANY, ANY),
        0x1701..=0x1704 => Row(u32::MAX, 0, ANY, ANY, ANY),
        0x1705 => Row(4, 32, 64, ANY, ANY),
        0x1706 | 0x170D => Row(0xFFFF, 32, 64, ANY, ANY),
        0x1707 => Row(0xFF, 32, 64, ANY, OCTETS),
        0x1708 => Row(1, 0, 32, ANY, ANY),
        0x1709..=0x170A => Row(0xFF, 0, 32, ANY, ANY),
        0x170B => Row(0xFFFF, 0, 32, MESSAGES, ANY),
        0x170C => Row(0xFF, 0, 32, MESSAGES, OCTETS),
        0x2300 => Row(u32::MAX, 0, ANY, ANY, ANY),
        0x2301 => Row(0xFFFF, 32, 32, ANY, ANY),
        0x2302 => Row(0xFF, 32, 32, ANY, OCTETS),
        _ => Row(0, 0, 0, 0, 0),
    }
}

// Whether the place is there and the value fits the field (rules 25.37 and 25.41).
pub fn fits(row: Row, base: u16, t: Target) -> bool {
    let place = t.number.wrapping_sub(base.wrapping_sub(row.1));
    t.value <= row.0
        && u32::from(place) < row.2
        && u32::from(t.message) < row.3
        && u32::from(t.octet) < row.4
}
