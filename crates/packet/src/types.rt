// What a packet is to its readers and its writer (rules 6.1, 6.27 and 7.1).
ghost use Rattle.std.specs.Prelude.{◌≡◌};
ghost use Rattle.packet.specs.Edition.{edition02};
ghost use Rattle.packet.specs.Packet.{fields_least, fields_limit, types_limit};

// A packet is an indicator or data (rule 6.1).
#[derive(Drop)]
#[derive(Clone, Copy)]
pub enum PacketKind {
    Indicator,
    Data,
}

// An ENUMERATED type of the ASN.1: whether it has an extension mark `...`, how many bits a value before the mark has, how many values there
// are before it, and how many were added after it.
#[derive(Drop)]
#[derive(Clone, Copy)]
pub struct Enumerated {
    pub extensible: bool,
    pub width: usize,
    pub assigned: usize,
    pub added: usize,
}

// The edition of the ASN.1 that a caller names: that of 06/98, or that of 2002 (rule 7.1).
#[derive(Drop)]
#[derive(Clone, Copy)]
pub enum Named {
    Old,
    New,
}

// How a packet came: received or spare, it ends at its last field (rule 6.11); repaired, it may go on with zeros (rule 6.12).
#[derive(Drop)]
#[derive(Clone, Copy)]
pub enum Ending {
    Whole,
    Repaired,
}

// A field of a packet: its type, 0 to 7 or 0 to 11 by edition, and its data as a part of the packet. Without data its start and size are 0
// (rule 6.27). A C program uses the same layout. `kind` is the type: `type` is a word of the language.
#[repr(C)]
#[derive(Drop)]
#[derive(Clone, Copy)]
pub struct Field {
    pub kind: u8,
    pub start: usize,
    pub size: usize,
}

impl Field {
    pub const LEAST: usize = 1;

    pub const LIMIT: usize = 16;

    // The highest field type, that of the newer edition.
    pub const TYPES: u8 = 11;

    pub fn least() -> usize
        ensures { result ≡ fields_least }
    {
        Field::LEAST
    }

    pub fn limit() -> usize
        ensures { result ≡ fields_limit }
    {
        Field::LIMIT
    }

    pub fn types_limit() -> u8
        ensures { result ≡ types_limit edition02 }
    {
        Field::TYPES
    }
}

// A packet that was read: its kind, its value and its fields. The first `count` places of `fields` are the packet's; all others are zero
// (rule 6.27). There is no heap, so the array has room for the most fields.
#[derive(Drop)]
pub struct PacketRead {
    pub kind: PacketKind,
    pub value: u8,
    pub count: usize,
    pub fields: [Field; Field::LIMIT],
}
