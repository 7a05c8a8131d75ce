// What a packet reads as, and the choices of the calls on packets, encoded as numbers. A kind is the octet 0 for an indicator or 1 for data
// (rule 24.5).
ghost use Rattle.std.specs.Prelude.{◌≡◌, ltb};
ghost use Rattle.host_answers.specs.Packet.{ending_named, kind_told, kind_named};

use packet::{Ending, Field, PacketKind};

// What a packet reads as: 0, or the refusal's number and place; the kind, the value and how many fields it has. The first `count` fields
// are the packet's, all others are zero (rule 6.27). With a refusal all but its number and place is 0 (rule 24.17).
// C uses the same layout, so the fields are an array of a fixed size.
#[repr(C)]
#[derive(Drop)]
pub struct PacketFound {
    pub refusal: u8,
    pub kind: u8,
    pub value: u8,
    pub place: usize,
    pub count: usize,
    pub fields: [Field; Field::LIMIT],
}

// Whether a packet is read as repaired, or as received or spare.
pub fn ending_of(repaired: bool) -> Ending
    ensures { result ≡ ending_named repaired }
{
    if repaired {
        Ending::Repaired
    } else {
        Ending::Whole
    }
}

// A kind as an octet (rule 24.5).
pub fn kind_told(kind: PacketKind) -> u8
    ensures { result ≡ kind_told kind }
{
    match kind {
        PacketKind::Indicator => 0,
        PacketKind::Data => 1,
    }
}

// Whether an octet names no kind (rule 24.5).
pub fn no_kind(octet: u8) -> bool
    ensures { result ≡ ltb 1 octet }
{
    1 < octet
}

// The kind that an octet of at most 1 names.
pub fn kind_named(octet: u8) -> PacketKind
    ensures { result ≡ kind_named octet }
{
    if octet == 0 {
        PacketKind::Indicator
    } else {
        PacketKind::Data
    }
}
