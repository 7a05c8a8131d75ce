// What a packet may hold, to the readers, the writer and the joiner: an edition's tables (rules 6.3, 6.6, 6.10, 7.2 to 7.4 and 7.10).
#![tactic(auto)]

ghost use Rattle.std.specs.Prelude.{◌≡◌};
ghost use Rattle.packet.specs.Edition as edition;
ghost use Rattle.packet.specs.Edition.{edition_of, choice_of, carries, allows};
ghost use Rattle.packet.specs.Packet.{right_fields};

use packet::{Enumerated, Named, PacketKind};

// The edition that an octet names: 0 the old, 1 the new, another neither (rules 7.1 and 7.2).
pub fn choice_of(octet: u8) -> Option<Named>
    ensures { result ≡ choice_of octet }
{
    match octet {
        0 => Some(Named::Old),
        1 => Some(Named::New),
        _ => None,
    }
}

// The values of a kind (rules 6.3, 7.3 and 7.4).
pub fn values(named: Named, kind: PacketKind) -> Enumerated
    ensures { result ≡ edition.values (edition_of named) kind }
{
    match named {
        Named::Old => match kind {
            PacketKind::Indicator => Enumerated {
                extensible: true,
                width: 4,
                assigned: 16,
                added: 0,
            },
            PacketKind::Data => Enumerated {
                extensible: true,
                width: 4,
                assigned: 9,
                added: 0,
            },
        },
        Named::New => match kind {
            PacketKind::Indicator => Enumerated {
                extensible: true,
                width: 4,
                assigned: 16,
                added: 7,
            },
            PacketKind::Data => Enumerated {
                extensible: true,
                width: 4,
                assigned: 9,
                added: 6,
            },
        },
    }
}

// The field types (rules 7.3 and 7.4).
pub fn types(named: Named) -> Enumerated
    ensures { result ≡ (edition_of named).types }
{
    match named {
        Named::Old => Enumerated {
            extensible: false,
            width: 3,
            assigned: 8,
            added: 0,
        },
        Named::New => Enumerated {
            extensible: true,
            width: 3,
            assigned: 8,
            added: 4,
        },
    }
}

// Whether a packet of this kind may have a data field, or have none (rule 6.6).
pub fn right_fields(kind: PacketKind, present: bool) -> bool
    ensures { result ≡ right_fields kind present }
{
    match kind {
        PacketKind::Indicator => !present,
        PacketKind::Data => true,
    }
}

// Whether a field of this type may have data, or have none (rules 6.10 and 7.10).
pub fn right_data(kind: u8, present: bool) -> bool
    ensures { result ≡ allows (carries kind) present }
{
    match kind {
        0 | 6 | 8..=10 => present,
        1..=5 => !present,
        _ => true,
    }
}
