// The last line: what the packet reads as, or its refusal and place (rules 19.6 and 19.7).
use crate::names::{NAME, say_data, say_indicator, say_type};
use crate::text::{Out, say, say_count, say_number, say_octets, say_refusal};
use crate::wording;
use crate::wording::say_word;
use length::Refusal;
use packet::{Ending, Field, Named, PacketKind, PacketRead};

// A value after its word, then the bracket that opens its name.
fn say_value(out: &mut Out, word: &str, value: usize) {
    say_word(out, word);
    say_number(out, value);
    say_word(out, wording::OPENS);
}

fn say_kind(out: &mut Out, kind: PacketKind, value: usize) {
    match kind {
        PacketKind::Indicator => {
            say_value(out, wording::READS_AS_INDICATOR, value);
            say_indicator(out, value, NAME);
        }
        PacketKind::Data => {
            say_value(out, wording::READS_AS_DATA, value);
            say_data(out, value, NAME);
        }
    }
    say_word(out, wording::CLOSES);
}

fn say_field(out: &mut Out, kind: usize, size: usize) {
    say_value(out, wording::TYPE, kind);
    say_type(out, kind, NAME);
    say_word(out, wording::CLOSES);
    say_octets(out, size);
}

// The fields come as the reader returns them: an array with room for the most fields, and how many there are.
fn all_fields(out: &mut Out, fields: [Field; Field::LIMIT], count: usize) {
    say_count(out, count, wording::FIELD);
    for field in fields.iter().take(count) {
        say_field(out, field.kind as usize, field.size);
    }
}

// The packet, read in this edition.
pub fn read_by(named: Named, octets: &[u8], ending: Ending) -> Result<PacketRead, Refusal> {
    match named {
        Named::Old => packet_pencil::read(0, octets, ending),
        Named::New => packet_pencil::read(1, octets, ending),
    }
}

// For a packet that this edition refuses: writes `word` if the other edition reads it (rule 19.7).
fn say_other(out: &mut Out, other: Named, octets: &[u8], ending: Ending, word: &str) {
    match read_by(other, octets, ending) {
        Err(_) => {}
        Ok(_) => say_word(out, word),
    }
}

fn say_elsewhere(out: &mut Out, named: Named, octets: &[u8], ending: Ending) {
    match named {
        Named::Old => say_other(out, Named::New, octets, ending, wording::READS_ONLY_IN_NEW),
        Named::New => say_other(out, Named::Old, octets, ending, wording::READS_ONLY_IN_OLD),
    }
    say(out, b"\n");
}

// What the packet reads as. A refusal met while reading is written with its octet, one of the whole packet without (rule 19.6).
pub fn told(out: &mut Out, named: Named, octets: &[u8], ending: Ending, met: bool) {
    match read_by(named, octets, ending) {
        Err(why) => {
            say_refusal(out, why, met);
            say_elsewhere(out, named, octets, ending);
        }
        Ok(packet) => {
            say_kind(out, packet.kind, packet.value as usize);
            all_fields(out, packet.fields, packet.count);
            say(out, b"\n");
        }
    }
}
