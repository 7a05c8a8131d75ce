// Lines 01 to 07, which need no session: lengths, datagrams and packets, read and written (rules 25.8 to 25.14).
use crate::answers::{Out, say, say_done, say_no_call, say_refused, say_sized, say_written};
use crate::arguments::Arguments;
use datagram::{Kind, Part, Spares};
use length::Refusal;
use packet::{Ending, Field, PacketRead};

// The octets in the test program's lines (tests/CALLS.md) for what a datagram carries beside its packet.
pub const SPARES: u8 = 0;

pub const PARITY: u8 = 128;

// 01: reads a length (rule 25.8).
fn read_length(out: &mut Out, octets: &[u8]) {
    match length_code::read(octets) {
        Err(why) => say_refused(out, why),
        Ok(found) => {
            say_done(out, found.value, 2);
            say(out, (found.size % 256) as u32, 1);
        }
    }
}

// 02: writes a length (rule 25.9).
fn write_length(out: &mut Out, octets: &[u8], lent: &mut [u8]) {
    let value = usize::from(Arguments::of(octets).two());
    let answer = length_code::write(value, lent);
    say_written(out, answer, 1, lent);
}

// The items come as the reader returns them: an array with room for the most items, and how many there are.
fn say_items(out: &mut Out, octets: &[u8], items: [Part; Spares::LIMIT], count: usize) {
    say(out, (count % 256) as u32, 1);
    for item in items.iter().take(count) {
        say_sized(out, octets, item.start, item.size);
    }
}

fn say_kind(out: &mut Out, kind: Kind) {
    match kind {
        Kind::Spares => say(out, SPARES as u32, 1),
        Kind::Parity(n) => {
            say(out, PARITY as u32, 1);
            say(out, (n % 256) as u32, 1);
        }
    }
}

// 03: reads a datagram (rule 25.10).
fn read_datagram(out: &mut Out, octets: &[u8]) {
    match datagram_reader::read(octets) {
        Err(why) => say_refused(out, why),
        Ok(read) => {
            say_done(out, usize::from(read.number), 2);
            say_sized(out, octets, read.packet.start, read.packet.size);
            say_kind(out, read.kind);
            say_items(out, octets, read.items, read.count);
        }
    }
}

// With spares another n than 0 is no call (rule 25.5).
fn kind_of(kind: u8, n: u8) -> Option<Kind> {
    match kind {
        PARITY => Some(Kind::Parity(usize::from(n))),
        SPARES if n == 0 => Some(Kind::Spares),
        _ => None,
    }
}

// 04: writes a datagram (rule 25.11).
fn write_datagram(out: &mut Out, octets: &[u8], lent: &mut [u8]) {
    let mut lengths = [0u16; 256];
    let mut arguments = Arguments::of(octets);
    let newest = arguments.two();
    let packet = arguments.sized(2);
    let kind = arguments.octet();
    let n = arguments.octet();
    let listed = arguments.numbers(1, &mut lengths);
    let data = arguments.sized(2);
    match kind_of(kind, n) {
        Some(kind) if arguments.are_all() => {
            let answer = datagram_writer::write(newest, packet, kind, listed, data, lent);
            say_written(out, answer, 2, lent);
        }
        _ => say_no_call(out),
    }
}

// The fields come as the reader returns them: an array with room for the most fields, and how many there are.
fn say_fields(out: &mut Out, octets: &[u8], fields: [Field; Field::LIMIT], count: usize) {
    say(out, (count % 256) as u32, 1);
    for field in fields.iter().take(count) {
        say(out, field.kind as u32, 1);
        say_sized(out, octets, field.start, field.size);
    }
}

fn kind_octet(kind: packet::PacketKind) -> usize {
    match kind {
        packet::PacketKind::Indicator => 0,
        packet::PacketKind::Data => 1,
    }
}

// What a reader finds in a packet of the edition that an octet names: the packet reader for line 05, the second reader for 07 (rule 25.14).
fn packet_found(
    call: u8,
    edition: u8,
    octets: &[u8],
    ending: Ending,
) -> Result<PacketRead, Refusal> {
    match call {
        0x05 => packet_reader::read(edition, octets, ending),
        _ => packet_pencil::read(edition, octets, ending),
    }
}

fn say_packet(out: &mut Out, call: u8, edition: u8, octets: &[u8], ending: Ending) {
    match packet_found(call, edition, octets, ending) {
        Err(why) => say_refused(out, why),
        Ok(found) => {
            say_done(out, kind_octet(found.kind), 1);
            say(out, found.value as u32, 1);
            say_fields(out, octets, found.fields, found.count);
        }
    }
}

fn ending_of(ending: u8) -> Option<Ending> {
    match ending {
        0 => Some(Ending::Whole),
        1 => Some(Ending::Repaired),
        _ => None,
    }
}

// 05 and 07: reads a packet of the named edition, as received or as repaired (rules 25.12 and 25.14).
fn read_packet(out: &mut Out, call: u8, octets: &[u8]) {
    let mut arguments = Arguments::of(octets);
    let edition = arguments.octet();
    let ending = ending_of(arguments.octet());
    match (ending, arguments.rest()) {
        (Some(ending), Some(packet)) => say_packet(out, call, edition, packet, ending),
        _ => say_no_call(out),
    }
}

fn packet_kind(kind: u8) -> Option<packet::PacketKind> {
    match kind {
        0 => Some(packet::PacketKind::Indicator),
        1 => Some(packet::PacketKind::Data),
        _ => None,
    }
}

// 06: writes a packet of the named edition (rule 25.13).
fn write_packet(out: &mut Out, octets: &[u8], lent: &mut [u8]) {
    let mut lengths = [0u16; 256];
    let mut arguments = Arguments::of(octets);
    let edition = arguments.octet();
    let kind = packet_kind(arguments.octet());
    let value = arguments.octet();
    let types = arguments.sized(1);
    let listed = arguments.numbers(1, &mut lengths);
    let data = arguments.sized(2);
    match kind {
        Some(kind) if arguments.are_all() => {
            let answer = packet_writer::write(edition, kind, value, types, listed, data, lent);
            say_written(out, answer, 2, lent);
        }
        _ => say_no_call(out),
    }
}

pub fn answer(out: &mut Out, call: u8, octets: &[u8], lent: &mut [u8]) {
    match call {
        0x01 => read_length(out, octets),
        0x02 => write_length(out, octets, lent),
        0x03 => read_datagram(out, octets),
        0x04 => write_datagram(out, octets, lent),
        0x05 | 0x07 => read_packet(out, call, octets),
        _ => write_packet(out, octets, lent),
    }
}
