// Lines 20 to 23, on the sending session (rules 25.26 to 25.29).
use crate::receiver::{around, at_most};
use calls_lines::{
    Arguments, FILLING, Out, PARITY, SPARES, Target, fits, row_of, say, say_no_call, say_written,
    target_of,
};
use datagram::Packet;
use sender::{Sender, Settings};

// With spares another b than 0 is no call (rule 25.5).
fn settings_of(kind: u8, a: u8, b: u8) -> Option<Settings> {
    match kind {
        PARITY => Some(Settings::Parity { n: a, m: b }),
        SPARES if b == 0 => Some(Settings::Spares(a)),
        _ => None,
    }
}

// 21: sends a packet (rule 25.27).
fn send(out: &mut Out, sender: Sender, octets: &[u8], lent: &mut [u8]) -> Sender {
    let mut arguments = Arguments::of(octets);
    let packet = arguments.sized(2);
    let kind = arguments.octet();
    let a = arguments.octet();
    let b = arguments.octet();
    match settings_of(kind, a, b) {
        Some(settings) if arguments.are_all() => {
            let after = sender_calls::send(sender, packet, settings, lent);
            say_written(out, after.answer, 2, lent);
            after.sender
        }
        _ => {
            say_no_call(out);
            sender
        }
    }
}

// 22: a fresh session that has sent `times` packets, each the octet 06, without spares (rule 25.28).
fn many(out: &mut Out, times: u32) -> Sender {
    let mut sender = Sender::fresh();
    let mut lent = [FILLING; 16];
    for _ in 0..around(times) {
        sender = sender_calls::send(sender, &[6], Settings::Spares(0), &mut lent).sender;
    }
    say(out, 0, 1);
    sender.sent = times;
    sender
}

// Overwrites one field. The caller has checked that its place is there and the value fits.
fn overwritten(sender: Sender, t: Target) -> Sender {
    let mut r = sender;
    let slot = usize::from(t.number) % Sender::HISTORY;
    let octet = usize::from(t.octet) % Packet::LIMIT;
    match t.field {
        0 => r.sent = t.value,
        1 => r.sizes[slot] = (t.value % 65536) as u16,
        _ => r.octets[slot * Packet::LIMIT + octet] = (t.value % 256) as u8,
    }
    r
}

// 23: overwrites one field, as a caller could (rule 25.29).
fn overwrite(out: &mut Out, sender: Sender, octets: &[u8]) -> Sender {
    let t = target_of(octets);
    let row = row_of(0x2300 + u16::from(t.field));
    if fits(row, (sender.sent % 65536) as u16, t) {
        say(out, 0, 1);
        return overwritten(sender, t);
    }
    say_no_call(out);
    sender
}

pub fn answer(out: &mut Out, sender: Sender, call: u8, octets: &[u8], lent: &mut [u8]) -> Sender {
    match call {
        0x20 => {
            say(out, 0, 1);
            Sender::fresh()
        }
        0x21 => send(out, sender, octets, lent),
        0x22 => many(out, at_most(Arguments::of(octets).number(4))),
        _ => overwrite(out, sender, octets),
    }
}
