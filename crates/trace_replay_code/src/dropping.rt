// Which lines of a trace are dropped (rules 21.1, 21.3 and 21.5). The number is in the first four digits: it is looked up in the list
// first, and only a line with a listed number is read whole.
ghost use Rattle.std.specs.Prelude.{◌≡◌};
ghost use Rattle.datagram.specs.Read.{read_datagram};
ghost use Rattle.trace_replay.specs.Replay.{number_in, listed, dropped};
ghost use Rattle.length.specs.Answers.{is_done};
ghost use Rattle.trace_replay_code.specs.Inner.{FrontTold};

use datagram::Datagram;
use line_hex::{all_digits, hex_to_octets, pair_up};

// How many digits a number has, and how many octets.
const DIGITS: usize = 4;

const OCTETS: usize = 2;

// Whether a number is in the list (rule 30.7). The loop has no early exit, so that the compiler can compare many numbers at once.
fn is_listed(numbers: &[u16], number: u16) -> bool
    ensures { result ≡ listed numbers.now number }
{
    let mut found = false;
    for n in numbers {
        found = found | (*n == number);
    }
    found
}

// The number in the first four digits of a line, two octets, high first (rule 4.1), if the line begins with four digits. If the line holds
// a datagram, it is the datagram's number.
fn front_of(line: &[u8]) -> Option<u16>
    ensures { FrontTold line.now result }
{
    if line.len() < DIGITS {
        return None;
    }
    if !all_digits(&line[..DIGITS]) {
        return None;
    }
    let mut front = [0u8; OCTETS];
    pair_up(&line[..DIGITS], &mut front);
    Some(u16::from_be_bytes(front))
}

fn is_datagram(octets: &[u8]) -> bool
    ensures { result ≡ is_done (read_datagram octets.now) }
{
    match datagram_reader::read(octets) {
        Ok(_) => true,
        Err(_) => false,
    }
}

// Whether a line holds a datagram.
fn reads(line: &[u8]) -> bool
    ensures { result ≡ is_done (number_in line.now) }
{
    let mut work = [0u8; Datagram::LIMIT];
    let read = hex_to_octets(line, &mut work);
    match read {
        Ok(size) => is_datagram(&work[..size]),
        Err(_) => false,
    }
}

// Whether a line is dropped: its number is listed, and it reads (rules 21.1 and 21.5).
pub fn is_dropped(numbers: &[u16], line: &[u8]) -> bool
    ensures { result ≡ dropped numbers.now line.now }
{
    match front_of(line) {
        Some(number) => is_listed(numbers, number) && reads(line),
        None => false,
    }
}
