// The program `explain` for the support desk: it reads a packet in hexadecimal from each line, of 06/98 or, behind the word new, of 2002,
// and writes it item by item, in the names of Annex A (rules 19.4 to 19.7). The functions of `packet_pencil` say where each item ends, what
// it holds and why it is refused, and the last line is its `read`.
#![tactic(auto)]

mod fields;
mod last;
mod names;
mod start;
mod text;
mod values;
mod wording;

use datagram::{Datagram, Packet};
use packet::{Ending, Named};
use program_input::Lines;
use std::io;
use std::io::{BufWriter, Write};
use text::{Out, row_of_octets, say, say_number, say_octets};
use wording::{end_line, say_word};

// How many octets a line holds at most.
const OCTETS: usize = Datagram::LIMIT;

// How many characters of a line are kept: more than two words and a line of hexadecimal need.
const KEPT: usize = 2 * OCTETS + 16;

// The characters of a line that are left out (rule 19.9).
const BLANKS: &[u8] = b" \t\r";

// The line of a packet with more octets than a packet may have (rule 1.1).
fn too_long(out: &mut Out, size: usize) {
    row_of_octets(out, 0, wording::IFP_PACKET);
    say_octets(out, size);
    say_word(out, wording::AT_MOST);
    say_number(out, Packet::LIMIT);
    say(out, b"\n");
}

// A packet: its items in the edition, then what it reads as (rules 19.5 and 19.6).
fn explain(out: &mut Out, named: Named, octets: &[u8], ending: Ending) {
    let fits = octets.len() <= Packet::LIMIT;
    if fits {
        start::packet(out, named, octets, ending);
    } else {
        too_long(out, octets.len());
    }
    last::told(out, named, octets, ending, fits);
}

// The packet in these digits.
fn packet(out: &mut Out, named: Named, digits: &[u8], ending: Ending) {
    let mut octets = [0u8; OCTETS];
    match line_hex::hex_to_octets(digits, &mut octets) {
        Err(_) => end_line(out, wording::NO_PACKET),
        Ok(count) => explain(out, named, &octets[..count], ending),
    }
}

// A line behind the word for its edition, if there is one.
fn by_edition(out: &mut Out, named: Named, line: &[u8]) {
    match line.strip_prefix(b"repaired") {
        Some(digits) => packet(out, named, digits, Ending::Repaired),
        None => packet(out, named, line, Ending::Whole),
    }
}

// The words new and repaired may come first, in either order (rule 19.4).
fn explain_line(out: &mut Out, line: &[u8]) {
    if let Some(rest) = line.strip_prefix(b"new") {
        by_edition(out, Named::New, rest);
    } else if let Some(digits) = line.strip_prefix(b"repairednew") {
        packet(out, Named::New, digits, Ending::Repaired);
    } else {
        by_edition(out, Named::Old, line);
    }
}

fn main(rt: HostRuntime) -> io::Result<()> {
    let mut lines = Lines::new(rt.stdin());
    let mut out = BufWriter::new(rt.alloc(), rt.stdout())?;
    let mut kept = [0u8; KEPT];
    let mut first = true;
    // Nothing proves that the input ends, so the lines are counted up to a number that no run reaches.
    for _ in 0..u64::MAX {
        let Some(line) = lines.next_line(&mut kept, BLANKS) else {
            break;
        };
        // Empty lines are skipped (rule 19.9). An empty line is written before each packet but the first.
        if !line.is_empty() {
            if !first {
                say(&mut out, b"\n");
            }
            first = false;
            explain_line(&mut out, line);
            let _ = out.flush();
        }
    }
    Ok(())
}
