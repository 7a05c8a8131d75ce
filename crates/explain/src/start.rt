// IFPPacket ::= SEQUENCE { type-of-msg Type-of-msg, data-field Data-Field OPTIONAL }, and what follows its end.
ghost use Rattle.std.specs.Prelude.{◌≤◌, length};
ghost use Rattle.datagram.specs.Sizes.{packet_limit};

use crate::fields::{data_field, marked, padding};
use crate::last::read_by;
use crate::text::{Out, row_of_bit, row_of_octets, say_hex, say_octets, say_refused, stopped};
use crate::values::{Which, enumerated};
use crate::wording;
use crate::wording::{end_line, say_word};
use packet::{Ending, Named};
use packet_pencil::{octet, start};

// The octet at which the first item begins.
const FIRST: usize = 0;

// 06/98: Type-of-msg ::= CHOICE { t30-indicator ENUMERATED .., data ENUMERATED .. }
// 2002:  Type-of-msg ::= CHOICE { t30-indicator ENUMERATED .., t30-data ENUMERATED .. }
fn data_name(named: Named) -> &'static str {
    match named {
        Named::Old => wording::DATA,
        Named::New => wording::T30_DATA,
    }
}

fn chosen(
    out: &mut Out,
    named: Named,
    octets: &[u8],
    at: usize,
    which: Which,
    name: &str,
) -> Option<usize>
    requires { length octets.now ≤ packet_limit }
{
    end_line(out, name);
    enumerated(out, named, octets, FIRST, at.wrapping_add(1), which, name)
}

fn type_of_msg(out: &mut Out, named: Named, octets: &[u8], at: usize) -> Option<usize>
    requires { length octets.now ≤ packet_limit }
{
    let is_data = row_of_bit(out, octets, FIRST, at, wording::TYPE_OF_MSG)?;
    if is_data {
        chosen(out, named, octets, at, Which::Data, data_name(named))
    } else {
        chosen(out, named, octets, at, Which::Indicator, wording::INDICATOR)
    }
}

// The first item: the bit for data-field OPTIONAL, and Type-of-msg.
fn first_item(out: &mut Out, named: Named, octets: &[u8]) -> Option<usize>
    requires { length octets.now ≤ packet_limit }
{
    let next = marked(out, octets, FIRST, 0, wording::PRESENT)?;
    let at = type_of_msg(out, named, octets, next)?;
    padding(out, octets, at)
}

// What follows the end, from an octet on: nothing, or zeros if the packet was repaired (rules 6.11 and 6.12).
fn after_end(out: &mut Out, named: Named, octets: &[u8], at: usize, from: usize, ending: Ending) {
    if octets.len() <= from {
        return;
    }
    let left = &octets[from..];
    row_of_octets(out, at, wording::AFTER_END);
    say_octets(out, left.len());
    say_word(out, wording::COMMA);
    say_hex(out, left);
    say_word(out, wording::COLON);
    match read_by(named, octets, ending) {
        Err(why) => say_refused(out, why),
        Ok(_) => end_line(out, wording::ZEROS),
    }
}

fn end(out: &mut Out, named: Named, octets: &[u8], at: usize, ending: Ending)
    requires { length octets.now ≤ packet_limit }
{
    if let Some(edge) = padding(out, octets, at) {
        after_end(out, named, octets, edge, octet(octets, edge), ending);
    }
}

// The data field, where there is one, and the end.
fn rest(out: &mut Out, named: Named, octets: &[u8], ending: Ending)
    requires { length octets.now ≤ packet_limit }
{
    match start(named, octets, 0) {
        Err(why) => {
            stopped(out, octets, 0, 1, wording::OPTIONAL, why);
        }
        Ok(first) => {
            if !first.present {
                return end(out, named, octets, first.next, ending);
            }
            if let Some(next) = data_field(out, named, octets, first.next) {
                end(out, named, octets, next, ending);
            }
        }
    }
}

pub fn packet(out: &mut Out, named: Named, octets: &[u8], ending: Ending)
    requires { length octets.now ≤ packet_limit }
{
    if first_item(out, named, octets).is_some() {
        rest(out, named, octets, ending);
    }
}
