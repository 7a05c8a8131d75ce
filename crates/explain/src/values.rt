// ENUMERATED { .., ..., .. }: the bit for extension, where the edition has an extension mark there, and the value (rules 6.2 and 7.5).
ghost use Rattle.std.specs.Prelude.{◌≤◌, length};
ghost use Rattle.datagram.specs.Sizes.{packet_limit};

use crate::names::{LINE, say_data, say_indicator, say_type};
use crate::text::{Out, row, row_of_bit, say, say_refused, stopped};
use crate::wording;
use crate::wording::end_line;
use length::Refusal;
use packet::{Enumerated, Named, PacketKind};
use packet_pencil::{field_type, t30_data, t30_indicator};

// The ENUMERATED types of Annex A.
#[derive(Drop)]
#[derive(Clone, Copy)]
pub enum Which {
    Indicator,
    Data,
    Type,
}

// How many bits an added value takes, behind the bit for extension and a bit that is 0 (rule 7.5).
const ADDED_WIDTH: usize = 6;

fn values_of(named: Named, which: Which) -> Enumerated {
    match which {
        Which::Indicator => packet_rules::values(named, PacketKind::Indicator),
        Which::Data => packet_rules::values(named, PacketKind::Data),
        Which::Type => packet_rules::types(named),
    }
}

fn value_at(
    named: Named,
    octets: &[u8],
    item: usize,
    at: usize,
    which: Which,
) -> Result<(usize, usize), Refusal>
    requires { length octets.now ≤ packet_limit }
{
    match which {
        Which::Indicator => t30_indicator(named, octets, item, at),
        Which::Data => t30_data(named, octets, item, at),
        Which::Type => field_type(named, octets, item, at),
    }
}

fn say_value(out: &mut Out, which: Which, value: usize) {
    match which {
        Which::Indicator => say_indicator(out, value, LINE),
        Which::Data => say_data(out, value, LINE),
        Which::Type => say_type(out, value, LINE),
    }
    say(out, b"\n");
}

// The last bits of a value, from a place on: the value, or why it is refused.
fn last_bits(
    out: &mut Out,
    octets: &[u8],
    at: usize,
    bits: usize,
    which: Which,
    name: &str,
    found: Result<(usize, usize), Refusal>,
) -> Option<usize>
    requires { length octets.now ≤ packet_limit }
{
    match found {
        Err(why) => stopped(out, octets, at, bits, name, why),
        Ok((value, end)) => {
            row(out, octets, at, end, name);
            say_value(out, which, value);
            Some(end)
        }
    }
}

// A single bit that is refused, behind the front of its line: a bit for extension where no value is added, or a 1 in place of the 0 bit of
// an added value (rules 7.6 and 7.7).
fn refused_bit(out: &mut Out, found: Result<(usize, usize), Refusal>) -> Option<usize> {
    match found {
        Err(why) => {
            say_refused(out, why);
            None
        }
        Ok((_, end)) => Some(end),
    }
}

// An added value, behind its bit for extension: one 0 bit, then six bits (rule 7.5).
fn added(
    out: &mut Out,
    octets: &[u8],
    item: usize,
    at: usize,
    which: Which,
    name: &str,
    found: Result<(usize, usize), Refusal>,
) -> Option<usize>
    requires { length octets.now ≤ packet_limit }
{
    end_line(out, wording::EXTENSION);
    let is_one = row_of_bit(out, octets, item, at, name)?;
    if is_one {
        return refused_bit(out, found);
    }
    end_line(out, wording::SIX_BITS);
    let next = at.wrapping_add(1);
    last_bits(out, octets, next, ADDED_WIDTH, which, name, found)
}

// A value behind the bit for extension, which is 0: the bits of a value before the extension mark.
fn plain(
    out: &mut Out,
    octets: &[u8],
    at: usize,
    width: usize,
    which: Which,
    name: &str,
    found: Result<(usize, usize), Refusal>,
) -> Option<usize>
    requires { length octets.now ≤ packet_limit }
{
    end_line(out, wording::NO_EXTENSION);
    last_bits(out, octets, at, width, which, name, found)
}

// A value, from a place on, of the item that begins at the octet `item`. Where the bit for extension is 1 and no value is added, the bit
// itself is refused (rule 7.6).
pub fn enumerated(
    out: &mut Out,
    named: Named,
    octets: &[u8],
    item: usize,
    at: usize,
    which: Which,
    name: &str,
) -> Option<usize>
    requires { length octets.now ≤ packet_limit }
{
    let values = values_of(named, which);
    let found = value_at(named, octets, item, at, which);
    if !values.extensible {
        return last_bits(out, octets, at, values.width, which, name, found);
    }
    let next = at.wrapping_add(1);
    let is_extended = row_of_bit(out, octets, item, at, name)?;
    if !is_extended {
        plain(out, octets, next, values.width, which, name, found)
    } else if values.added == 0 {
        refused_bit(out, found)
    } else {
        added(out, octets, item, next, which, name, found)
    }
}
