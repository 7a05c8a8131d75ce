// Data-Field ::= SEQUENCE OF SEQUENCE { field-type ENUMERATED .., field-data OCTET STRING (SIZE (1..65535)) OPTIONAL }
ghost use Rattle.std.specs.Prelude.{◌≤◌, length};
ghost use Rattle.datagram.specs.Sizes.{packet_limit};

use crate::text::{
    Out, row, row_of_octets, say, say_count, say_flag, say_hex, say_number, say_octets,
    say_refused, stopped,
};
use crate::values::{Which, enumerated};
use crate::wording;
use crate::wording::{end_line, say_word};
use packet::Named;
use packet_pencil::{align, count, field_data, flag, header, octet, size};

// The bit for something OPTIONAL.
pub fn marked(out: &mut Out, octets: &[u8], item: usize, at: usize, name: &str) -> Option<usize>
    requires { length octets.now ≤ packet_limit }
{
    match flag(octets, item, at) {
        Err(why) => stopped(out, octets, at, 1, name, why),
        Ok((present, next)) => {
            row(out, octets, at, next, name);
            say_flag(out, present);
            Some(next)
        }
    }
}

// Zero bits to an octet edge, where there are any.
pub fn padding(out: &mut Out, octets: &[u8], at: usize) -> Option<usize>
    requires { length octets.now ≤ packet_limit }
{
    match align(octets, at) {
        Err(why) => stopped(out, octets, at, 8 - at % 8, wording::PADDING, why),
        Ok(edge) => {
            if at < edge {
                row(out, octets, at, edge, wording::PADDING);
                end_line(out, wording::ZERO_BITS);
            }
            Some(edge)
        }
    }
}

// The octets that a length promises.
fn octets(out: &mut Out, input: &[u8], edge: usize, begin: usize, size: usize) -> Option<usize>
    requires { length input.now ≤ packet_limit }
{
    row_of_octets(out, begin, wording::FIELD_DATA);
    match field_data(input, edge) {
        Err(why) => {
            say_octets(out, size);
            say_word(out, wording::DUE);
            say_number(out, input.len().wrapping_sub(octet(input, begin)));
            say_word(out, wording::THERE);
            say_refused(out, why);
            None
        }
        Ok((start, length, end)) => {
            let data = input.get(start..).and_then(|rest| rest.get(..length));
            say_hex(out, data.unwrap_or(&[]));
            say(out, b"\n");
            Some(end)
        }
    }
}

// A length in two octets, minus one, and the octets (rule 6.8).
fn sized(out: &mut Out, input: &[u8], edge: usize) -> Option<usize>
    requires { length input.now ≤ packet_limit }
{
    match size(input, edge) {
        Err(why) => stopped(out, input, edge, 16, wording::LENGTH, why),
        Ok((length, begin)) => {
            row(out, input, edge, begin, wording::LENGTH);
            say_octets(out, length);
            end_line(out, wording::ONE_MORE);
            octets(out, input, edge, begin, length)
        }
    }
}

// field-data OCTET STRING (SIZE (1..65535)) OPTIONAL, behind a header from `at` to `end`.
fn optional(out: &mut Out, named: Named, octets: &[u8], at: usize, end: usize) -> Option<usize>
    requires { length octets.now ≤ packet_limit }
{
    match header(named, octets, at) {
        Err(why) => stopped(
            out,
            octets,
            at,
            end.wrapping_sub(at),
            wording::DATA_OPTIONAL,
            why,
        ),
        Ok((_, present, next)) => {
            if !present {
                return Some(next);
            }
            let edge = padding(out, octets, next)?;
            sized(out, octets, edge)
        }
    }
}

// SEQUENCE { field-type, field-data OPTIONAL }
fn field(out: &mut Out, named: Named, octets: &[u8], at: usize) -> Option<usize>
    requires { length octets.now ≤ packet_limit }
{
    let item = at / 8;
    let next = marked(out, octets, item, at, wording::DATA_PRESENT)?;
    let end = enumerated(
        out,
        named,
        octets,
        item,
        next,
        Which::Type,
        wording::FIELD_TYPE,
    )?;
    optional(out, named, octets, at, end)
}

// SEQUENCE OF: `count` fields.
fn sequence(out: &mut Out, named: Named, octets: &[u8], from: usize, count: usize) -> Option<usize>
    requires { length octets.now ≤ packet_limit }
{
    let mut at = from;
    for _ in 0..count {
        at = field(out, named, octets, at)?;
    }
    Some(at)
}

// How many bits a refused count has: two octets where the first bit is 1 (rule 3.2).
fn count_bits(octets: &[u8], at: usize) -> usize
    requires { length octets.now ≤ packet_limit }
{
    match flag(octets, at / 8, at) {
        Ok((true, _)) => 16,
        Ok((false, _)) | Err(_) => 8,
    }
}

// Data-Field: the count of fields, and the fields.
pub fn data_field(out: &mut Out, named: Named, octets: &[u8], at: usize) -> Option<usize>
    requires { length octets.now ≤ packet_limit }
{
    match count(octets, at) {
        Err(why) => stopped(
            out,
            octets,
            at,
            count_bits(octets, at),
            wording::DATA_FIELD,
            why,
        ),
        Ok((n, next)) => {
            row(out, octets, at, next, wording::DATA_FIELD);
            say_count(out, n, wording::FIELD);
            say(out, b"\n");
            sequence(out, named, octets, next, n)
        }
    }
}
