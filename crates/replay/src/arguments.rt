// The numbers to drop, from the arguments: in decimal, or `0x` and hexadecimal digits (rules 21.8 and 21.10).
use program_input::say;
use std::env::{Env, FillError};
use std::str;

// At most as many arguments as there are numbers of 16 bits.
pub const MOST: usize = 65536;

// An argument is wrong, and standard error says why.
#[derive(Drop)]
pub struct Wrong;

// The room for the characters of an argument.
const LONGEST: usize = 32;

// The number in a text. The library's reader takes a sign too, which is no digit.
fn number_in(text: &[u8]) -> Option<u16> {
    let text = str::from_utf8(text).ok()?;
    let (digits, base) = match text.strip_prefix("0x").or(text.strip_prefix("0X")) {
        Some(digits) => (digits, 16),
        None => (text, 10),
    };
    if digits.starts_with('+') {
        return None;
    }
    u16::from_str_radix(digits, base).ok()
}

fn say_no_number(rt: &HostRuntime, text: &[u8]) {
    say(rt, b"replay: ");
    say(rt, text);
    say(
        rt,
        b" is not a number to drop: 0 to 65535 in decimal, or 0x and hexadecimal digits\n",
    );
}

// The number in an argument, or None if there is no such argument.
fn number_at(rt: &HostRuntime, at: usize) -> Result<Option<u16>, Wrong> {
    let mut text = [0u8; LONGEST];
    match rt.arg(at, &mut text) {
        Ok(size) => match number_in(&text[..size]) {
            Some(n) => Ok(Some(n)),
            None => {
                say_no_number(rt, &text[..size]);
                Err(Wrong)
            }
        },
        Err(FillError::NotPresent) => Ok(None),
        Err(FillError::TooLong) => {
            say(rt, b"replay: an argument is too long for a number\n");
            Err(Wrong)
        }
    }
}

// Writes the numbers in the arguments after the trace to the front of `out`, and returns them.
pub fn numbers<'a>(rt: &HostRuntime, out: &'a mut [u16; MOST]) -> Result<&'a [u16], Wrong> {
    let mut count = 0;
    for at in 2..usize::MAX {
        let Some(n) = number_at(rt, at)? else {
            break;
        };
        if count == MOST {
            say(rt, b"replay: more than 65536 numbers\n");
            return Err(Wrong);
        }
        out[count] = n;
        count += 1;
    }
    Ok(&out[..count])
}
