// Bits, one at a time, the highest of an octet first, as in X.691's aligned encoding (rules 5.1 and 8.1). A place is a number of bits.
// `item` is the octet at which their item begins, and the place of a refusal (rule 2.27).
ghost use Rattle.std.specs.Prelude.{◌≤◌, length};
ghost use Rattle.datagram.specs.Sizes.{packet_limit};
ghost use Rattle.packet_pencil.specs.Bits.{BitTaken, BitsTaken, FlagTaken, EdgeTaken};

use length::{Reason, Refusal, wide};

// The bit at a place, and the place after it.
pub fn bit(octets: &[u8], item: usize, at: usize) -> Result<(usize, usize), Refusal>
    requires { length octets.now ≤ packet_limit }
    ensures { BitTaken octets.now item at result }
{
    if octets.len() <= at / 8 {
        return Err(Refusal::at(Reason::EndsEarly, item));
    }
    let octet = wide(octets[at / 8]);
    let from_top = octet >> (7 - at % 8);
    Ok((from_top % 2, at + 1))
}

// The number in n bits from a place on, and the place after them.
pub fn bits(octets: &[u8], item: usize, at: usize, n: usize) -> Result<(usize, usize), Refusal>
    requires { (length octets.now ≤ packet_limit) × (n ≤ 16) }
    ensures { BitsTaken n octets.now item at result }
{
    let mut value: usize = 0;
    let mut next = at;
    for _ in 0..n {
        let (one, after) = bit(octets, item, next)?;
        value = value * 2 + one;
        next = after;
    }
    Ok((value, next))
}

// One bit as a flag, and the place after it.
pub fn flag(octets: &[u8], item: usize, at: usize) -> Result<(bool, usize), Refusal>
    requires { length octets.now ≤ packet_limit }
    ensures { FlagTaken octets.now item at result }
{
    let (one, next) = bit(octets, item, at)?;
    Ok((0 < one, next))
}

// The octet edge at a place or after it, by zero bits, which are one item; a bit set there is 5 (rules 5.3 to 5.5).
pub fn align(octets: &[u8], at: usize) -> Result<usize, Refusal>
    requires { length octets.now ≤ packet_limit }
    ensures { EdgeTaken octets.now at result }
{
    let gap = (8 - at % 8) % 8;
    let item = at / 8;
    let (value, next) = bits(octets, item, at, gap)?;
    if value == 0 {
        Ok(next)
    } else {
        Err(Refusal::at(Reason::SpareBit, item))
    }
}
