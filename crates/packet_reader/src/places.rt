// Places in bits: a bit, the number in some bits, the octet edge at a place or after it (rules 5.1 and 5.3). No loop goes over bits.

ghost use Rattle.std.specs.Prelude.{◌≤◌};
ghost use Rattle.packet_reader.specs.Items.{InPacket, Power, OctetAt, BitTold, BitsTold, EdgeTold};

use length::{Reason, Refusal, wide};

// 2 to the power n.
pub fn power(n: usize) -> usize
    requires { n ≤ 8 }
    ensures { Power n result }
{
    1 << n
}

// One of `octets`, and zero past the last one.
fn octet_at(octets: &[u8], at: usize) -> usize
    ensures { OctetAt octets.now at result }
{
    if at < octets.len() {
        wide(octets[at])
    } else {
        0
    }
}

// Whether the bit at a place is set.
pub fn bit(octets: &[u8], p: usize) -> bool
    ensures { BitTold octets.now p result }
{
    let octet = octet_at(octets, p / 8);
    let below = 7 - p % 8;
    let front = octet >> below;
    0 < front % 2
}

// The number in n bits from a place on, from the two octets there, which hold them.
pub fn bits(octets: &[u8], n: usize, p: usize) -> usize
    requires { n ≤ 8 }
    ensures { BitsTold n octets.now p result }
{
    let at = p / 8;
    let high = octet_at(octets, at) * 256;
    let second = at + 1;
    let window = high + octet_at(octets, second);
    let last = p % 8 + n;
    let below = 16 - last;
    let front = window >> below;
    let values = power(n);
    front % values
}

// How many octets there are up to an octet edge, by zero bits; a bit set there is 5 (rules 5.3 to 5.5).
pub fn read_edge(octets: &[u8], p: usize) -> Result<usize, Refusal>
    requires { InPacket octets.now p }
    ensures { EdgeTold octets.now p result }
{
    let octet = octet_at(octets, p / 8);
    let gap = (8 - p % 8) % 8;
    let values = power(gap);
    if 0 < octet % values {
        return Err(Refusal::at(Reason::SpareBit, p / 8));
    }
    let end = p + 7;
    Ok(end / 8)
}
