// A value of an ENUMERATED type of the ASN.1, from any bit on: the bit for extension where there is an extension mark, then one of the
// values before the mark or one of those added after it (rules 6.2, 6.3 and 7.5 to 7.8). A refusal is that of the whole packet, at the
// octet at which the item begins (rule 2.27).

ghost use Rattle.packet_laws.specs.Octets.{Narrow};
ghost use Rattle.packet_reader.specs.Items.{NearPacket, PlainTold, RootTold, AddedTold, ValueTold};

use crate::places::{bit, bits};
use length::{Reason, Refusal};
use packet::Enumerated;

// How many bits an added value takes, behind the bit for extension and a bit that is 0 (rule 7.5).
const ADDED_WIDTH: usize = 6;

// One of those before the extension mark (rule 6.3), and the place after it.
fn read_root(octets: &[u8], item: usize, p: usize, e: Enumerated) -> Result<(u8, usize), Refusal>
    requires near_packet { NearPacket 3 octets.now p }
    requires narrow { Narrow e }
    ensures { RootTold e item octets.now p result }
{
    let all = 8 * octets.len();
    let next = p + e.width;
    if all < next {
        return Err(Refusal::at(Reason::EndsEarly, item));
    }
    let value = bits(octets, e.width, p);
    if value < e.assigned {
        Ok((value as u8, next))
    } else {
        Err(Refusal::at(Reason::NotAssigned, item))
    }
}

// One of those added after it (rules 7.5 to 7.8), and the place after it.
fn read_added(octets: &[u8], item: usize, p: usize, e: Enumerated) -> Result<(u8, usize), Refusal>
    requires near_packet { NearPacket 3 octets.now p }
    requires narrow { Narrow e }
    ensures { AddedTold e item octets.now p result }
{
    if e.added < 1 || bit(octets, p) {
        return Err(Refusal::at(Reason::NotAssigned, item));
    }
    let all = 8 * octets.len();
    let start = p + 1;
    let next = start + ADDED_WIDTH;
    if all < next {
        return Err(Refusal::at(Reason::EndsEarly, item));
    }
    let index = bits(octets, ADDED_WIDTH, start);
    if index < e.added {
        let value = e.assigned + index;
        Ok((value as u8, next))
    } else {
        Err(Refusal::at(Reason::NotAssigned, item))
    }
}

// A value of the item that begins at the octet `item`, and the place after it.
pub fn read_value(
    octets: &[u8],
    item: usize,
    p: usize,
    e: Enumerated,
) -> Result<(u8, usize), Refusal>
    requires near_packet { NearPacket 2 octets.now p }
    requires narrow { Narrow e }
    ensures { ValueTold e item octets.now p result }
{
    if !e.extensible {
        read_root(octets, item, p, e)
    } else if bit(octets, p) {
        read_added(octets, item, p + 1, e)
    } else {
        read_root(octets, item, p + 1, e)
    }
}

// How many bits a value before the extension mark takes, with the bit for extension where there is a mark. Read in one step they are the
// value, since that bit is 0.
pub fn plain_width(e: Enumerated) -> usize
    requires { Narrow e }
    ensures { PlainTold e result }
{
    if e.extensible { e.width + 1 } else { e.width }
}
