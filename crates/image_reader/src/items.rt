// The packet and the messages of a number's line, as parts of its octets, each with its length by the length rule, 0 allowed (rule 20.6).
// Whatever is wrong with one of them is 20 (rule 20.15), so no cause is returned.
ghost use Rattle.std.specs.Prelude.{◌≤◌, length};
ghost use Rattle.datagram.specs.Sizes.{messages_limit};
ghost use Rattle.image_reader.specs.Items.{ItemTold, ItemsTold};

use datagram::{Message, Parity, Part};

// Several of them, one after the other, and where the last one ends. Places past their count are empty. There is no heap, so
// the array has room for the most parts.
#[derive(Drop)]
pub struct Items {
    pub end: usize,
    pub parts: [Part; Parity::MESSAGES],
}

// A packet or message of at most `limit` octets: its length, then its octets.
pub fn item_at(s: &[u8], at: usize, limit: usize) -> Option<Part>
    requires { at ≤ length s.now }
    ensures { ItemTold limit s.now at result }
{
    let Ok(found) = length_code::read_within(&s[at..], Message::LEAST, limit) else {
        return None;
    };
    let start = at + found.size;
    if s.len() - start < found.value {
        return None;
    }
    Some(Part {
        start,
        size: found.value,
    })
}

// The messages, `count` of them.
pub fn items_at(s: &[u8], first: usize, count: usize, limit: usize) -> Option<Items>
    requires first_in_bounds { first ≤ length s.now }
    requires count_le_messages_limit { count ≤ messages_limit }
    ensures { ItemsTold limit s.now first count result }
{
    let nowhere = Part { start: 0, size: 0 };
    let mut parts = [nowhere; Parity::MESSAGES];
    let mut at = first;
    for i in 0..count {
        let part = item_at(s, at, limit)?;
        parts[i] = part;
        at = part.start + part.size;
    }
    Some(Items { end: at, parts })
}
