// Spares and messages made from the history (rules 4.5, 4.12 to 4.14). The size of each is computed first, so that the room is
// known before anything is written (rule 2.33).
ghost use Rattle.std.specs.Prelude.{◌≡◌, suc, ◌-◌, ◌<◌, ◌≤◌, max, true, length};
ghost use Rattle.length.specs.Promise.{Put};
ghost use Rattle.datagram.specs.Sizes.{packet_limit};
ghost use Rattle.datagram.specs.Write.{count_inside, item_octets, items_octets};
ghost use Rattle.sender.specs.Sending.{history_kept};
ghost use Rattle.sender.specs.Sender.{history_octets, history_slot};
ghost use Rattle.sender.specs.Inner.Held.{Sizes};
ghost use Rattle.sender.specs.Inner.Items.{Reach, parity_in, MessageSize, MessageSum, MessageAsked, spare_in, SpareSize, SpareAsked};
ghost use Rattle.sender.specs.Inner.Items.{items_in, item_in, ItemOf, ItemSize, ItemAsked, ItemsSize, ItemsAsked};

use crate::slots::{History, size_in, slot_of};
use datagram::{Kind, Packet};

// The slot of the spare after j others, which is packet S − 1 − j.
fn spare_slot(number: u16, j: usize) -> usize
    requires { j < history_kept }
    ensures { result ≡ history_slot number (history_kept - suc j) }
{
    let back = j + 1;
    slot_of(number.wrapping_sub(back as u16))
}

impl<'a> History<'a> {
    // ---- messages: each member's number is m less than the one before it, modulo 65,536 (rules 2.35 and 4.12)

    fn message_size(self, n: usize, m: usize, i: usize) -> usize
        requires { (Sizes self.sizes.now) × (Reach n m i) }
        ensures { MessageSize self.entry.number self.entry.sizes.now n m i result }
    {
        let mut at = self.number.wrapping_add(i as u16);
        let mut size = 0;
        for _ in 0..n {
            at = at.wrapping_sub(m as u16);
            size = size_in(self.sizes, slot_of(at)).max(size);
        }
        size
    }

    // The exclusive or of the members over a size, at the front of the result (rule 4.13).
    fn message_sum(self, n: usize, m: usize, i: usize, size: usize) -> [u8; Packet::LIMIT]
        requires octets_len { (length self.octets.now ≡ history_octets) × (Reach n m i) }
        requires size_le_packet_limit { size ≤ packet_limit }
        ensures { MessageSum self.entry.number self.entry.octets.now n m i size result }
    {
        let mut member = self.number.wrapping_add(i as u16);
        let mut sum = [0; Packet::LIMIT];
        for _ in 0..n {
            member = member.wrapping_sub(m as u16);
            session_slots::add(self.octets, slot_of(member), &mut sum[..size]);
        }
        sum
    }

    fn put_message(self, n: usize, m: usize, i: usize, out: &mut [u8]) -> usize
        requires { MessageAsked self.number self.sizes.now self.octets.now n m i out.old }
        ensures { Put (item_octets (parity_in self.entry.number self.entry.sizes.now self.entry.octets.now n m i)) out.old
            out.new result }
    {
        let size = self.message_size(n, m, i);
        let sum = self.message_sum(n, m, i, size);
        datagram_writer::put_item(&sum[..size], out)
    }

    // ---- spares: the newest first (rule 4.5)

    fn spare_size(self, j: usize) -> usize
        requires { (Sizes self.sizes.now) × (j < history_kept) }
        ensures { SpareSize self.entry.number self.entry.sizes.now j result }
    {
        size_in(self.sizes, spare_slot(self.number, j))
    }

    fn put_spare(self, j: usize, out: &mut [u8]) -> usize
        requires { SpareAsked self.number self.sizes.now self.octets.now j out.old }
        ensures { Put (item_octets (spare_in self.entry.number self.entry.sizes.now self.entry.octets.now j)) out.old out.new result }
    {
        let slot = spare_slot(self.number, j);
        let size = self.spare_size(j);
        let from = slot * Packet::LIMIT;
        let to = from + size;
        datagram_writer::put_item(&self.octets[from..to], out)
    }

    // ---- spares or messages

    fn one_size(self, kind: Kind, count: usize, j: usize) -> usize
        requires { (Sizes self.sizes.now) × (ItemOf kind count j) }
        ensures { ItemSize kind count self.entry.number self.entry.sizes.now j result }
    {
        match kind {
            Kind::Spares => self.spare_size(j),
            Kind::Parity(n) => self.message_size(n, count, j),
        }
    }

    fn put_one(self, kind: Kind, count: usize, j: usize, out: &mut [u8]) -> usize
        requires { ItemAsked kind count self.number self.sizes.now self.octets.now j out.old }
        ensures { Put (item_octets (item_in kind count self.entry.number self.entry.sizes.now self.entry.octets.now j)) out.old
            out.new result }
    {
        match kind {
            Kind::Spares => self.put_spare(j, out),
            Kind::Parity(n) => self.put_message(n, count, j, out),
        }
    }

    // How many octets the spares or messages take, each with its length.
    pub(crate) fn items_size(self, kind: Kind, count: usize) -> usize
        requires { (Sizes self.sizes.now) × (count_inside kind count ≡ true) }
        ensures { ItemsSize kind count self.entry.number self.entry.sizes.now result }
    {
        let mut size = 0;
        for j in 0..count {
            size += datagram_writer::item_size(self.one_size(kind, count, j));
        }
        size
    }

    // Writes the spares or messages, each into the rest of the buffer behind the one before (rule 30.3).
    pub(crate) fn put_items(self, kind: Kind, count: usize, out: &mut [u8]) -> usize
        requires { ItemsAsked kind count self.number self.sizes.now self.octets.now out.old }
        ensures { Put (items_octets (items_in kind count self.entry.number self.entry.sizes.now self.entry.octets.now)) out.old
            out.new result }
    {
        let mut at = 0;
        for j in 0..count {
            at += self.put_one(kind, count, j, &mut out[at..]);
        }
        at
    }
}
