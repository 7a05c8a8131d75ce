// The next datagram. The room is tested first, so that a refusal writes nothing (rule 2.33); then each item goes into the rest of
// the buffer behind the one before (rule 30.3).
ghost use Rattle.length.specs.Answers.{done};
ghost use Rattle.length.specs.Promise.{Puts, Put};
ghost use Rattle.datagram.specs.Write.{datagram_octets};
ghost use Rattle.sender.specs.Inner.Next.{carried_in, NextSizes, NextSize, NextAsked, NextRoom};

use crate::slots::History;
use datagram::Kind;
use length::{Reason, Refusal};

impl<'a> History<'a> {
    // How many octets the datagram takes.
    fn next_size(self, packet: &[u8], kind: Kind, count: usize) -> usize
        requires { NextSizes self.sizes.now packet.now kind count }
        ensures { NextSize self.entry.number self.entry.sizes.now packet.now kind count result }
    {
        let newest = datagram_writer::item_size(packet.len());
        let before = datagram_writer::kind_size(kind, count);
        let items = self.items_size(kind, count);
        2 + newest + before + items
    }

    // Writes the datagram to a buffer that has room for it.
    fn put_next(self, packet: &[u8], kind: Kind, count: usize, out: &mut [u8]) -> usize
        requires { NextRoom self.number self.sizes.now self.octets.now packet.now kind count out.old }
        ensures { Put (datagram_octets (carried_in self.entry.number self.entry.sizes.now self.entry.octets.now packet.now kind count))
            out.old out.new result }
    {
        let at = datagram_writer::put_front(self.number, packet, kind, count, out);
        at + self.put_items(kind, count, &mut out[at..])
    }

    // Writes the datagram, or refuses 13 if the buffer is too short (rule 15.8).
    pub fn write_next(
        self,
        packet: &[u8],
        kind: Kind,
        count: usize,
        out: &mut [u8],
    ) -> Result<usize, Refusal>
        requires { NextAsked self.sizes.now self.octets.now packet.now kind count }
        ensures { Puts (done (datagram_octets (carried_in self.entry.number self.entry.sizes.now self.entry.octets.now
            packet.now kind count))) out.old out.new result }
    {
        let size = self.next_size(packet, kind, count);
        if out.len() < size {
            return Err(Refusal::new(Reason::NoRoom));
        }
        let written = self.put_next(packet, kind, count, out);
        Ok(written)
    }
}
