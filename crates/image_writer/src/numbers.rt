// The lines of an image, in upper-case hexadecimal (rules 20.1 to 20.6). Each function writes its text to out from a place on, and returns
// the place after it.
ghost use Rattle.std.specs.Prelude.{◌≡◌, [], ◌∷◌, ◌≤◌, ◌<◌, length};
ghost use Rattle.datagram.specs.Sizes.{packet_limit, messages_limit};
ghost use Rattle.datagram.specs.Write.{item_octets};
ghost use Rattle.session_slots.specs.Store.{HasSlot, part};
ghost use Rattle.session_held.specs.Slots.{slots_heard, kept_octets, message_octets};
ghost use Rattle.line.specs.Hex.{hex_of};
ghost use Rattle.line.specs.Lines.{line_feed};
ghost use Rattle.line.specs.Promise.{Appends};
ghost use Rattle.image.specs.Parts.{high_first_octets};
ghost use Rattle.image.specs.Layout.{version_written};
ghost use Rattle.image_writer.specs.Rows.{Room, TableFits, RowFits, kept_text, messages_text, row_text, rows_text, first_text};

use crate::rows::{Row, row_at};
use datagram::{Packet, Parity};
use image::Image;
use line::Line;
use line_hex::put_digits;
use session_held::{Counts, Session};

// A line feed.
fn end_line(out: &mut [u8], at: usize) -> usize
    requires { Room (line_feed ∷ []) out.old at }
    ensures { Appends (line_feed ∷ []) out.old at out.new result }
{
    out[at] = Line::FEED;
    at + 1
}

// A count: four octets, the high one first.
fn put_count(count: u32, out: &mut [u8], at: usize) -> usize
    requires { Room (hex_of (high_first_octets 4 count)) out.old at }
    ensures { Appends (hex_of (high_first_octets 4 count)) out.old at out.new result }
{
    let first = (count / 256 / 256 / 256 % 256) as u8;
    let second = (count / 256 / 256 % 256) as u8;
    let third = (count / 256 % 256) as u8;
    let fourth = (count % 256) as u8;
    let octets = [first, second, third, fourth];
    put_digits(&octets, out, at)
}

// The first line: version, base and counts.
pub fn put_first(base: u16, counts: Counts, out: &mut [u8], at: usize) -> usize
    requires { Room (first_text version_written.octet base counts) out.old at }
    ensures { Appends (first_text version_written.octet base counts) out.old at out.new result }
{
    let high = (base / 256 % 256) as u8;
    let low = (base % 256) as u8;
    let front = [Image::EDITION, high, low];
    let one = put_digits(&front, out, at);
    let two = put_count(counts.received, out, one);
    let three = put_count(counts.spare, out, two);
    let four = put_count(counts.repaired, out, three);
    let end = put_count(counts.lost, out, four);
    end_line(out, end)
}

// A packet or message with its length, read from its slot.
fn put_item(store: &[u8], slot: usize, size: usize, out: &mut [u8], at: usize) -> usize
    requires has_slot { HasSlot slot store.now }
    requires size_le_packet_limit { size ≤ packet_limit }
    requires room { Room (hex_of (item_octets (part store.now slot size))) out.old at }
    ensures { Appends (hex_of (item_octets (part store.now slot size))) out.old at out.new result }
{
    let from = slot * Packet::LIMIT;
    let to = from + size;
    let mut octets = [0u8; Image::ITEM];
    let count = datagram_writer::put_item(&store[from..to], &mut octets);
    put_digits(&octets[..count], out, at)
}

// State, accepted octet, note and packet.
fn put_kept(table: &[u16], octets: &[u8], row: Row, out: &mut [u8], at: usize) -> usize
    requires table_fits { TableFits table.now }
    requires octets_len { length octets.now ≡ kept_octets }
    requires row_fits { RowFits row }
    requires room { Room (kept_text table.now octets.now row) out.old at }
    ensures { Appends (kept_text table.now octets.now row) out.old at out.new result }
{
    let slot = row.slot;
    let state = (session_held::state_at(table, slot) % 256) as u8;
    let mark = row.accepted as u8;
    let note = session_held::note_at(table, slot);
    let high = (note / 256 % 256) as u8;
    let low = (note % 256) as u8;
    let front = [state, mark, high, low];
    let next = put_digits(&front, out, at);
    let size = session_held::size_at(table, slot);
    put_item(octets, slot, size, out, next)
}

// The first m messages of a slot.
fn put_messages(
    table: &[u16],
    messages: &[u8],
    heard: usize,
    m: usize,
    out: &mut [u8],
    at: usize,
) -> usize
    requires table_fits { TableFits table.now }
    requires messages_len { length messages.now ≡ message_octets }
    requires heard_lt_slots_heard { heard < slots_heard }
    requires m_le_messages_limit { m ≤ messages_limit }
    requires room { Room (messages_text table.now messages.now heard m) out.old at }
    ensures { Appends (messages_text table.now messages.now heard m) out.old at out.new result }
{
    let mut end = at;
    for i in 0..m {
        let slot = heard * Parity::MESSAGES + i;
        let size = session_held::message_size_at(table, slot);
        end = put_item(messages, slot, size, out, end);
    }
    end
}

// The line of a number.
fn put_row(
    table: &[u16],
    octets: &[u8],
    messages: &[u8],
    row: Row,
    out: &mut [u8],
    at: usize,
) -> usize
    requires table_fits { TableFits table.now }
    requires octets_len { length octets.now ≡ kept_octets }
    requires messages_len { length messages.now ≡ message_octets }
    requires row_fits { RowFits row }
    requires room { Room (row_text table.now octets.now messages.now row) out.old at }
    ensures { Appends (row_text table.now octets.now messages.now row) out.old at
        out.new result }
{
    let one = put_kept(table, octets, row, out, at);
    let n = (row.n % 256) as u8;
    let m = (row.m % 256) as u8;
    let counts = [n, m];
    let two = put_digits(&counts, out, one);
    let end = put_messages(table, messages, row.heard, row.m, out, two);
    end_line(out, end)
}

// The 64 lines of the kept numbers, from 32 before the base upward (rule 20.3).
pub fn put_rows(
    base: u16,
    table: &[u16],
    octets: &[u8],
    messages: &[u8],
    out: &mut [u8],
    at: usize,
) -> usize
    requires table_fits { TableFits table.now }
    requires octets_len { length octets.now ≡ kept_octets }
    requires messages_len { length messages.now ≡ message_octets }
    requires room { Room (rows_text base table.now octets.now messages.now) out.old at }
    ensures { Appends (rows_text base table.now octets.now messages.now) out.old at
        out.new result }
{
    let mut end = at;
    for p in 0..Session::KEPT {
        let row = row_at(base, table, p);
        end = put_row(table, octets, messages, row, out, end);
    }
    end
}
