// What the table holds of the number at a place of the view, and how many characters its line has.
ghost use Rattle.std.specs.Prelude.{◌*◌, ◌≤◌, ◌<◌};
ghost use Rattle.datagram.specs.Sizes.{packet_limit, messages_limit};
ghost use Rattle.session_held.specs.Slots.{slots_kept, slots_heard};
ghost use Rattle.image.specs.Image.{line_size, longest_item, number_line_limit};
ghost use Rattle.image_writer.specs.Rows.{TableFits, RowFits, ImageRowTold, SizeWithin, messages_size, row_size, rows_size};

use datagram::Parity;
use datagram_writer::item_size;
use session_held::Session;

// The slot of a kept number; for a number from the base on also its slot for accepted mark, n and m, and these three.
#[derive(Drop)]
#[derive(Clone, Copy)]
pub struct Row {
    pub slot: usize,
    pub heard: usize,
    pub accepted: bool,
    pub n: usize,
    pub m: usize,
}

// Place p of the view is the number base - 32 + p.
pub fn row_at(base: u16, table: &[u16], p: usize) -> Row
    requires table_fits { TableFits table.now }
    requires p_lt_slots_kept { p < slots_kept }
    ensures { ImageRowTold base table.now p result }
{
    let base = base as usize;
    let slot = (base + Session::BEFORE + p) % Session::KEPT;
    if p < Session::BEFORE {
        return Row {
            slot,
            heard: 0,
            accepted: false,
            n: 0,
            m: 0,
        };
    }
    let heard = (base + (p - Session::BEFORE)) % Session::HEARD;
    let accepted = session_held::accepted_at(table, heard);
    let n = session_held::n_at(table, heard);
    let m = session_held::m_at(table, heard);
    Row {
        slot,
        heard,
        accepted,
        n,
        m,
    }
}

// The characters of the first m messages of a slot, with their lengths.
fn messages_size(table: &[u16], heard: usize, m: usize) -> usize
    requires table_fits { TableFits table.now }
    requires heard_lt_slots_heard { heard < slots_heard }
    requires m_le_messages_limit { m ≤ messages_limit }
    ensures { SizeWithin (messages_size table.now heard m) (messages_limit * (2 * longest_item packet_limit)) result }
{
    let mut size = 0;
    for i in 0..m {
        let octets = session_held::message_size_at(table, heard * Parity::MESSAGES + i);
        size += 2 * item_size(octets);
    }
    size
}

// The characters of a line: state, accepted octet, note, n and m are six octets.
fn row_size(table: &[u16], row: Row) -> usize
    requires table_fits { TableFits table.now }
    requires row_fits { RowFits row }
    ensures { SizeWithin (row_size table.now row) (line_size (number_line_limit packet_limit)) result }
{
    let slot = row.slot;
    let octets = session_held::size_at(table, slot);
    let packet = item_size(octets);
    let messages = messages_size(table, row.heard, row.m);
    2 * (6 + packet) + 1 + messages
}

// The characters of all lines but the first.
pub fn rows_size(base: u16, table: &[u16]) -> usize
    requires { TableFits table.now }
    ensures { SizeWithin (rows_size base table.now) (slots_kept * line_size (number_line_limit packet_limit)) result }
{
    let mut size = 0;
    for p in 0..Session::KEPT {
        let row = row_at(base, table, p);
        size += row_size(table, row);
    }
    size
}
