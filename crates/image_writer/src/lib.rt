// Writes a receiving session as an image of version 02, as `image` defines it (rules 20.8 and 20.19).
#![tactic(auto)]

mod numbers;
mod rows;

ghost use Rattle.std.specs.Prelude.{◌≡◌, length};
ghost use Rattle.length.specs.Promise.{Puts};
ghost use Rattle.session_held.specs.Slots.{kept_octets, message_octets};
ghost use Rattle.session_held.specs.Table.{places, lent};
ghost use Rattle.image.specs.Layout.{version_written};
ghost use Rattle.image.specs.Image.{image_to_write};
ghost use Rattle.image.specs.Promise.{ImageWritten};

use image::Image;
use length::{Reason, Refusal};
use numbers::{put_first, put_rows};
use rows::rows_size;
use session_held::{Counts, Session};

// The session's image to the front of out: 17 if the session is outside its ranges, then 13 if the image is longer than out.
pub fn write(s: Session, out: &mut [u8]) -> Result<usize, Refusal>
    ensures { ImageWritten s out.old out.new result }
{
    let base = s.base;
    let counts = s.counts;
    let table = s.table;
    let octets = s.octets;
    let messages = s.messages;
    write_core(base, counts, &table, &octets, &messages, out)
}

// The same for a session in the caller's memory. Only callers inside this repository use it: it requires the lengths of the table and the
// stores.
pub fn write_core(
    base: u16,
    counts: Counts,
    table: &[u16],
    octets: &[u8],
    messages: &[u8],
    out: &mut [u8],
) -> Result<usize, Refusal>
    requires table_len { length table.now ≡ places }
    requires octets_len { length octets.now ≡ kept_octets }
    requires messages_len { length messages.now ≡ message_octets }
    ensures { Puts (image_to_write version_written (lent base counts table.now octets.now
        messages.now)) out.old out.new result }
{
    if !session_check::in_ranges(base, counts, table, octets, messages) {
        return Err(Refusal::new(Reason::OutsideRanges));
    }
    let size = 2 * Image::FIRST + 1 + rows_size(base, table);
    if out.len() < size {
        return Err(Refusal::new(Reason::NoRoom));
    }
    let first = put_first(base, counts, out, 0);
    let end = put_rows(base, table, octets, messages, out, first);
    Ok(end)
}
