// Result lines, each ended by a line feed: kind, number and octets (rule 18.5), or for a refusal `FF`, number and place (rule 18.6). Each
// function writes its line to out from place `at` on, and returns the place after it.
ghost use Rattle.std.specs.Prelude.{◌≡◌, [], ◌∷◌, ◌+◌, ◌*◌, ◌/◌, ◌%◌, ◌≤◌, length};
ghost use Rattle.datagram.specs.Sizes.{packet_limit};
ghost use Rattle.session_slots.specs.Store.{HasSlot, part};
ghost use Rattle.session_held.specs.Slots.{slots_kept};
ghost use Rattle.session_held.specs.Table.{state_of};
ghost use Rattle.line.specs.Lines.{line_feed, kind_octet, result_line, refusal_line};
ghost use Rattle.line.specs.Promise.{Appends};

use datagram::Packet;
use length::Refusal;
use line::Line;
use line_hex::put_digits;
use session_held::ReleaseKind;

// The kind of a number that left.
pub fn kind_octet(kind: ReleaseKind) -> u8
    ensures { result ≡ kind_octet (state_of kind) }
{
    match kind {
        ReleaseKind::Received => 0,
        ReleaseKind::Spare => 1,
        ReleaseKind::Repaired => 2,
        ReleaseKind::Lost => Line::LOST,
    }
}

// A line feed at a place.
fn end_line(out: &mut [u8], at: usize) -> usize
    requires { at + 1 ≤ length out.old }
    ensures { Appends (line_feed ∷ []) out.old at out.new result }
{
    out[at] = Line::FEED;
    at + 1
}

fn put_result(kind: u8, number: u16, octets: &[u8], out: &mut [u8], at: usize) -> usize
    requires { at + (7 + 2 * length octets.now) ≤ length out.old }
    ensures { Appends (result_line kind number octets.now) out.old at out.new result }
{
    let [high, low] = number.to_be_bytes();
    let middle = put_digits(&[kind, high, low], out, at);
    let end = put_digits(octets, out, middle);
    end_line(out, end)
}

// The result line of a number that left; its packet of this size is read from its slot.
pub fn put_kept(
    kind: u8,
    number: u16,
    size: usize,
    octets: &[u8],
    out: &mut [u8],
    at: usize,
) -> usize
    requires has_slot { HasSlot (number % slots_kept) octets.now }
    requires size_le_packet_limit { size ≤ packet_limit }
    requires size_in_bounds { at + (7 + 2 * size) ≤ length out.old }
    ensures { Appends (result_line kind number (part octets.now (number % slots_kept) size)) out.old at
        out.new result }
{
    let slot = session_held::kept_slot(number);
    let from = slot * Packet::LIMIT;
    let to = from + size;
    put_result(kind, number, &octets[from..to], out, at)
}

pub fn put_refusal(why: Refusal, out: &mut [u8], at: usize) -> usize
    requires { at + 9 ≤ length out.old }
    ensures { Appends (refusal_line why) out.old at out.new result }
{
    let number = why.number();
    let place = why.place;
    let high = (place / 256 % 256) as u8;
    let low = (place % 256) as u8;
    let octets = [255, number, high, low];
    let end = put_digits(&octets, out, at);
    end_line(out, end)
}
