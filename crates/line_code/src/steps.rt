// One line of the program: its answer, then all releases. Base and counts are passed by value, the rest of the session and the buffers by
// reference, so that nothing is checked against the ranges or copied for each line. The functions require the session to be within its
// ranges, and keep it so.
ghost use Rattle.std.specs.Prelude.{◌≡◌, ◌+◌, ◌≤◌, length};
ghost use Rattle.session.specs.Offer.{offer};
ghost use Rattle.session_held.specs.Table.{lent, view_in};
ghost use Rattle.session_held.specs.Laid.{InRanges};
ghost use Rattle.line.specs.Lines.{offer_made, offer_line, step as whole_step};
ghost use Rattle.line.specs.Promise.{Does, Able, result_limit, step_limit};
ghost use Rattle.line_code.specs.Turns.{own_answer, turns_after};

use crate::releasing::releases;
use crate::results::put_refusal;
use datagram::Datagram;
use line::Stepped;
use line_hex::hex_to_octets;
use session_held::{Counts, Session};

// Offers octets: only a refusal is a line. Base and counts are unchanged.
fn offer_octets(
    base: u16,
    counts: Counts,
    table: &mut [u16; Session::PLACES],
    octets: &mut [u8; Session::PACKET_OCTETS],
    messages: &mut [u8; Session::MESSAGE_OCTETS],
    datagram: &[u8],
    out: &mut [u8],
    at: usize,
) -> usize
    requires in_ranges { InRanges (lent base counts table.old octets.old messages.old) }
    requires result_limit_in_bounds { at + result_limit ≤ length out.old }
    ensures { Does (offer_made (offer datagram.now
        (view_in (lent base counts table.old octets.old messages.old)))
        (view_in (lent base counts table.old octets.old messages.old))) out.old at
        (lent base counts table.new octets.new messages.new) result out.new }
{
    let answer = session_offer::offer_core(base, counts, table, octets, messages, datagram);
    match answer {
        Ok(()) => at,
        Err(why) => put_refusal(why, out, at),
    }
}

// Offers the octets of a line, which is one datagram (rule 18.1).
fn offer_line(
    base: u16,
    counts: Counts,
    table: &mut [u16; Session::PLACES],
    octets: &mut [u8; Session::PACKET_OCTETS],
    messages: &mut [u8; Session::MESSAGE_OCTETS],
    line: &[u8],
    out: &mut [u8],
    at: usize,
) -> usize
    requires { Able result_limit (lent base counts table.old octets.old messages.old) out.old at }
    ensures { Does (offer_line line.now (view_in (lent base counts table.old octets.old
        messages.old))) out.old at (lent base counts table.new octets.new messages.new)
        result out.new }
{
    let mut work = [0u8; Datagram::LIMIT];
    let read = hex_to_octets(line, &mut work);
    match read {
        Ok(size) => offer_octets(
            base,
            counts,
            table,
            octets,
            messages,
            &work[..size],
            out,
            at,
        ),
        Err(why) => put_refusal(why, out, at),
    }
}

// A line's own answer. An empty line has none: its first turn of releasing has leave to skip (rule 18.2).
fn own_answer(
    base: u16,
    counts: Counts,
    table: &mut [u16; Session::PLACES],
    octets: &mut [u8; Session::PACKET_OCTETS],
    messages: &mut [u8; Session::MESSAGE_OCTETS],
    line: &[u8],
    out: &mut [u8],
    at: usize,
) -> usize
    requires { Able result_limit (lent base counts table.old octets.old messages.old) out.old at }
    ensures { Does (own_answer line.now (view_in (lent base counts table.old octets.old
        messages.old))) out.old at (lent base counts table.new octets.new messages.new)
        result out.new }
{
    if line.is_empty() {
        at
    } else {
        offer_line(base, counts, table, octets, messages, line, out, at)
    }
}

// How many turns of releasing follow a line.
fn turns_after(line: &[u8]) -> usize
    ensures { result ≡ turns_after line.now }
{
    if line.is_empty() {
        Session::HEARD + 1
    } else {
        Session::HEARD
    }
}

// One line: its answer, then releases. An empty line is one release with leave to skip, then releases without leave (rule 18.2).
pub fn step(
    base: u16,
    counts: Counts,
    table: &mut [u16; Session::PLACES],
    octets: &mut [u8; Session::PACKET_OCTETS],
    messages: &mut [u8; Session::MESSAGE_OCTETS],
    line: &[u8],
    out: &mut [u8],
    at: usize,
) -> Stepped
    requires { Able step_limit (lent base counts table.old octets.old messages.old) out.old at }
    ensures { Does (whole_step line.now (view_in (lent base counts table.old octets.old
        messages.old))) out.old at (lent result.base result.counts table.new octets.new
        messages.new) result.end out.new }
{
    let end = own_answer(base, counts, table, octets, messages, line, out, at);
    let turns = turns_after(line);
    releases(base, counts, table, octets, messages, turns, out, end)
}
