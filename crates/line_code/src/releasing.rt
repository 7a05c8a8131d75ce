// Releases: one for an empty line, and those after each line until 10 or 16, for which no line is written (rules 18.1 to 18.4). One loop
// does them all, so the compiler inlines one release only. Base and counts are passed by value, the rest of the session and the buffer by
// reference. The functions require the session to be within its ranges, and keep it so.
ghost use Rattle.std.specs.Prelude.{◌+◌, ◌*◌, ◌≤◌};
ghost use Rattle.session.specs.Cells.{kept_ahead};
ghost use Rattle.session_held.specs.Table.{lent, view_in};
ghost use Rattle.line.specs.Promise.{Does, Able, ReleasesOne, result_limit};
ghost use Rattle.line_code.specs.Turns.{turns as all_turns};

use crate::results::{kind_octet, put_kept, put_refusal};
use datagram::Packet;
use line::Stepped;
use session_held::{Counts, Session};

// A release, and whether there was something to release. The other fields hold in either case, so `more` is a flag beside them.
#[derive(Drop)]
struct Turn {
    base: u16,
    counts: Counts,
    end: usize,
    more: bool,
}

// One release, with leave to skip or without: the number at the base is written as a line, its packet read from its slot. With leave a
// refusal is written too.
fn release(
    base: u16,
    counts: Counts,
    table: &mut [u16; Session::PLACES],
    octets: &mut [u8; Session::PACKET_OCTETS],
    messages: &mut [u8; Session::MESSAGE_OCTETS],
    skip: bool,
    out: &mut [u8],
    at: usize,
) -> Turn
    requires { Able result_limit (lent base counts table.old octets.old messages.old) out.old at }
    ensures { ReleasesOne skip (view_in (lent base counts table.old octets.old messages.old))
        out.old at (lent result.base result.counts table.new octets.new messages.new) result.end
        result.more out.new }
{
    let done = session_release::leave_core(
        base,
        counts,
        table,
        octets,
        messages,
        skip,
        Packet::LIMIT,
    );
    let after = done.base;
    let moved = done.counts;
    let answer = done.answer;
    match answer {
        Err(why) => {
            if skip {
                let told = put_refusal(why, out, at);
                return Turn {
                    base: after,
                    counts: moved,
                    end: told,
                    more: false,
                };
            }
            Turn {
                base: after,
                counts: moved,
                end: at,
                more: false,
            }
        }
        Ok(left) => {
            let octet = kind_octet(left.kind);
            let end = put_kept(octet, left.number, left.size, octets, out, at);
            Turn {
                base: after,
                counts: moved,
                end,
                more: true,
            }
        }
    }
}

// After as many releases as there are numbers from the base on, the base is unknown. If there is one turn more, the first has leave to
// skip. A turn without leave at an unknown base is the last one, which the loop checks before it calls release.
pub fn releases(
    base: u16,
    counts: Counts,
    table: &mut [u16; Session::PLACES],
    octets: &mut [u8; Session::PACKET_OCTETS],
    messages: &mut [u8; Session::MESSAGE_OCTETS],
    turns: usize,
    out: &mut [u8],
    at: usize,
) -> Stepped
    requires turns_bound { turns ≤ kept_ahead + 1 }
    requires able { Able (turns * result_limit) (lent base counts table.old octets.old messages.old) out.old at }
    ensures { Does (all_turns turns (view_in (lent base counts table.old octets.old messages.old)))
        out.old at (lent result.base result.counts table.new octets.new messages.new) result.end
        out.new }
{
    let mut now = base;
    let mut moves = counts;
    let mut end = at;
    for i in 0..turns {
        let skip = Session::HEARD < turns - i;
        let slot = session_held::kept_slot(now);
        let known = session_held::is_known(table, slot);
        if !known && !skip {
            break;
        }
        let turn = release(now, moves, table, octets, messages, skip, out, end);
        now = turn.base;
        moves = turn.counts;
        end = turn.end;
        if !turn.more {
            break;
        }
    }
    Stepped {
        base: now,
        counts: moves,
        end,
    }
}
