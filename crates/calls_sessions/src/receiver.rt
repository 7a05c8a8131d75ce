// Lines 10 to 17, 19 and 1A, on the receiving session (rules 25.15 to 25.22, 25.24 and 25.25).
use crate::image_calls::restored;
use crate::session_lines::{gone_on, overwritten, say_counts, say_view};
use calls_lines::{
    Arguments, Out, fits, row_of, say, say_all, say_done, say_no_call, say_refused, target_of,
};
use length::Refusal;
use session_calls::{ReleaseKind, Released, Session};

// 11: offers a datagram (rule 25.16).
fn offer(out: &mut Out, session: Session, octets: &[u8]) -> Session {
    let after = session_calls::offer(session, octets);
    match after.answer {
        Ok(()) => say(out, 0, 1),
        Err(why) => say_refused(out, why),
    }
    after.session
}

// The kind of a number that left, as the octet of a line (rule 25.17).
fn kind_octet(kind: ReleaseKind) -> usize {
    match kind {
        ReleaseKind::Received => 0,
        ReleaseKind::Spare => 1,
        ReleaseKind::Repaired => 2,
        ReleaseKind::Lost => 3,
    }
}

fn say_released(out: &mut Out, answer: Result<Released, Refusal>) {
    match answer {
        Err(why) => say_refused(out, why),
        Ok(left) => {
            say_done(out, kind_octet(left.kind), 1);
            say(out, u32::from(left.number), 2);
            say(out, u32::from(left.note), 2);
            say(out, (left.size % 65536) as u32, 2);
        }
    }
}

// 12: releases a number, with leave to skip or without (rule 25.17).
fn release(out: &mut Out, session: Session, octets: &[u8], lent: &mut [u8]) -> Session {
    let leave = Arguments::of(octets).octet();
    if 1 < leave {
        say_no_call(out);
        return session;
    }
    let after = session_calls::release(session, leave == 1, lent);
    say_released(out, after.answer);
    say_all(out, lent);
    after.session
}

// More than 1,000,000 times are as 1,000,000: skips and sends past them are refused (rules 25.21 and 25.28).
pub fn at_most(times: u32) -> u32 {
    times.min(1000000)
}

// What a session keeps is the same every 64 times from 64 on, so these fewer times give what `times` give.
pub fn around(times: u32) -> u32 {
    if times < 128 { times } else { 64 + times % 64 }
}

// 16: a fresh session after `times` skips (rule 25.21).
fn many(out: &mut Out, times: u32) -> Session {
    let mut session = Session::fresh();
    for _ in 0..around(times) {
        session = session_calls::release(session, true, &mut []).session;
    }
    say(out, 0, 1);
    gone_on(session, times)
}

// 17: overwrites one field, as a caller could (rule 25.22).
fn overwrite(out: &mut Out, session: Session, octets: &[u8]) -> Session {
    let t = target_of(octets);
    let row = row_of(0x1700 + u16::from(t.field));
    if fits(row, session.base, t) {
        say(out, 0, 1);
        return overwritten(session, t);
    }
    say_no_call(out);
    session
}

// 1A: solves (rule 25.25).
fn solve(out: &mut Out, session: Session) -> Session {
    let after = session_calls::solve(session);
    match after.answer {
        Ok(()) => say(out, 0, 1),
        Err(why) => say_refused(out, why),
    }
    after.session
}

pub fn answer(
    out: &mut Out,
    session: Session,
    call: u8,
    octets: &[u8],
    lent: &mut [u8],
) -> Session {
    match call {
        0x10 => {
            say(out, 0, 1);
            Session::fresh()
        }
        0x11 => offer(out, session, octets),
        0x12 => release(out, session, octets, lent),
        0x14 => {
            say_counts(out, session);
            session
        }
        0x15 => {
            say_view(out, session);
            session
        }
        0x16 => many(out, at_most(Arguments::of(octets).number(4))),
        0x19 => restored(out, session, octets),
        0x1A => solve(out, session),
        _ => overwrite(out, session, octets),
    }
}
