// The lines of the program `calls` that need a session or the joiner (rules 25.15 to 25.34). The functions are proved to be safe and to
// terminate.
#![tactic(auto)]

mod image_calls;
mod joiner;
mod receiver;
mod send_calls;
mod session_lines;

use calls_lines::Out;
use frame::Joiner;
use sender::Sender;
use session_calls::Session;

// What the program holds: both sessions and the joiner (rule 25.2).
#[derive(Drop)]
#[derive(Clone, Copy)]
pub struct Held {
    pub receiver: Session,
    pub sender: Sender,
    pub joiner: Joiner,
}

impl Held {
    pub fn fresh() -> Held {
        Held {
            receiver: Session::fresh(),
            sender: Sender::fresh(),
            joiner: Joiner::fresh(),
        }
    }
}

// Makes the call of a line, by its group, and returns what the program holds after it.
pub fn answer(out: &mut Out, held: Held, call: u8, octets: &[u8], lent: &mut [u8]) -> Held {
    let mut r = held;
    match call {
        ..0x20 => r.receiver = receiver::answer(out, held.receiver, call, octets, lent),
        0x20..0x30 => r.sender = send_calls::answer(out, held.sender, call, octets, lent),
        _ => r.joiner = joiner::answer(out, held.joiner, call, octets, lent),
    }
    r
}

// 18: writes the receiving session as an image (rule 25.23).
pub fn write_image(out: &mut Out, held: Held, cap: usize) {
    image_calls::write(out, held.receiver, cap)
}
