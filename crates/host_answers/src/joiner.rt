// A joiner's answers encoded as numbers. In the caller's memory `tainted` is an octet, 0 or 1 (rule 24.6): a bool there could hold a
// value that is neither.
ghost use Rattle.std.specs.Prelude.{◌≡◌, ltb};
ghost use Rattle.host_answers.specs.Joiner.{flag_of, outside, FrameTold};

use frame::Handed;
use length::{Reason, Refusal};

// Whether a joiner is tainted, 0 or 1, and the size of its open frame.
#[repr(C)]
#[derive(Drop)]
pub struct JoinerHead {
    pub tainted: u8,
    pub size: u16,
}

// What a joiner returns: 0 nothing, 1 a good frame, 2 a bad frame (rule 24.8), and its size. Or the refusal's number; all else is then 0.
#[repr(C)]
#[derive(Drop)]
pub struct HandedFrame {
    pub refusal: u8,
    pub kind: u8,
    pub size: usize,
}

// What a call on a joiner returns: `tainted` and `size` after it, and the answer.
#[repr(C)]
#[derive(Drop)]
pub struct AfterField {
    pub head: JoinerHead,
    pub frame: HandedFrame,
}

// Whether an octet is neither 0 nor 1 (rule 24.6).
pub fn no_flag(tainted: u8) -> bool
    ensures { result ≡ ltb 1 tainted }
{
    1 < tainted
}

// Whether a joiner is tainted, as an octet.
pub fn flag(tainted: bool) -> u8
    ensures { result ≡ flag_of tainted }
{
    u8::from(tainted)
}

// The answer to a field or a lost number.
pub fn frame_told(answer: Result<Handed, Refusal>) -> HandedFrame
    ensures { FrameTold answer result }
{
    match answer {
        Ok(Handed::Nothing) => HandedFrame {
            refusal: 0,
            kind: 0,
            size: 0,
        },
        Ok(Handed::Good(size)) => HandedFrame {
            refusal: 0,
            kind: 1,
            size,
        },
        Ok(Handed::Bad(size)) => HandedFrame {
            refusal: 0,
            kind: 2,
            size,
        },
        Err(why) => HandedFrame {
            refusal: why.number(),
            kind: 0,
            size: 0,
        },
    }
}

// 17 for an octet that is neither 0 nor 1, with the joiner unchanged (rule 24.6).
pub fn no_joiner(tainted: u8, size: u16) -> AfterField
    ensures { result ≡ outside tainted size }
{
    AfterField {
        head: JoinerHead { tainted, size },
        frame: HandedFrame {
            refusal: Reason::OutsideRanges.number(),
            kind: 0,
            size: 0,
        },
    }
}
