// What a joiner is (rules 16.1 to 16.19). It is fed one field or one lost number at a time, and returns the sender's whole HDLC frames.
#![tactic(auto)]

ghost use Rattle.std.specs.Prelude.{◌≡◌};
ghost use Rattle.frame.specs.Frame.{frame_limit};
ghost use Rattle.frame.specs.Promise.{FreshMade};

use length::Refusal;

// What a joiner keeps: whether it is tainted, and the size and octets of the open frame. Octets past the size are zero (rule 16.16).
// The fields are those of C's `tbx_joiner`, which may hold any flag and any size.
#[derive(Drop)]
#[derive(Clone, Copy)]
pub struct Joiner {
    pub tainted: bool,
    pub size: u16,
    pub frame: [u8; Joiner::LIMIT],
}

// What a call returns: nothing, or the size of a good or a bad frame, which is at the front of the caller's buffer. There are three cases:
// an Option of a size would need a flag for good or bad beside it.
#[derive(Drop)]
pub enum Handed {
    Nothing,
    Good(usize),
    Bad(usize),
}

// What a call returns or why it is refused, and the joiner after it.
#[derive(Drop)]
pub struct Joined {
    pub joiner: Joiner,
    pub answer: Result<Handed, Refusal>,
}

impl Joiner {
    // The most octets that a frame may have (rule 1.12).
    pub const LIMIT: usize = 300;

    pub fn limit() -> usize
        ensures { result ≡ frame_limit }
    {
        Joiner::LIMIT
    }

    // A fresh joiner has an open frame of no octets (rule 16.1).
    pub fn fresh() -> Joiner
        ensures { FreshMade result }
    {
        Joiner {
            tainted: false,
            size: 0,
            frame: [0; Joiner::LIMIT],
        }
    }
}
