// Answers encoded as numbers (rules 24.1, 24.2, 24.8 and 24.10).
ghost use Rattle.std.specs.Prelude.{◌≡◌};
ghost use Rattle.session_held.specs.Table.{state_of};
ghost use Rattle.line.specs.Lines.{kind_octet};
ghost use Rattle.host_answers.specs.Answers.{OfferedTold, ReleasedTold, WrittenTold};

use length::Refusal;
use session_held::ReleaseKind;
use session_release::Released;

// 0, or the refusal's number and place (rules 24.1 and 24.2).
#[repr(C)]
#[derive(Drop)]
pub struct Answered {
    pub refusal: u8,
    pub place: usize,
}

// The answer of a call that writes to the caller's buffer: 0 and how many octets it wrote, or the refusal's number and place (rule 24.10).
#[repr(C)]
#[derive(Drop)]
pub struct Wrote {
    pub refusal: u8,
    pub place: usize,
    pub size: usize,
}

// The answer of a release: 0, or the refusal's number and place; the kind of the number that left, as in the program's lines, the number,
// its note and the size of its packet. With a refusal these four are 0 (rules 24.8 and 24.17).
#[repr(C)]
#[derive(Drop)]
pub struct Number {
    pub refusal: u8,
    pub kind: u8,
    pub number: u16,
    pub note: u16,
    pub place: usize,
    pub size: usize,
}

// The answer of an offer.
pub fn offered_told(answer: Result<(), Refusal>) -> Answered
    ensures { OfferedTold answer result }
{
    match answer {
        Ok(()) => Answered {
            refusal: 0,
            place: 0,
        },
        Err(why) => Answered {
            refusal: why.number(),
            place: why.place,
        },
    }
}

// The kind of a number that left, as an octet (rule 24.8).
fn kind_told(kind: ReleaseKind) -> u8
    ensures { result ≡ kind_octet (state_of kind) }
{
    match kind {
        ReleaseKind::Received => 0,
        ReleaseKind::Spare => 1,
        ReleaseKind::Repaired => 2,
        ReleaseKind::Lost => 3,
    }
}

// The answer of a release.
pub fn number_told(answer: Result<Released, Refusal>) -> Number
    ensures { ReleasedTold answer result }
{
    match answer {
        Ok(left) => Number {
            refusal: 0,
            kind: kind_told(left.kind),
            number: left.number,
            note: left.note,
            place: 0,
            size: left.size,
        },
        Err(why) => Number {
            refusal: why.number(),
            kind: 0,
            number: 0,
            note: 0,
            place: why.place,
            size: 0,
        },
    }
}

// The answer of a call that writes.
pub fn written_told(answer: Result<usize, Refusal>) -> Wrote
    ensures { WrittenTold answer result }
{
    match answer {
        Ok(size) => Wrote {
            refusal: 0,
            place: 0,
            size,
        },
        Err(why) => Wrote {
            refusal: why.number(),
            place: why.place,
            size: 0,
        },
    }
}
