// What a length or count is (rules 3.1 to 3.4). One definition serves packets, spares, messages and counts (rule 28.17). The refusal type
// is defined here too, below every crate that refuses.
#![tactic(auto)]

ghost use Rattle.length.specs.Promise.{Octet, RefusalMade, RefusalPlaced, RefusalTold};
ghost use Rattle.std.specs.Prelude.{◌≡◌, ◌+◌, ◌^◌, ◌<◌};
ghost use Rattle.length.specs.Refusals.{number_of, numbered, further as is_further};
ghost use Rattle.length.specs.Length.{two_from, length_limit};
ghost use Rattle.length.specs.Length.{within as is_within};

// Why a call is refused (rules 2.1 to 2.23). 11 is retired, and its number is not used again (rule 2.11); there is no refusal 19 (rule
// 2.19). A caller may make a refusal of any number, so one that the rules do not give is a reason too; no call here answers it.
#[derive(Drop)]
#[derive(Clone, Copy)]
pub enum Reason {
    EndsEarly,
    TooLong,
    BadForm,
    OutsideSizes,
    SpareBit,
    LeftOver,
    Repeated,
    TooFar,
    Late,
    BaseUnknown,
    NotAssigned,
    NoRoom,
    WrongData,
    WrongSettings,
    AllPassed,
    OutsideRanges,
    FrameTooLong,
    BadImage,
    OtherEdition,
    TooManyLines,
    NoSolution,
    Unassigned(u8),
}

impl Reason {
    // The number that callers and C programs see.
    pub fn number(self) -> u8
        ensures { result ≡ number_of self }
    {
        match self {
            Reason::EndsEarly => 1,
            Reason::TooLong => 2,
            Reason::BadForm => 3,
            Reason::OutsideSizes => 4,
            Reason::SpareBit => 5,
            Reason::LeftOver => 6,
            Reason::Repeated => 7,
            Reason::TooFar => 8,
            Reason::Late => 9,
            Reason::BaseUnknown => 10,
            Reason::NotAssigned => 12,
            Reason::NoRoom => 13,
            Reason::WrongData => 14,
            Reason::WrongSettings => 15,
            Reason::AllPassed => 16,
            Reason::OutsideRanges => 17,
            Reason::FrameTooLong => 18,
            Reason::BadImage => 20,
            Reason::OtherEdition => 21,
            Reason::TooManyLines => 22,
            Reason::NoSolution => 23,
            Reason::Unassigned(number) => number,
        }
    }

    // The reason that has a number.
    pub fn numbered(number: u8) -> Reason
        ensures { result ≡ numbered number }
    {
        match number {
            1 => Reason::EndsEarly,
            2 => Reason::TooLong,
            3 => Reason::BadForm,
            4 => Reason::OutsideSizes,
            5 => Reason::SpareBit,
            6 => Reason::LeftOver,
            7 => Reason::Repeated,
            8 => Reason::TooFar,
            9 => Reason::Late,
            10 => Reason::BaseUnknown,
            12 => Reason::NotAssigned,
            13 => Reason::NoRoom,
            14 => Reason::WrongData,
            15 => Reason::WrongSettings,
            16 => Reason::AllPassed,
            17 => Reason::OutsideRanges,
            18 => Reason::FrameTooLong,
            20 => Reason::BadImage,
            21 => Reason::OtherEdition,
            22 => Reason::TooManyLines,
            23 => Reason::NoSolution,
            _ => Reason::Unassigned(number),
        }
    }
}

// A refusal: its reason and its place. The place is the octet at which the refused item begins, counted from the start of the octets that
// were read (rule 2.27), and 0 if the refusal is not met while reading (rule 2.30). A refusal is made only here, and passed up whole or by
// `further`.
#[derive(Drop)]
#[derive(Clone, Copy)]
pub struct Refusal {
    pub reason: Reason,
    pub place: usize,
}

impl Refusal {
    pub fn new(reason: Reason) -> Refusal
        ensures { RefusalMade reason result }
    {
        Refusal { reason, place: 0 }
    }

    // A refusal of an item that begins at the octet `place` (rule 2.27).
    pub fn at(reason: Reason, place: usize) -> Refusal
        ensures { RefusalPlaced reason place result }
    {
        Refusal { reason, place }
    }

    // The number that a caller sees (rules 2.1 to 2.23).
    pub fn number(self) -> u8
        ensures { result ≡ number_of self.reason }
    {
        self.reason.number()
    }

    // The same refusal, passed up by a function that reads from octet `start` on (rule 2.31).
    pub fn further(self, start: usize) -> Refusal
        requires { start + self.place < 2 ^ 64 }
        ensures { result ≡ is_further start self }
    {
        Refusal {
            reason: self.reason,
            place: start + self.place,
        }
    }
}

// A length at the front of some octets: its value and how many octets it has.
#[derive(Drop)]
#[derive(Clone, Copy)]
pub struct Length {
    pub value: usize,
    pub size: usize,
}

impl Length {
    // From here on a length has two octets (rule 3.2).
    pub const TWO_FROM: usize = 128;

    // The greatest length that two octets hold (rule 3.2).
    pub const LIMIT: usize = 16383;

    pub fn two_from() -> usize
        ensures { result ≡ two_from }
    {
        Length::TWO_FROM
    }

    pub fn limit() -> usize
        ensures { result ≡ length_limit }
    {
        Length::LIMIT
    }

    // Why a length is refused, to be passed up whole or by `further`. Callers use it only for a refused length.
    pub fn refusal(found: Result<Length, Refusal>) -> Refusal
        ensures { RefusalTold found result }
    {
        match found {
            Ok(_) => Refusal::new(Reason::EndsEarly),
            Err(why) => why,
        }
    }
}

// An octet as a size.
pub fn wide(octet: u8) -> usize
    ensures { Octet octet result }
{
    octet as usize
}

// From least to most.
pub fn within(least: usize, most: usize, n: usize) -> bool
    ensures { result ≡ is_within least most n }
{
    if n < least {
        return false;
    }
    n <= most
}
