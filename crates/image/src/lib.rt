// A receiving session as an image, lines of hexadecimal (rules 20.1 to 20.20): the definitions, which say in one description what is read
// and what is written, their proofs, and the limits that code and hosts use.
#![tactic(auto)]

ghost use Rattle.std.specs.Prelude.{◌≡◌};
ghost use Rattle.datagram.specs.Sizes.{packet_limit};
ghost use Rattle.image.specs.Image.{first_image_size, number_line_limit, image_limit};

use datagram::{Packet, Parity};
use length::Refusal;
use session_held::Session;

// An image of a session.
#[derive(Drop)]
pub struct Image {}

// What a text restores: the session whose image it is, or why it is refused. A refused text restores nothing (rule 20.18): then `session`
// is a fresh one.
#[derive(Drop)]
pub struct Restored {
    pub session: Session,
    pub answer: Result<(), Refusal>,
}

impl Image {
    // The version that is written, and the older one that is read too, with its limit for packets and messages (rules 20.8 and 20.9).
    // They are octets of the text.
    pub const EDITION: u8 = 2;

    pub const OLD_EDITION: u8 = 1;

    pub const OLD_LIMIT: usize = 160;
    // The octets of the first line: version, base and counts.
    pub const FIRST: usize = 19;
    // The most octets of a packet or message with its length, and of the line of a number.
    pub const ITEM: usize = 2 + Packet::LIMIT;

    pub const LINE: usize = 6 + Image::ITEM + Parity::MESSAGES * Image::ITEM;
    // The most characters of an image: a buffer of this size is large enough for any image (rule 20.20).
    pub const LIMIT: usize = (2 * Image::FIRST + 1)
        + Session::BEFORE * (2 * (6 + Image::ITEM) + 1)
        + Session::HEARD * (2 * Image::LINE + 1);

    pub fn line() -> usize
        ensures { result ≡ number_line_limit packet_limit }
    {
        Image::LINE
    }

    pub fn limit() -> usize
        ensures { result ≡ image_limit packet_limit }
    {
        Image::LIMIT
    }
}
