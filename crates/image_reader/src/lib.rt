// Reads an image of a receiving session, as `image` defines it, in version 02 or 01 (rule 20.9). The order is 21, then 20 over the whole
// image, then 17 (rules 20.12 and 20.18).
#![tactic(auto)]

mod items;
mod laying;
mod number;
mod text;
mod whole;

ghost use Rattle.std.specs.Prelude.{◌≤◌};
ghost use Rattle.datagram.specs.Sizes.{packet_limit};
ghost use Rattle.image.specs.Promise.{ImageRead};
ghost use Rattle.image_reader.specs.Whole.{EditionRead, NothingRestored};

use datagram::Packet;
use image::{Image, Restored};
use length::{Reason, Refusal};
use session_held::Session;
use text::edition_named;
use whole::{First, read_core};

// A refused text: nothing is restored.
fn refused(reason: Reason) -> Restored
    ensures { NothingRestored reason result }
{
    Restored {
        session: Session::fresh(),
        answer: Err(Refusal::new(reason)),
    }
}

// The session that a text is an image of, in the version with this octet, in which packets have at most `limit` octets.
fn read_edition(text: &[u8], edition: u8, limit: usize) -> Restored
    requires { limit ≤ packet_limit }
    ensures { EditionRead edition limit text.now result }
{
    let mut table = [0u16; Session::PLACES];
    let mut octets = [0u8; Session::PACKET_OCTETS];
    let mut messages = [0u8; Session::MESSAGE_OCTETS];
    let Some(
        First {
            base,
            counts,
            end: _,
        },
    ) = read_core(text, edition, limit, &mut table, &mut octets, &mut messages)
    else {
        return refused(Reason::BadImage);
    };
    if !session_check::in_ranges(base, counts, &table, &octets, &messages) {
        return refused(Reason::OutsideRanges);
    }
    Restored {
        session: Session {
            base,
            counts,
            table,
            octets,
            messages,
        },
        answer: Ok(()),
    }
}

// The session that a text is an image of, in the version that it names. The text may be any octets.
pub fn read(text: &[u8]) -> Restored
    ensures { ImageRead text.now result }
{
    match edition_named(text) {
        None => refused(Reason::BadImage),
        Some(Image::OLD_EDITION) => read_edition(text, Image::OLD_EDITION, Image::OLD_LIMIT),
        Some(Image::EDITION) => read_edition(text, Image::EDITION, Packet::LIMIT),
        Some(_) => refused(Reason::OtherEdition),
    }
}
