// From a receiving session to frames: what release returns is fed to a joiner. The caller names the edition at each packet. A packet that
// reads in it is fed field by field (rule 17.1). A packet that does not read, or for which no edition is named, is fed as one lost number
// (rule 17.3). A lost number, which has no octets, is fed in the same way (rule 17.2).
#![tactic(auto)]

mod turn;

ghost use Rattle.std.specs.Prelude.{◌≡◌, length};
ghost use Rattle.session_held.specs.Table.{state_of};
ghost use Rattle.frame_feed.specs.Feed.{events_of, released};
ghost use Rattle.frame_feed.specs.Promise.{FeedOwes};

use frame::{Handed, Joined, Joiner};
use frame_joiner::{field, lost};
use session_held::ReleaseKind;
pub use turn::turns;
use turn::{Turn, turn_of};

// Feeds the joiner with one turn, counted from 0, of a number of this kind and packet: one of its fields, or a lost number. Past the last
// turn nothing is done. A frame that is returned is written to the front of out.
pub fn feed(
    joiner: Joiner,
    edition: u8,
    kind: ReleaseKind,
    packet: &[u8],
    turn: usize,
    out: &mut [u8],
) -> Joined
    ensures { FeedOwes joiner edition (state_of kind) packet.now turn out.old out.new result }
{
    match turn_of(edition, kind, packet, turn) {
        Some(Turn::Field(f)) => {
            let end = f.start + f.size;
            field(joiner, f.kind, &packet[f.start..end], out)
        }
        Some(Turn::Loss) => lost(joiner),
        None => Joined {
            joiner,
            answer: Ok(Handed::Nothing),
        },
    }
}
