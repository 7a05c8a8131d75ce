// The calls of a joiner, as `frame` defines them (rules 16.1 to 16.16). A call takes a joiner by value, any saved one too, and returns it
// by value with the answer. `feed` and `taint` are the same calls for a caller that lends the storage.
#![tactic(auto)]

mod inside;

ghost use Rattle.std.specs.Prelude.{◌≡◌};
ghost use Rattle.frame.specs.Promise.{FieldOwes, LossOwes};
ghost use Rattle.frame_joiner.specs.Inner.{joined_of};

use frame::{Joined, Joiner};
pub use inside::{Kept, feed, taint};

// The joiner that a call leaves, with its storage, and what the call returns.
fn joined(kept: Kept, frame: [u8; Joiner::LIMIT]) -> Joined
    ensures { result ≡ joined_of kept frame }
{
    let Kept {
        tainted,
        size,
        answer,
    } = kept;
    Joined {
        joiner: Joiner {
            tainted,
            size,
            frame,
        },
        answer,
    }
}

// One field of a packet: its type, and the octets of its data, none if it has no data. A frame that it returns is written to the front of
// out (rules 16.3 and 16.4).
pub fn field(joiner: Joiner, kind: u8, octets: &[u8], out: &mut [u8]) -> Joined
    ensures { FieldOwes joiner kind octets.now out.old out.new result }
{
    let mut frame = joiner.frame;
    let kept = feed(joiner.tainted, joiner.size, &mut frame, kind, octets, out);
    joined(kept, frame)
}

// One lost number (rule 16.8).
pub fn lost(joiner: Joiner) -> Joined
    ensures { LossOwes joiner result }
{
    let mut frame = joiner.frame;
    let kept = taint(joiner.tainted, joiner.size, &mut frame);
    joined(kept, frame)
}
