// What a released packet is fed as, turn by turn (rules 17.1 to 17.3).
ghost use Rattle.std.specs.Prelude.{◌≡◌, length};
ghost use Rattle.session_held.specs.Table.{state_of};
ghost use Rattle.frame_feed.specs.Feed.{ending_of};
ghost use Rattle.frame_feed.specs.Promise.{TurnsTold};
ghost use Rattle.frame_feed.specs.Inner.{TurnTold};

use packet::{Ending, Field};
use session_held::ReleaseKind;

// One turn: a field of the packet, or a lost number.
#[derive(Drop)]
pub enum Turn {
    Field(Field),
    Loss,
}

// A packet that was released as repaired is read as repaired, and any other as received (rule 17.1).
fn ending_of(kind: ReleaseKind) -> Ending
    ensures { result ≡ ending_of (state_of kind) }
{
    match kind {
        ReleaseKind::Received => Ending::Whole,
        ReleaseKind::Spare => Ending::Whole,
        ReleaseKind::Repaired => Ending::Repaired,
        ReleaseKind::Lost => Ending::Whole,
    }
}

// How many turns a released packet of this kind has, in the edition that an octet names: one for each field, or one if it does not read.
pub fn turns(edition: u8, kind: ReleaseKind, packet: &[u8]) -> usize
    ensures { TurnsTold edition (state_of kind) packet.now result }
{
    let ending = ending_of(kind);
    match packet_reader::read(edition, packet, ending) {
        Ok(read) => read.count,
        Err(_) => 1,
    }
}

// One of these turns, or none past the last.
pub fn turn_of(edition: u8, kind: ReleaseKind, packet: &[u8], turn: usize) -> Option<Turn>
    ensures { TurnTold edition (state_of kind) packet.now turn result }
{
    let ending = ending_of(kind);
    match packet_reader::read(edition, packet, ending) {
        Ok(read) => {
            if turn < read.count {
                let fields = read.fields;
                Some(Turn::Field(fields[turn]))
            } else {
                None
            }
        }
        Err(_) => { if turn == 0 { Some(Turn::Loss) } else { None } }
    }
}
