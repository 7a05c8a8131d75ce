// The program from a session on, and the image of the session at its end.
ghost use Rattle.session_held.specs.Table.{lent_by, view_of};
ghost use Rattle.session_held.specs.Laid.{InRanges};
ghost use Rattle.handover.specs.Promise.{RunsFrom};

use length::Refusal;
use session_held::Session;

// How many octets were read and how many passed to `write`, whether all results were written up to the end of the input, and what the image
// writer returned. The other fields hold after a failed write too, so `whole` is a flag beside them.
#[derive(Drop)]
pub struct Played {
    pub taken: usize,
    pub handed: usize,
    pub whole: bool,
    pub image: Result<usize, Refusal>,
}

pub fn play(rt: &HostRuntime, session: Session, out: &mut [u8]) -> Played
    requires { InRanges (lent_by session) }
    ensures { RunsFrom (view_of session) out.old out.new result }
{
    let base = session.base;
    let counts = session.counts;
    let mut table = session.table;
    let mut octets = session.octets;
    let mut messages = session.messages;
    let served = program_loop::serve(
        &mut rt.stdin(),
        &mut rt.stdout(),
        base,
        counts,
        &mut table,
        &mut octets,
        &mut messages,
    );
    let last_base = served.base;
    let last_counts = served.counts;
    let last = Session {
        base: last_base,
        counts: last_counts,
        table,
        octets,
        messages,
    };
    let image = image_writer::write(last, out);
    Played {
        taken: served.taken,
        handed: served.handed,
        whole: served.whole,
        image,
    }
}
