// The four counts of a session (rule 9.10): one more of a kind, and whether all numbers have passed.
ghost use Rattle.std.specs.Prelude.{◌≡◌, ◌<◌};
ghost use Rattle.session.specs.Cells.{unknown, received, spare, repaired};
ghost use Rattle.session.specs.View.{sum, session_limit};
ghost use Rattle.session.specs.Release.{counted};
ghost use Rattle.session_held.specs.Table.{counts_of, state_of};
ghost use Rattle.session_release.specs.Steps.{Passed};

use session_held::{Counts, ReleaseKind, Session, total};

// Whether 1,000,000 numbers have passed (rule 12.12).
pub fn all_passed(c: Counts) -> bool
    ensures { Passed c result }
{
    Session::LIMIT <= total(c)
}

// One more number released as received, spare or repaired, and one more lost.
fn one_received(c: Counts) -> Counts
    requires { sum (counts_of c) < session_limit }
    ensures { counts_of result ≡ counted received (counts_of c) }
{
    Counts {
        received: c.received + 1,
        ..c
    }
}

fn one_spare(c: Counts) -> Counts
    requires { sum (counts_of c) < session_limit }
    ensures { counts_of result ≡ counted spare (counts_of c) }
{
    Counts {
        spare: c.spare + 1,
        ..c
    }
}

fn one_repaired(c: Counts) -> Counts
    requires { sum (counts_of c) < session_limit }
    ensures { counts_of result ≡ counted repaired (counts_of c) }
{
    Counts {
        repaired: c.repaired + 1,
        ..c
    }
}

fn one_lost(c: Counts) -> Counts
    requires { sum (counts_of c) < session_limit }
    ensures { counts_of result ≡ counted unknown (counts_of c) }
{
    Counts {
        lost: c.lost + 1,
        ..c
    }
}

// One more of the kind of the number that leaves: a number is counted as it leaves, not as it arrives (rule 12.13).
pub fn count_one(kind: ReleaseKind, c: Counts) -> Counts
    requires { sum (counts_of c) < session_limit }
    ensures { counts_of result ≡ counted (state_of kind) (counts_of c) }
{
    match kind {
        ReleaseKind::Received => one_received(c),
        ReleaseKind::Spare => one_spare(c),
        ReleaseKind::Repaired => one_repaired(c),
        ReleaseKind::Lost => one_lost(c),
    }
}
