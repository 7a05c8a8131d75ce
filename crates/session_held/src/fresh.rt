// A fresh session: base 0, all counts 0, and the numbers before the first blank (rules 9.1 and 9.3).
ghost use Rattle.std.specs.Prelude.{◌≡◌};
ghost use Rattle.session_held.specs.Promise.{Fresh, fresh_table};

use crate::{Counts, Session};

impl Session {
    // At base 0 the numbers from the base on have the first slots and are unknown; those before the first have the rest and are blank.
    fn fresh_table() -> [u16; Session::PLACES]
        ensures { result ≡ fresh_table }
    {
        let mut table = [0; Session::PLACES];
        for i in Session::HEARD..Session::KEPT {
            table[i] = Session::BLANK;
        }
        table
    }

    // A fresh session. Its stores start as long zero arrays (rules 30.1 and 30.13).
    pub fn fresh() -> Session
        ensures { Fresh result }
    {
        Session {
            base: 0,
            counts: Counts {
                received: 0,
                spare: 0,
                repaired: 0,
                lost: 0,
            },
            table: Session::fresh_table(),
            octets: [0; Session::PACKET_OCTETS],
            messages: [0; Session::MESSAGE_OCTETS],
        }
    }
}
