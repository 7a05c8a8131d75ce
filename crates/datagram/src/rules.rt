// Whether n and a count are inside the sizes (rules 1.3 to 1.5).
ghost use Rattle.std.specs.Prelude.{◌≡◌};
ghost use Rattle.datagram.specs.Write.{count_inside};

use crate::kind::Kind;
use datagram_sizes::{Parity, Spares};
use length::within;

// n and the count are inside the sizes (rule 4.9).
pub fn count_inside(kind: Kind, count: usize) -> bool
    ensures { result ≡ count_inside kind count }
{
    match kind {
        Kind::Spares => count <= Spares::LIMIT,
        Kind::Parity(n) => {
            if !within(Parity::PACKETS_LEAST, Parity::PACKETS, n) {
                return false;
            }
            within(Parity::MESSAGES_LEAST, Parity::MESSAGES, count)
        }
    }
}
