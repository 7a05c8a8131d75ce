// Bits after those that wait for the rest of their octet (rule 5.6).
ghost use Rattle.std.specs.Prelude.{◌≡◌, ◌^◌, ◌≤◌};
ghost use Rattle.length.specs.Promise.{Put};
ghost use Rattle.format.specs.Waiting.{waiting, closed};
ghost use Rattle.packet_laws.specs.Items.{BitIs, BitsFit, BitsPut, EdgeFits};

// Bits that wait: how many, and the number that they make.
#[derive(Clone, Copy)]
pub struct Waiting {
    pub width: usize,
    pub value: usize,
}

// How many octets were filled, and what waits then.
#[derive(Drop)]
pub struct Filled {
    pub octets: usize,
    pub after: Waiting,
}

// A power of two.
fn power(k: usize) -> usize
    requires { k ≤ 8 }
    ensures { result ≡ 2 ^ k }
{
    1 << k
}

// `count` bits after those that wait.
pub fn put_bits(before: Waiting, count: usize, bits: usize, out: &mut [u8]) -> Filled
    requires { BitsFit (waiting before.width before.value) count bits out.old }
    ensures { BitsPut (waiting before.width before.value) count bits out.old out.new result.octets
        result.after.width result.after.value }
{
    let above = before.value * power(count);
    let all = above + bits;
    let long = before.width + count;
    if long < 8 {
        return Filled {
            octets: 0,
            after: Waiting {
                width: long,
                value: all,
            },
        };
    }
    let rest = long - 8;
    let part = power(rest);
    let octet = all / part;
    out[0] = octet as u8;
    let less = all % part;
    Filled {
        octets: 1,
        after: Waiting {
            width: rest,
            value: less,
        },
    }
}

// Zero bits to an octet edge after those that wait (rule 5.3), and how many octets are filled.
pub fn put_edge(before: Waiting, out: &mut [u8]) -> usize
    requires { EdgeFits (waiting before.width before.value) out.old }
    ensures { Put (closed (waiting before.width before.value)) out.old out.new result }
{
    if before.width < 1 {
        return 0;
    }
    let octet = before.value * power(8 - before.width);
    out[0] = octet as u8;
    1
}

// A flag as a bit.
pub fn bit(set: bool) -> usize
    ensures { BitIs set result }
{
    usize::from(set)
}
