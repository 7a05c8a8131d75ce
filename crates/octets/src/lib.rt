// The exclusive or of two runs of octets: eight octets at a time, as one word of 64 bits, and the tail singly (rule 30.9). The receiver's
// repairs and the sender's messages share it. These functions are for callers inside the library: they require that the octets are there.
// `specs/` also defines lists given by place.
#![tactic(auto)]

ghost use Rattle.std.specs.Prelude.{◌≡◌, ◌+◌, ◌*◌, ◌/◌, ◌≤◌, ◌<◌, length};
ghost use Rattle.octets.specs.Words.{Reads, Spells, AddsTo, both};

// A number of sixteen bits as a size.
pub fn wide(n: u16) -> usize
    ensures { result ≡ n }
{
    usize::from(n)
}

// ---- eight octets from a place on, as one number: the first is the lowest

fn eight(octets: &[u8], at: usize) -> u64
    requires { at + 8 ≤ length octets.now }
    ensures { Reads 8 octets.now at result }
{
    u64::from_le_bytes([
        octets[at],
        octets[at + 1],
        octets[at + 2],
        octets[at + 3],
        octets[at + 4],
        octets[at + 5],
        octets[at + 6],
        octets[at + 7],
    ])
}

fn put_eight(octets: &mut [u8], at: usize, w: u64)
    requires { at + 8 ≤ length octets.old }
    ensures { Spells 8 w octets.old at octets.new }
{
    octets[at..at + 8].copy_from_slice(&w.to_le_bytes());
}

// ---- the exclusive or

// The whole words. Both loops run over places: after a zip over `chunks_exact_mut` or `iter_mut` a proof no longer knows the elements.
fn add_words(src: &[u8], sum: &mut [u8])
    requires { length src.now ≡ length sum.old }
    ensures { AddsTo src.now sum.old sum.new (length src.now / 8 * 8) }
{
    for k in 0..src.len() / 8 {
        let at = k * 8;
        put_eight(sum, at, eight(sum, at) ^ eight(src, at));
    }
}

// Adds src to sum, which has the same length.
pub fn add(src: &[u8], sum: &mut [u8])
    requires { length src.now ≡ length sum.old }
    ensures { sum.new ≡ both src.now sum.old }
{
    add_words(src, sum);
    let tail = src.len() % 8;
    let from = src.len() - tail;
    for t in 0..tail {
        sum[from + t] ^= src[from + t];
    }
}
