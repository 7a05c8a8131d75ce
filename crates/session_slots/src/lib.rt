// A store is a run of octets cut into slots of a packet's length. The receiving session keeps its packets in one and its messages in
// another, and the sending session keeps its history in one. These functions serve callers inside this repository: they require that the
// slot exists. Those that need no slot work on any run of octets, and serve a joiner's storage too.
#![tactic(auto)]

ghost use Rattle.std.specs.Prelude.{◌≡◌, ◌≤◌, length, drop, ◌++◌};
ghost use Rattle.datagram.specs.Sizes.{packet_limit};
ghost use Rattle.session_slots.specs.Store.{added, pasted, zeros, zeros_from, zeros_past, mask_over, mask, part, HasSlot};

use datagram::Packet;

// An octet with every bit set.
const ALL_BITS: u8 = 255;

// Writes the octets src to the front of a slot.
pub fn put(octets: &mut [u8], slot: usize, src: &[u8])
    requires has_slot { HasSlot slot octets.old }
    requires src_len_bound { length src.now ≤ packet_limit }
    ensures { octets.new ≡ pasted octets.old slot src.now }
{
    let at = slot * Packet::LIMIT;
    // A loop, since the archive for C calls memcpy and memset alone, and the library's copy is a memmove.
    for j in 0..src.len() {
        octets[at + j] = src[j];
    }
}

// Writes zeros to all of a run of octets, of any length.
pub fn clear_run(run: &mut [u8])
    ensures { run.new ≡ zeros (length run.old) }
{
    run.fill(0);
}

// Writes zeros to all of a slot.
pub fn clear(octets: &mut [u8], slot: usize)
    requires { HasSlot slot octets.old }
    ensures { octets.new ≡ pasted octets.old slot (zeros packet_limit) }
{
    let at = slot * Packet::LIMIT;
    clear_run(&mut octets[at..at + Packet::LIMIT]);
}

// The mask of a slot: its first half lets every octet pass, its second half only zero. An octet passes if it has no bit in common with the
// mask.
pub fn passing() -> [u8; Packet::LIMIT + Packet::LIMIT]
    ensures { result ≡ mask }
{
    let mut table = [ALL_BITS; Packet::LIMIT + Packet::LIMIT];
    clear_run(&mut table[..Packet::LIMIT]);
    table
}

// Whether a run of octets, of any length, has only zeros past its first n. The mask lets every octet pass below n and only zero from there
// on, in a loop without branches.
pub fn zeros_in_run(run: &[u8], n: usize, table: &[u8]) -> bool
    requires n_in_bounds { n ≤ length run.now }
    requires table_value { table.now ≡ mask_over (length run.now) }
    ensures { result ≡ zeros_from run.now n }
{
    let from = run.len() - n;
    let mut ok = true;
    for (j, octet) in run.iter().enumerate() {
        ok &= *octet & table[from + j] == 0;
    }
    ok
}

// Whether a slot has only zeros past its first n octets (rule 13.5).
pub fn zeros_past(octets: &[u8], slot: usize, n: usize, table: &[u8]) -> bool
    requires has_slot { HasSlot slot octets.now }
    requires n_le_packet_limit { n ≤ packet_limit }
    requires table_value { table.now ≡ mask }
    ensures { result ≡ zeros_past octets.now slot n }
{
    let at = slot * Packet::LIMIT;
    zeros_in_run(&octets[at..at + Packet::LIMIT], n, table)
}

// Whether a run of octets has only zeros: where no octet may be set, no mask is needed.
// No branches here either: `all` would test octet by octet and stop at the first that is set.
fn zero_run(run: &[u8]) -> bool
    ensures { result ≡ zeros_from run.now 0 }
{
    let mut ok = true;
    for octet in run {
        ok &= *octet == 0;
    }
    ok
}

// Whether a slot has only zeros.
pub fn all_zero(octets: &[u8], slot: usize) -> bool
    requires { HasSlot slot octets.now }
    ensures { result ≡ zeros_past octets.now slot 0 }
{
    let at = slot * Packet::LIMIT;
    zero_run(&octets[at..at + Packet::LIMIT])
}

// Copies the first n octets of a slot to the front of the caller's buffer.
pub fn copy_out(octets: &[u8], slot: usize, n: usize, out: &mut [u8])
    requires has_slot { HasSlot slot octets.now }
    requires n_le_packet_limit { n ≤ packet_limit }
    requires n_in_bounds { n ≤ length out.old }
    ensures { out.new ≡ part octets.now slot n ++ drop n out.old }
{
    let at = slot * Packet::LIMIT;
    for j in 0..n {
        out[j] = octets[at + j];
    }
}

// Adds the octets of a slot to sum by exclusive or, as many as sum has.
pub fn add(octets: &[u8], slot: usize, sum: &mut [u8])
    requires has_slot { HasSlot slot octets.now }
    requires sum_len_bound { length sum.old ≤ packet_limit }
    ensures { sum.new ≡ added sum.old octets.now slot }
{
    let at = slot * Packet::LIMIT;
    octets::add(&octets[at..at + sum.len()], sum);
}
