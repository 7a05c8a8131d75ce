// The octets of a datagram, item by item (rules 4.1 to 4.6). Each writer gets what is still free in the buffer (rule 30.3), writes to the
// front of it, and returns how many octets it wrote. Its caller has checked that there is room.
ghost use Rattle.std.specs.Prelude.{◌+◌, ◌≤◌, ◌<◌, ◌≡◌, ◌++◌, length};
ghost use Rattle.length.specs.Length.{length_octets, length_limit};
ghost use Rattle.length.specs.Promise.{Put};
ghost use Rattle.datagram.specs.Write.{number_octets, item_octets, items_octets, cut, sum_of};
ghost use Rattle.datagram.specs.Inner.Heads.{LengthSize, KindFits, FrontAsked, spares_head, parity_head, kind_head, front_octets, item_size};
ghost use Rattle.datagram.specs.Inner.Heads.{items_size};

use datagram::Kind;
use length::Length;

// ---- the writers

// Some octets, unchanged.
pub fn put_octets(octets: &[u8], out: &mut [u8]) -> usize
    requires { length octets.now ≤ length out.old }
    ensures { Put octets.now out.old out.new result }
{
    // A loop, since the archive for C calls memcpy and memset alone, and the library's copy is a memmove.
    for i in 0..octets.len() {
        out[i] = octets[i];
    }
    octets.len()
}

// A length or count (rules 3.1 and 3.2). The length writer never refuses here: the length is not over 16,383, and there is room.
pub fn put_length(n: usize, out: &mut [u8]) -> usize
    requires { (n ≤ length_limit) × (length (length_octets n) ≤ length out.old) }
    ensures { Put (length_octets n) out.old out.new result }
{
    let written = length_code::write(n, out);
    match written {
        Ok(size) => size,
        Err(_) => 0,
    }
}

// A packet, spare or message: its length, then its octets (rule 4.2).
pub fn put_item(item: &[u8], out: &mut [u8]) -> usize
    requires { (length item.now ≤ length_limit) × (item_size (length item.now) ≤ length out.old) }
    ensures { Put (item_octets item.now) out.old out.new result }
{
    let at = put_length(item.len(), out);
    let size = put_octets(item, &mut out[at..]);
    at + size
}

// The number: two octets, high first (rule 4.1).
fn put_number(number: u16, out: &mut [u8]) -> usize
    requires { length (number_octets number) ≤ length out.old }
    ensures { Put (number_octets number) out.old out.new result }
{
    let high = (number / 256) as u8;
    let low = (number % 256) as u8;
    let octets = [high, low];
    put_octets(&octets, out)
}

// The number and the newest packet (rules 4.1 and 4.2).
fn put_head(number: u16, packet: &[u8], out: &mut [u8]) -> usize
    requires { (length packet.now ≤ length_limit) ×
        (length (number_octets number) + item_size (length packet.now) ≤ length out.old) }
    ensures { Put (number_octets number ++ item_octets packet.now) out.old out.new result }
{
    let at = put_number(number, out);
    let size = put_item(packet, &mut out[at..]);
    at + size
}

// Octet 00 and the count of spares (rules 4.3 and 4.4).
fn put_spares(count: usize, out: &mut [u8]) -> usize
    requires { (count ≤ length_limit) × (1 + length (length_octets count) ≤ length out.old) }
    ensures { Put (spares_head count) out.old out.new result }
{
    let marks = [0u8];
    let at = put_octets(&marks, out);
    let size = put_length(count, &mut out[at..]);
    at + size
}

// Octet 80, octet 01, octet n, and m, the count of messages (rules 4.3 and 4.6).
fn put_parity(n: usize, m: usize, out: &mut [u8]) -> usize
    requires { (n < 256) × (m ≤ length_limit) × (3 + length (length_octets m) ≤ length out.old) }
    ensures { Put (parity_head n m) out.old out.new result }
{
    let octet = (n % 256) as u8;
    let marks = [128u8, 1, octet];
    let at = put_octets(&marks, out);
    let size = put_length(m, &mut out[at..]);
    at + size
}

// What comes before the spares or messages, by the kind.
fn put_kind(kind: Kind, count: usize, out: &mut [u8]) -> usize
    requires { (KindFits kind count) × (length (kind_head kind count) ≤ length out.old) }
    ensures { Put (kind_head kind count) out.old out.new result }
{
    match kind {
        Kind::Spares => put_spares(count, out),
        Kind::Parity(n) => put_parity(n, count, out),
    }
}

// All that comes before the spares or messages: the number, the newest packet, and what the kind puts before them.
pub fn put_front(number: u16, packet: &[u8], kind: Kind, count: usize, out: &mut [u8]) -> usize
    requires { FrontAsked number packet.now kind count out.old }
    ensures { Put (front_octets number packet.now kind count) out.old out.new result }
{
    let head = put_head(number, packet, out);
    let before = put_kind(kind, count, &mut out[head..]);
    head + before
}

// Spares or messages, each with its length (rules 4.4 and 4.6).
pub fn put_items(lengths: &[u16], data: &[u8], out: &mut [u8]) -> usize
    requires { (sum_of lengths.now ≡ length «data».now) × (length «data».now ≤ length_limit) ×
        (items_size lengths.now ≤ length out.old) }
    ensures { Put (items_octets (cut lengths.now «data».now)) out.old out.new result }
{
    let mut from = 0;
    let mut at = 0;
    for length in lengths {
        let to = from + usize::from(*length);
        let item = &data[from..to];
        let size = put_item(item, &mut out[at..]);
        from = to;
        at += size;
    }
    at
}

// ---- how many octets they write

// A length or count.
pub fn length_size(n: usize) -> usize
    ensures { LengthSize n result }
{
    if n < Length::TWO_FROM { 1 } else { 2 }
}

// An item of n octets, with its length.
pub fn item_size(n: usize) -> usize
    requires { n ≤ length_limit }
    ensures { result ≡ item_size n }
{
    let size = length_size(n);
    size + n
}

// What comes before the spares or messages, by the kind.
pub fn kind_size(kind: Kind, count: usize) -> usize
    ensures { result ≡ length (kind_head kind count) }
{
    let size = length_size(count);
    match kind {
        Kind::Spares => size + 1,
        Kind::Parity(_) => size + 3,
    }
}

// Spares or messages of these lengths.
pub fn items_size(lengths: &[u16]) -> usize
    requires { sum_of lengths.now ≤ length_limit }
    ensures { result ≡ items_size lengths.now }
{
    let mut size = 0;
    for length in lengths {
        size += item_size(usize::from(*length));
    }
    size
}
