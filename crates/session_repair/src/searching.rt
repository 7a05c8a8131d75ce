// The search for a usable message (rules 11.1 and 11.2). It reads only the table, never the stores.
ghost use Rattle.std.specs.Prelude.{◌≡◌, ◌<◌, ◌≤◌, length};
ghost use Rattle.datagram.specs.Sizes.{packet_limit, covered_limit};
ghost use Rattle.session.specs.View.{distance};
ghost use Rattle.session_held.specs.Slots.{slots_kept, slots_heard};
ghost use Rattle.session_held.specs.Table.{places};
ghost use Rattle.session_repair.specs.Back.{OneUnknown, count_back, find_back, MessageCount, count_all};
ghost use Rattle.session_repair.specs.Promise.{Searchable, Seeable, LowestSeen, UsableFound, missing_of};

use datagram::Parity;
use session_held::Session;

// A usable message: the distance of its number from the base, its index, and the slot of its one unknown member.
#[derive(Drop)]
pub struct Usable {
    pub distance: u16,
    pub index: usize,
    pub slot: usize,
}

// The lowest usable message of a number, and the slot of its unknown member.
#[derive(Drop)]
struct Lowest {
    index: usize,
    slot: usize,
}

// A count or a size, as the table keeps it.
pub fn narrow(n: usize) -> u16
    requires { n ≤ packet_limit }
    ensures { result ≡ n }
{
    n as u16
}

// One for an unknown number, zero for any other.
fn unknown_one(table: &[u16], slot: usize) -> usize
    requires table_len { length table.now ≡ places }
    requires slot_lt_slots_kept { slot < slots_kept }
    ensures { OneUnknown table.now slot result }
{
    if session_held::state_at(table, slot) == Session::UNKNOWN {
        1
    } else {
        0
    }
}

// The number m before x, modulo 65,536 (rule 2.35).
pub fn back(x: u16, m: u16) -> u16
    ensures { result ≡ distance m x }
{
    x.wrapping_sub(m)
}

// How many of the n numbers x - m, x - 2m, .. are unknown.
fn count_back(table: &[u16], x: u16, n: usize, m: u16) -> usize
    requires table_len { length table.now ≡ places }
    requires n_le_covered_limit { n ≤ covered_limit }
    ensures { result ≡ count_back table.now x n m }
{
    let mut at = x;
    let mut count = 0;
    for _ in 0..n {
        at = back(at, m);
        count += unknown_one(table, session_held::kept_slot(at));
    }
    count
}

// The slot of the first unknown one of the n numbers x - m, x - 2m, ..; slot 64 if there is none.
fn find_back(table: &[u16], x: u16, n: usize, m: u16) -> usize
    requires { length table.now ≡ places }
    ensures { result ≡ find_back table.now x n m }
{
    let mut at = x;
    for _ in 0..n {
        at = back(at, m);
        let slot = session_held::kept_slot(at);
        if unknown_one(table, slot) == 1 {
            return slot;
        }
    }
    Session::KEPT
}

// How many members of a message are unknown; 0 for a message of length 0, which never repairs (rule 11.7).
fn missing(size: usize, table: &[u16], x: u16, n: usize, m: u16) -> usize
    requires table_len { length table.now ≡ places }
    requires n_le_covered_limit { n ≤ covered_limit }
    ensures { result ≡ missing_of size table.now x n m }
{
    if size == 0 {
        0
    } else {
        count_back(table, x, n, m)
    }
}

// The lowest usable message of a number that has m messages over n packets each (rule 11.2).
fn lowest_among(table: &[u16], at: u16, slot: usize, n: usize, m: u16) -> Option<Lowest>
    requires { Seeable table.now at slot n m }
    ensures { LowestSeen table.now at result }
{
    for i in 0..m {
        let index = usize::from(i);
        let size = session_held::message_size_at(table, slot * Parity::MESSAGES + index);
        let first = at.wrapping_add(i);
        if missing(size, table, first, n, m) == 1 {
            return Some(Lowest {
                index,
                slot: find_back(table, first, n, m),
            });
        }
    }
    None
}

// The lowest usable message of a number; most numbers have no messages.
fn lowest_usable(table: &[u16], at: u16) -> Option<Lowest>
    requires { Searchable table.now }
    ensures { LowestSeen table.now at result }
{
    let slot = session_held::heard_slot(at);
    let count = session_held::m_at(table, slot);
    if count == 0 {
        return None;
    }
    let n = session_held::n_at(table, slot);
    lowest_among(table, at, slot, n, narrow(count))
}

// How many messages a number has, and how many all numbers have.
fn count_at(table: &[u16], slot: usize) -> u16
    requires searchable { Searchable table.now }
    requires slot_lt_slots_heard { slot < slots_heard }
    ensures { MessageCount table.now slot result }
{
    narrow(session_held::m_at(table, slot))
}

fn count_all(table: &[u16]) -> u16
    requires { Searchable table.now }
    ensures { result ≡ count_all table.now }
{
    let mut total = 0;
    for j in 0..Session::HEARD {
        total += count_at(table, j);
    }
    total
}

// The first usable message, of the numbers counted from the base on (rule 11.2); the search ends when it has seen all messages.
pub fn first_usable(base: u16, table: &[u16]) -> Option<Usable>
    requires { Searchable table.now }
    ensures { UsableFound base table.now result }
{
    let total = count_all(table);
    let mut seen = 0;
    for distance in 0..Session::AHEAD {
        if seen == total {
            return None;
        }
        let at = base.wrapping_add(distance);
        if let Some(lowest) = lowest_usable(table, at) {
            return Some(Usable {
                distance,
                index: lowest.index,
                slot: lowest.slot,
            });
        }
        seen += count_at(table, session_held::heard_slot(at));
    }
    None
}
