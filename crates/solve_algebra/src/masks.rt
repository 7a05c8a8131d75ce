// Masks: sets of places below 64, one bit for each place in a number of 64 bits. The rows of the table use them (rule 1.16). These
// functions are for callers inside this repository: they require that a place is below 64.
// A mask stays a number, and no struct around one: rows are added by `^`, and the definitions in `specs/` take its bits by division.
ghost use Rattle.std.specs.Prelude.{◌≡◌, ◌+◌, ◌*◌, ◌≤◌, ◌<◌};
ghost use Rattle.solve_algebra.specs.Masks.{mask_places};
ghost use Rattle.solve_algebra.specs.MasksPromise.{HasTold, OneMade, FirstFound, LoneFound, BackMade};

// A mask.
#[derive(Drop)]
pub struct Mask {}

impl Mask {
    pub const PLACES: u64 = 64;

    pub fn places() -> u64
        ensures { result ≡ mask_places }
    {
        Mask::PLACES
    }
}

// Whether a mask has a place.
pub fn has(mask: u64, place: u64) -> bool
    requires { place < mask_places }
    ensures { HasTold mask place result }
{
    mask >> place & 1 == 1
}

// The mask of one place.
pub fn one(place: u64) -> u64
    requires { place < mask_places }
    ensures { OneMade place result }
{
    1 << place
}

// The first place that a mask has; 64 if it has none.
pub fn first_place(mask: u64) -> u64
    ensures { FirstFound mask result }
{
    u64::from(mask.trailing_zeros())
}

// The only place that a mask has; 64 if it has none or several.
pub fn lone_place(mask: u64) -> u64
    ensures { LoneFound mask result }
{
    let place = first_place(mask);
    if place < Mask::PLACES && first_place(mask ^ one(place)) < Mask::PLACES {
        return Mask::PLACES;
    }
    place
}

// The mask of the n places at - m, at - 2m, and so on: the members of a message (rule 4.12).
pub fn places_back(at: u64, n: u64, m: u64) -> u64
    requires m_bound { n * m ≤ at }
    requires at_bound { at < mask_places + m }
    ensures { BackMade at n m result }
{
    let mut mask = 0;
    let mut place = at;
    for _ in 0..n {
        place -= m;
        mask ^= one(place);
    }
    mask
}
