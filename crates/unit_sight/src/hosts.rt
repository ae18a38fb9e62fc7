//! Hosts: of the places that see some other, the nearest to a place that sees none.

ghost use Rattle.std.specs.Prelude.{◌≡◌, ℕ, ◌<◌, Bool, not, true, length, map, filter, get_or, IfSome};
ghost use Rattle.unit_sight.specs.Joined.{nearest, is_blind, host_of};
ghost use Rattle.unit_sight.specs.Tables.{places};
ghost use Rattle.unit_sight.specs.Rooms.{AreLengths};
ghost use Rattle.unit_sight.specs.Finding.{FitsLengths};
ghost use Rattle.unit_sight.specs.Nearest.{IsNearest, nearer_one, place_of};

use plane_exact::length_cm;
use venue_types::Spot;

/// The places of a room, and how many centimetres a degree of longitude and one of latitude have there.
#[derive(Drop)]
pub(crate) struct Lengths<'a> {
    pub spots: &'a [Spot],
    pub kx: u32,
    pub ky: u32,
}

// A place, and how far it is.
#[derive(Clone, Copy)]
struct Distant {
    place: u32,
    length: u32,
}

/// The host of a place: of the places that aren't blind the nearest, and of those that are as near the first.
pub(crate) fn host_of(lengths: &Lengths, blind: &[bool], a: u32) -> Option<u32>
    requires fits { FitsLengths lengths.now.spots.now lengths.now.kx lengths.now.ky }
    requires size { length blind.now ≡ length lengths.now.spots.now }
    requires place { a < length lengths.now.spots.now }
    ensures place { IfSome result (λ host. host < length lengths.now.spots.now) }
    ensures host { (sees : ℕ → ℕ → Bool) → (far : ℕ → ℕ → ℕ) → AreLengths lengths.now.spots.now lengths.now.kx lengths.now.ky far → blind.now ≡ map (is_blind sees (places (length lengths.now.spots.now))) (places (length lengths.now.spots.now)) → result ≡ host_of sees far (places (length lengths.now.spots.now)) a }
{
    place_of(nearest_of(lengths, blind, a))
}

// The host, with its length.
fn nearest_of(lengths: &Lengths, blind: &[bool], a: u32) -> Option<Distant>
    requires fits { FitsLengths lengths.now.spots.now lengths.now.kx lengths.now.ky }
    requires size { length blind.now ≡ length lengths.now.spots.now }
    requires place { a < length lengths.now.spots.now }
    ensures place { IfSome result (λ best. best.place < length lengths.now.spots.now) }
    ensures told { (far : ℕ → ℕ → ℕ) → AreLengths lengths.now.spots.now lengths.now.kx lengths.now.ky far → IsNearest (far a) (filter (λ b. not (get_or blind.now b true)) (places (length lengths.now.spots.now))) result }
{
    let mut best = None;
    for b in 0..lengths.spots.len() as u32 {
        if sees_some(blind, b) {
            let next = Distant {
                place: b,
                length: length_between(lengths, a, b),
            };
            best = Some(nearer_of(best, next));
        }
    }
    best
}

/// Whether a place sees some other.
pub(crate) fn sees_some(blind: &[bool], a: u32) -> bool
    requires { a < length blind.now }
    ensures { result ≡ not (get_or blind.now a true) }
{
    !blind[a as usize]
}

// The length between two places.
fn length_between(lengths: &Lengths, a: u32, b: u32) -> u32
    requires fits { FitsLengths lengths.now.spots.now lengths.now.kx lengths.now.ky }
    requires first { a < length lengths.now.spots.now }
    requires second { b < length lengths.now.spots.now }
    ensures { (far : ℕ → ℕ → ℕ) → AreLengths lengths.now.spots.now lengths.now.kx lengths.now.ky far → result ≡ far a b }
{
    length_cm(
        lengths.spots[a as usize],
        lengths.spots[b as usize],
        lengths.kx,
        lengths.ky,
    )
}

// The nearer of the best so far and a place behind it: the best, where both are as near.
fn nearer_of(best: Option<Distant>, next: Distant) -> Distant
    ensures { result ≡ nearer_one best next }
{
    match best {
        None => next,
        Some(one) => { if next.length < one.length { next } else { one } }
    }
}

// Its place.
fn place_of(best: Option<Distant>) -> Option<u32>
    ensures { result ≡ place_of best }
{
    match best {
        None => None,
        Some(one) => Some(one.place),
    }
}
