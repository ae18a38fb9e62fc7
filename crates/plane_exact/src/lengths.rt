//! Lengths in whole centimetres.

ghost use Rattle.std.specs.Prelude.{◌≡◌, ◌≢◌, ℕ, ◌*◌, ◌≤◌, pos, ◌-ℤ◌, ◌*ℤ◌, ◌↔◌, IsTrue};
ghost use Rattle.plane_exact.specs.Plane.{IsWithin, IsCloseDoubled, square};
ghost use Rattle.plane_exact.specs.Length.{IsLength, Spans, scaled_square};

use std::num::{nearest_u64_to_f64, saturating_f64_to_u32};
use venue_types::Spot;

// The square of a centimetre in the units of `stretch_square`: a degree has 2 * 10^9 of a spot's units.
const SQUARE_CENTIMETRE: u128 = 4_000_000_000_000_000_000;

// Centimetres in 2^22 of the units that `stretch_square` squares.
const GUESS_UNIT: f64 = 0.002_097_152;

/// The length from `a` to `b` in whole centimetres, rounded up, where a degree of longitude has `kx` centimetres and a
/// degree of latitude `ky`. Takes a root of a float as a guess, and corrects it by whole numbers.
pub fn length_cm(a: Spot, b: Spot, kx: u32, ky: u32) -> u32
    requires close { IsCloseDoubled a b }
    requires kx_range { kx ≤ 20000000 }
    requires ky_range { ky ≤ 20000000 }
    ensures length { IsLength a b kx ky result }
    ensures bound { result ≤ 5700000 }
{
    let square = way_square(a, b, kx, ky);
    raise(square, lower(square, guess(square)))
}

/// Whether `c` centimetres are no shorter than the way from `a` to `b`, without a root.
pub fn spans(a: Spot, b: Spot, kx: u32, ky: u32, c: u32) -> bool
    requires close { IsCloseDoubled a b }
    requires kx_range { kx ≤ 20000000 }
    requires ky_range { ky ≤ 20000000 }
    ensures { IsTrue result ↔ Spans a b kx ky c }
{
    reaches(c, way_square(a, b, kx, ky))
}

// The square of the way from `a` to `b`.
fn way_square(a: Spot, b: Spot, kx: u32, ky: u32) -> u128
    requires close { IsCloseDoubled a b }
    requires kx_range { kx ≤ 20000000 }
    requires ky_range { ky ≤ 20000000 }
    ensures value { pos result ≡ scaled_square a b kx ky }
    ensures range { result ≤ 128000000000000000000000000000000 }
{
    stretch_square(a.x, b.x, kx) + stretch_square(a.y, b.y, ky)
}

// The square of the way from `m` to `n`, each unit of which counts `k`.
fn stretch_square(m: i64, n: i64, k: u32) -> u128
    requires close { IsWithin 400000000 m n }
    requires range { k ≤ 20000000 }
    ensures value { pos result ≡ square ((n -ℤ m) *ℤ pos k) }
    ensures range { result ≤ 64000000000000000000000000000000 }
{
    let length = (n - m).unsigned_abs() * k as u64;
    length as u128 * length as u128
}

// Whether the square of `c` centimetres is at least `square`.
fn reaches(c: u32, square: u128) -> bool
    ensures { IsTrue result ↔ square ≤ 4000000000000000000 * (c * c) }
{
    square <= SQUARE_CENTIMETRE * (c as u64 * c as u64) as u128
}

// A number near the length whose square this is. No answer depends on it but by the time that it takes.
fn guess(square: u128) -> u32
    requires { square ≤ 128000000000000000000000000000000 }
    ensures { result ≤ 5700000 }
{
    let root = nearest_u64_to_f64((square >> 44) as u64).sqrt();
    saturating_f64_to_u32(root * GUESS_UNIT + 1.0).min(5_700_000)
}

// The guess, or where less reaches the square, the least number that does.
fn lower(square: u128, guess: u32) -> u32
    requires { guess ≤ 5700000 }
    ensures reached { result ≢ guess → square ≤ 4000000000000000000 * (result * result) }
    ensures least { (m : ℕ) → square ≤ 4000000000000000000 * (m * m) → result ≤ m }
    ensures bound { result ≤ 5700000 }
{
    let mut c = guess;
    while c > 0 && reaches(c - 1, square) {
        c -= 1;
    }
    c
}

// The least number that reaches the square, which is at least `low`.
fn raise(square: u128, low: u32) -> u32
    requires square_range { square ≤ 128000000000000000000000000000000 }
    requires low { (m : ℕ) → square ≤ 4000000000000000000 * (m * m) → low ≤ m }
    requires low_range { low ≤ 5700000 }
    ensures root { square ≤ 4000000000000000000 * (result * result) }
    ensures least { (m : ℕ) → square ≤ 4000000000000000000 * (m * m) → result ≤ m }
    ensures bound { result ≤ 5700000 }
{
    let mut c = low;
    while !reaches(c, square) {
        c += 1;
    }
    c
}
