//! Which places of a room are joined, found pair by pair.

ghost use Rattle.std.specs.Prelude.{◌≡◌, ℕ, ◌+◌, ◌<◌, ◌≤◌, ◌++◌, true, not, ◌==◌, All, length, map, IfOk};
ghost use Rattle.plane_exact.specs.Plane.{IsInRange};
ghost use Rattle.plane_exact.specs.Figure.{AllNearby, vertices};
ghost use Rattle.plane_exact.specs.Scaled.{times, scaled};
ghost use Rattle.plane_exact.specs.Sight.{at_spot};
ghost use Rattle.unit_sight.specs.Tables.{table_of};
ghost use Rattle.unit_sight.specs.Rooms.{AreLengths, joined_places, sees_in};
ghost use Rattle.unit_sight.specs.Finding.{asked, all_asked};

use crate::bits::Bits;
use crate::guests::{are_all, blind_places, join_guests};
use crate::hosts::Lengths;
use crate::pairs::{Room, join_seeing};
use plane_exact::scaled;
use plane_trees::Bands;
use std::alloc::Global;
use venue_types::{OutOfMemory, Shape, Spot};

/// Which places of the room are joined: those that see each other, and each that sees nobody with its host. Where nobody sees
/// another any two are.
pub(crate) fn joined_bits(
    alloc: Global,
    shape: &Shape,
    spots: &[Spot],
    t: u32,
    kx: u32,
    ky: u32,
) -> Result<Bits, OutOfMemory>
    requires near { AllNearby (map (λ s. times 2 (at_spot s)) spots.now ++ vertices (scaled 4 shape.now)) }
    requires range { All IsInRange (map at_spot spots.now ++ vertices shape.now) }
    requires few { length spots.now ≤ 4096 }
    requires tolerance { t ≤ 1000000 }
    requires kx_range { kx ≤ 20000000 }
    requires ky_range { ky ≤ 20000000 }
    ensures { (far : ℕ → ℕ → ℕ) → AreLengths spots.now kx ky far → IfOk result (λ bits. bits ≡ joined_places shape.now spots.now t far) }
{
    let mut bits = seeing_bits(alloc, shape, spots, t)?;
    let blind = blind_places(alloc, &bits)?;
    if are_all(blind.as_slice()) {
        return whole_bits(alloc, bits.size());
    }
    join_guests(&Lengths { spots, kx, ky }, blind.as_slice(), &mut bits);
    Ok(bits)
}

// Which places of the room see each other.
fn seeing_bits(alloc: Global, shape: &Shape, spots: &[Spot], t: u32) -> Result<Bits, OutOfMemory>
    requires near { AllNearby (map (λ s. times 2 (at_spot s)) spots.now ++ vertices (scaled 4 shape.now)) }
    requires range { All IsInRange (map at_spot spots.now ++ vertices shape.now) }
    requires few { length spots.now ≤ 4096 }
    requires tolerance { t ≤ 1000000 }
    ensures { IfOk result (λ bits. bits ≡ table_of (length spots.now) (all_asked (sees_in shape.now spots.now t))) }
{
    let quadrupled = scaled(alloc, shape, 4)?;
    let bands = Bands::of(alloc, &quadrupled)?;
    let mut bits = Bits::new(alloc, spots.len() as u32)?;
    let room = Room {
        bands,
        spots,
        tolerance: t,
    };
    join_seeing(&room, &mut bits);
    Ok(bits)
}

// A table in which any two are joined.
fn whole_bits(alloc: Global, size: u32) -> Result<Bits, OutOfMemory>
    requires { size ≤ 4096 }
    ensures { IfOk result (λ bits. bits ≡ table_of size (λ i j. not (i == j))) }
{
    let mut bits = Bits::new(alloc, size)?;
    for i in 0..size {
        join_front(i, &mut bits);
    }
    Ok(bits)
}

// Joins a place to all in front of it.
fn join_front(i: u32, bits: &mut Bits)
    requires { i < length bits.old }
    ensures size { length bits.new ≡ length bits.old }
    ensures told { bits.old ≡ table_of (length bits.old) (asked (λ a b. true) i 0) → bits.new ≡ table_of (length bits.old) (asked (λ a b. true) (i + 1) 0) }
{
    for j in 0..i {
        bits.join(i, j);
    }
}
