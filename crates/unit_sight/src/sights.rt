//! Which places of a room are joined.

ghost use Rattle.std.specs.Prelude.{◌≡◌, ◌==◌, ℕ, ◌<◌, ◌≤◌, ◌++◌, ◌↔◌, not, All, length, map, filter, nat_lt, slice_get, IfOk, IfSome, IsTrue, false, get_or};
ghost use Rattle.plane_exact.specs.Plane.{IsInRange};
ghost use Rattle.plane_exact.specs.Figure.{AllNearby, vertices};
ghost use Rattle.plane_exact.specs.Scaled.{times, scaled};
ghost use Rattle.plane_exact.specs.Sight.{at_spot};
ghost use Rattle.unit_sight.specs.Rooms.{AreLengths, joined_places};
ghost use Rattle.unit_sight.specs.Tables.{joins, neighbours, new_neighbours, table_of, IsWhole};

use crate::bits::Bits;
use crate::finding::joined_bits;
use crate::mask::Mask;
use crate::ranked::Ranked;
use crate::whole::{is_whole, whole_both, whole_next, whole_nth, whole_rank};
use std::alloc::Global;
use std::marker::Model;
use venue_types::{OutOfMemory, Shape, Spot};

/// Which places of a room are joined, as a table of truth values. Of a room in which any two are joined nothing but its size is kept.
#[derive(Drop)]
pub struct Sights {
    size: u32,
    rows: Option<Ranked>,
}

impl Model for Sights {
    ghost use Rattle.std.specs.Prelude.{ℕ, Bool, List};
    ghost use Rattle.unit_sight.specs.Words.{table_or, AreSights};

    ghost Value = { List (List Bool) };

    ghost view = { λ a. table_or a.size a.rows };

    ghost invariant = { λ a. AreSights a.size a.rows };
}

impl Sights {
    /// Finds which places of a room are joined: those that see each other in the shape, where `t`, in nanodegrees, is how far off a
    /// wall a place may be that stands at it; and each that sees nobody with its host, the nearest of those that see somebody,
    /// where a degree of longitude has `kx` centimetres and one of latitude `ky`. Where nobody sees another, any two are.
    ///
    /// At most 4,096 places. Asks half of the pairs, each of a tree of the shape's edges, and keeps a bit for each pair.
    pub fn of(
        alloc: Global,
        shape: &Shape,
        spots: &[Spot],
        t: u32,
        kx: u32,
        ky: u32,
    ) -> Result<Sights, OutOfMemory>
        requires near { AllNearby (map (λ s. times 2 (at_spot s)) spots.now ++ vertices (scaled 4 shape.now)) }
        requires range { All IsInRange (map at_spot spots.now ++ vertices shape.now) }
        requires few { length spots.now ≤ 4096 }
        requires tolerance { t ≤ 1000000 }
        requires kx_range { kx ≤ 20000000 }
        requires ky_range { ky ≤ 20000000 }
        ensures { (far : ℕ → ℕ → ℕ) → AreLengths spots.now kx ky far → IfOk result (λ sights. sights ≡ joined_places shape.now spots.now t far) }
    {
        let bits = joined_bits(alloc, shape, spots, t, kx, ky)?;
        Sights::of_bits(alloc, bits)
    }

    /// Any two of so many places are joined: at most 4,096.
    pub fn whole(size: u32) -> Sights
        requires { size ≤ 4096 }
        ensures { result ≡ table_of size (λ i j. not (i == j)) }
    {
        Sights { size, rows: None }
    }

    /// The places that a table of truth values joins.
    pub(crate) fn of_bits(alloc: Global, bits: Bits) -> Result<Sights, OutOfMemory>
        ensures { IfOk result (λ sights. sights ≡ bits) }
    {
        let size = bits.size();
        if is_whole(&bits) {
            Ok(Sights { size, rows: None })
        } else {
            let ranked = Ranked::of(alloc, bits)?;
            Ok(Sights {
                size,
                rows: Some(ranked),
            })
        }
    }

    /// How many places there are.
    pub fn size(&self) -> u32
        ensures size { result ≡ length self.now }
        ensures range { result ≤ 4096 }
    {
        self.size
    }

    /// Whether any two places are joined.
    pub fn is_whole(&self) -> bool
        ensures { IsTrue result ↔ IsWhole self.now }
    {
        self.rows.is_none()
    }

    /// Whether i and j are joined.
    pub fn joins(&self, i: u32, j: u32) -> bool
        requires row { i < length self.now }
        requires column { j < length self.now }
        ensures { result ≡ joins self.now i j }
    {
        match &self.rows {
            None => i != j,
            Some(rows) => rows.joins(i, j),
        }
    }

    /// How many neighbours i has.
    pub fn count(&self, i: u32) -> u32
        requires { i < length self.now }
        ensures { result ≡ length (neighbours self.now i) }
    {
        match &self.rows {
            None => whole_rank(self.size, i, self.size),
            Some(rows) => rows.count(i),
        }
    }

    /// The k-th neighbour of i, rising.
    pub fn nth(&self, i: u32, k: u32) -> Option<u32>
        requires { i < length self.now }
        ensures { result ≡ slice_get (neighbours self.now i) k }
    {
        match &self.rows {
            None => whole_nth(self.size, i, k),
            Some(rows) => rows.nth(i, k),
        }
    }

    /// How many neighbours of i stand in front of j.
    pub fn rank(&self, i: u32, j: u32) -> u32
        requires row { i < length self.now }
        requires column { j < length self.now }
        ensures { result ≡ length (filter (λ b. nat_lt b j) (neighbours self.now i)) }
    {
        match &self.rows {
            None => whole_rank(self.size, i, j),
            Some(rows) => rows.rank(i, j),
        }
    }

    /// The first neighbour of i at `from` or behind that is neither the place that is known nor one of its neighbours.
    pub fn next(&self, i: u32, known: Option<u32>, from: u32) -> Option<u32>
        requires row { i < length self.now }
        requires known { IfSome known (λ a. a < length self.now) }
        ensures { result ≡ slice_get (new_neighbours self.now i known from) 0 }
    {
        match &self.rows {
            None => {
                if known.is_some() {
                    None
                } else {
                    whole_next(self.size, i, from)
                }
            }
            Some(rows) => rows.next(i, known, from),
        }
    }

    /// How many neighbours of i are in a set of places.
    pub fn both(&self, i: u32, mask: &Mask) -> u32
        requires row { i < length self.now }
        requires same { length mask.now ≡ length self.now }
        ensures { result ≡ length (filter (λ j. get_or mask.now j false) (neighbours self.now i)) }
    {
        match &self.rows {
            None => whole_both(self.size, i, mask),
            Some(rows) => rows.both(i, mask),
        }
    }
}
