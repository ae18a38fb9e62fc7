//! Which openings touch a unit.

ghost use Rattle.std.specs.Prelude.{◌<◌, ◌≤◌, ◌↔◌, IsTrue, IfOk, All, length};
ghost use Rattle.plane_exact.specs.Figure.{IsNear};
ghost use Rattle.opening_match.specs.declared.entries.Entry.{Entry};
ghost use Rattle.opening_match.specs.Around.{AreCandidates};
ghost use Rattle.opening_match.specs.Entries.{AreApart, AreRising};
ghost use Rattle.opening_match.specs.Frames.{IsAtHeight};
ghost use Rattle.opening_match.specs.Places.{ArePlaces, AreDistinct};
ghost use Rattle.opening_match.specs.Starts.{AreStarts};
ghost use Rattle.opening_match.specs.Trees.{IsTree, IsTreeOf};
ghost use Rattle.venue_nodes.specs.TouchCounts.{AreMatches};
ghost use Rattle.opening_match.specs.Matches.{AreNearbyTo, AreBeside, RunsAlong};

use crate::around::{Sought, add_around};
use crate::edges::edges_of;
use crate::entries::Entry;
use crate::frame::{Frame, frame_of};
use crate::starts::Starts;
use crate::stretches::stretch_of;
use crate::trees::{Branch, Tree};
use plane_trees::{Bands, near_line_law};
use std::alloc::Global;
use venue_types::{OpeningRow, OutOfMemory, Point, UnitRow};

// How many entries are looked at one by one. A tree is slower for so many.
const FEW: usize = 512;

// Whether each position is near the border.
fn are_near(bands: &Bands, tolerance: u32, points: &[Point]) -> bool
    requires close { AreNearbyTo bands.now points.now }
    requires range { tolerance ≤ 100000 }
    ensures { IsTrue result ↔ All (λ p. IsNear p bands.now tolerance) points.now }
{
    points.iter().all(|p| bands.near(*p, tolerance))
}

// Those of these openings all of whose vertices are near the border.
fn places_along(
    alloc: Global,
    openings: &[OpeningRow],
    bands: &Bands,
    tolerance: u32,
    places: &[usize],
) -> Result<Vec<usize>, OutOfMemory>
    requires distinct { AreDistinct places.now }
    requires close { AreBeside bands.now openings.now }
    requires range { tolerance ≤ 100000 }
    requires within { All (λ o. o < length openings.now) places.now }
    ensures { IfOk result (λ found. ArePlaces (λ o. o) (RunsAlong tolerance openings.now bands.now) places.now found.items) }
{
    let mut found = Vec::new(alloc);
    for place in places {
        if are_near(bands, tolerance, openings[*place].line.points.as_slice()) {
            found.push(*place)?;
        }
    }
    Ok(found)
}

/// The openings that touch a unit, by their places, each once.
///
/// Makes bands of the unit only where some opening may touch it.
pub(crate) fn matches_of(
    alloc: Global,
    openings: &[OpeningRow],
    starts: &Starts,
    unit: &UnitRow,
    tolerance: u32,
) -> Result<Vec<usize>, OutOfMemory>
    requires starts { AreStarts openings.now starts.now }
    requires close { AreBeside unit.now.shape openings.now }
    requires range { tolerance ≤ 100000 }
    ensures { IfOk result (λ found. AreMatches tolerance openings.now unit.now found.items) }
{
    let places = places_near(alloc, starts, unit, tolerance)?;
    if places.is_empty() {
        return Ok(places);
    }
    let bands = Bands::of(alloc, &unit.shape)?;
    places_along(alloc, openings, &bands, tolerance, &places)
}

// The places of some openings of the unit's level, and among them of those that begin near its border: where few begin between its west
// and its east, of those that begin in its frame, else of those that the tree has near its edges.
fn places_near(
    alloc: Global,
    starts: &Starts,
    unit: &UnitRow,
    tolerance: u32,
) -> Result<Vec<usize>, OutOfMemory>
    requires rising { AreRising starts.now.entries.items }
    requires apart { AreApart starts.now.entries.items }
    requires tree { IsTreeOf starts.now.entries.items starts.now.tree }
    requires range { tolerance ≤ 100000 }
    ensures { IfOk result (λ places. AreCandidates tolerance unit.now starts.now.entries.items places.items) }
{
    near_line_law();
    let frame = frame_of(&unit.shape);
    let stretch = stretch_of(starts.entries.as_slice(), unit.level, frame, tolerance);
    if stretch.len() <= FEW {
        places_at_height(alloc, stretch, frame, tolerance)
    } else {
        places_around(alloc, &starts.tree, unit, tolerance)
    }
}

// The places of those of the entries whose latitude a frame has, within the tolerance.
fn places_at_height(
    alloc: Global,
    entries: &[Entry],
    frame: Frame,
    tolerance: u32,
) -> Result<Vec<usize>, OutOfMemory>
    requires { AreApart entries.now }
    ensures { IfOk result (λ places. ArePlaces (λ (e : Entry). e.place) (λ (e : Entry). IsAtHeight frame tolerance e.y) entries.now places.items) }
{
    let mut places = Vec::new(alloc);
    for entry in entries {
        if frame.is_at_height(tolerance, entry) {
            places.push(entry.place)?;
        }
    }
    Ok(places)
}

// The places of some entries of the unit's level, and among them of those near its border, by the tree.
fn places_around(
    alloc: Global,
    tree: &Tree,
    unit: &UnitRow,
    tolerance: u32,
) -> Result<Vec<usize>, OutOfMemory>
    requires sound { IsTree tree.now.depth tree.now.extents.items tree.now.entries.items }
    requires apart { AreApart tree.now.entries.items }
    requires range { tolerance ≤ 100000 }
    ensures { IfOk result (λ places. AreCandidates tolerance unit.now tree.now.entries.items places.items) }
{
    let edges = edges_of(alloc, &unit.shape)?;
    let sought = Sought {
        level: unit.level,
        edges: edges.as_slice(),
        tolerance,
    };
    let branch = Branch {
        depth: tree.depth,
        extents: tree.extents.as_slice(),
        entries: tree.entries.as_slice(),
    };
    let mut places = Vec::new(alloc);
    add_around(&sought, branch, &mut places)?;
    Ok(places)
}
