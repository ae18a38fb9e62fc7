//! Which openings begin near some edges.

ghost use Rattle.std.specs.Prelude.{◌≡◌, ◌≤◌, IsTrue, OnOk, Contains};
ghost use Rattle.opening_match.specs.declared.edges.Edge.{Edge};
ghost use Rattle.opening_match.specs.declared.entries.Entry.{Entry};
ghost use Rattle.opening_match.specs.Around.{AddsAround, AddsOfLevel};
ghost use Rattle.opening_match.specs.Edges.{IsAtEdge};
ghost use Rattle.opening_match.specs.Entries.{AreApart, start_of};
ghost use Rattle.opening_match.specs.Extents.{IsInBox};
ghost use Rattle.opening_match.specs.Trees.{IsSound};

use crate::edges::Edge;
use crate::entries::Entry;
use crate::extents::Extent;
use crate::trees::{Branch, halves};
use venue_types::{FeatureId, OutOfMemory};

// A border is asked about an opening in the time in which so many edges are asked about an extent, or more.
const EDGES_A_QUESTION: usize = 16;

/// What is looked for: openings of a level that begin within a tolerance of some edges.
#[derive(Clone, Copy)]
pub(crate) struct Sought<'a> {
    pub level: FeatureId,
    pub edges: &'a [Edge],
    pub tolerance: u32,
}

/// Adds the places of some openings of the branch, all of the level, and among them those that are sought.
///
/// Looks at the extents that the edges come near, half by half, as long as a half has entries enough for that.
pub(crate) fn add_around(
    sought: &Sought,
    branch: Branch,
    places: &mut Vec<usize>,
) -> Result<(), OutOfMemory>
    requires sound { IsSound branch }
    requires apart { AreApart branch.entries.now }
    requires range { sought.now.tolerance ≤ 100000 }
    ensures { OnOk result (AddsAround sought.now branch.entry.entries.now places.old.items places.new.items) }
{
    if branch.entries.len() <= sought.edges.len() / EDGES_A_QUESTION {
        return add_level(sought.level, branch.entries, places);
    }
    if !may_have(sought, branch) {
        return Ok(());
    }
    match halves(branch) {
        None => add_level(sought.level, branch.entries, places),
        Some((front, back)) => {
            add_around(sought, front, places)?;
            add_around(sought, back, places)
        }
    }
}

// Whether the branch has the level, and some edge comes near its extent.
fn may_have(sought: &Sought, branch: Branch) -> bool
    requires sound { IsSound branch }
    requires range { sought.now.tolerance ≤ 100000 }
    ensures { (e : Entry) (edge : Edge) → Contains branch.entry.entries.now e → e.level ≡ sought.now.level → Contains sought.now.edges.now edge → IsAtEdge sought.now.tolerance e edge → IsTrue result }
{
    match branch.extents {
        [] => true,
        [extent, ..] => extent.has_level(sought.level) && some_comes_near(sought, extent),
    }
}

// Whether some of the edges comes near the extent.
fn some_comes_near(sought: &Sought, extent: &Extent) -> bool
    requires { sought.now.tolerance ≤ 100000 }
    ensures { (e : Entry) (edge : Edge) → IsInBox extent.now (start_of e) → Contains sought.now.edges.now edge → IsAtEdge sought.now.tolerance e edge → IsTrue result }
{
    for edge in sought.edges {
        if edge.comes_near(extent, sought.tolerance) {
            return true;
        }
    }
    false
}

// Adds the places of the entries of the level.
fn add_level(
    level: FeatureId,
    entries: &[Entry],
    places: &mut Vec<usize>,
) -> Result<(), OutOfMemory>
    requires { AreApart entries.now }
    ensures { OnOk result (AddsOfLevel level entries.now places.old.items places.new.items) }
{
    for entry in entries {
        if entry.level.0 == level.0 {
            places.push(entry.place)?;
        }
    }
    Ok(())
}
