//! Where openings begin, level by level and from west to east.

ghost use Rattle.std.specs.Prelude.{◌≡◌, ◌≤◌, IfOk, All, Contains, length};
ghost use Rattle.venue_types.specs.declared.features.OpeningRow.{OpeningRow};
ghost use Rattle.opening_match.specs.Entries.{AreFirst, AreEntries, AreRising, HaveVertices};

use std::alloc::Global;
use venue_types::{FeatureId, OpeningRow, OutOfMemory, Point};

/// Where an opening begins: its level, its first vertex, and its place in the file. Entries are in the order of levels, then of
/// longitudes.
#[derive(Clone, Copy, Debug, PartialEq, Eq, PartialOrd, Ord)]
pub(crate) struct Entry {
    pub level: FeatureId,
    pub x: i64,
    pub y: i64,
    pub place: usize,
}

// The first vertex of an opening.
fn first_vertex(opening: &OpeningRow) -> Point
    requires { 2 ≤ length opening.now.line.points }
    ensures { Contains opening.now.line.points result }
{
    opening.line.points.as_slice()[0]
}

// The entries of these openings, in their order.
fn entries_of(alloc: Global, openings: &[OpeningRow]) -> Result<Vec<Entry>, OutOfMemory>
    requires { HaveVertices openings.now }
    ensures { IfOk result (λ entries. AreFirst openings.now (length openings.now) entries.items) }
{
    let mut entries = Vec::with_capacity(alloc, openings.len())?;
    for (place, opening) in openings.iter().enumerate() {
        let first = first_vertex(opening);
        entries.push(Entry {
            level: opening.level,
            x: first.x,
            y: first.y,
            place,
        })?;
    }
    Ok(entries)
}

/// The same, sorted. Takes n log n time.
pub(crate) fn sorted_entries(
    alloc: Global,
    openings: &[OpeningRow],
) -> Result<Vec<Entry>, OutOfMemory>
    requires { HaveVertices openings.now }
    ensures entries { IfOk result (λ entries. AreEntries openings.now entries.items) }
    ensures rising { IfOk result (λ entries. AreRising entries.items) }
{
    let mut entries = entries_of(alloc, openings)?;
    entries.sort_unstable();
    Ok(entries)
}
