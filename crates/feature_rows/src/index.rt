//! Where rows stand, by identifier.

ghost use Rattle.std.specs.Prelude.{IfOk, length, map};
ghost use Rattle.feature_rows.specs.Entries.{AreRising, AreEntries, IsFront};

use crate::has_id::HasId;
use std::alloc::Global;
use venue_types::{FeatureId, OutOfMemory};

// An identifier, and the place of a row that has it. Entries are in the order of identifiers, then of places.
#[derive(Clone, Copy, Debug, PartialEq, Eq, PartialOrd, Ord)]
struct Entry {
    id: FeatureId,
    place: usize,
}

// The entries of these rows, in their order.
fn entries_of<R: HasId>(alloc: Global, rows: &[R]) -> Result<Vec<Entry>, OutOfMemory>
    ensures { IfOk result (λ entries. AreEntries (map R.id_of rows.now) (length rows.now) entries.items) }
{
    let mut entries = Vec::with_capacity(alloc, rows.len())?;
    for (place, row) in rows.iter().enumerate() {
        entries.push(Entry {
            id: row.id(),
            place,
        })?;
    }
    Ok(entries)
}

// How many of the entries have a lesser identifier: those in front.
fn lesser_count(entries: &[Entry], id: FeatureId) -> usize
    requires { AreRising entries.now }
    ensures { IsFront entries.now id result }
{
    entries.partition_point(|entry| entry.id.0 < id.0)
}

/// The places of some rows by their identifiers, in one sorted vector.
#[derive(Drop)]
pub struct Index {
    entries: Vec<Entry>,
    ghost rising: { AreRising entries.items },
}

impl Index {
    ghost use Rattle.std.specs.Prelude.{◌≡◌};
    ghost use Rattle.feature_rows.specs.Indexes.{IsIndex, place_of};

    /// The index of these rows. Where some have one identifier, the first of them counts. Takes n log n time.
    pub fn of<R: HasId>(alloc: Global, rows: &[R]) -> Result<Index, OutOfMemory>
        ensures { IfOk result (IsIndex (map R.id_of rows.now)) }
    {
        let mut entries = entries_of(alloc, rows)?;
        entries.sort_unstable();
        Ok(Index { entries })
    }

    /// The place of the first row that has this identifier, from 0. Takes log n time.
    pub fn place_of(&self, id: FeatureId) -> Option<usize>
        ensures { result ≡ place_of self.now id }
    {
        let first = self.entries.get(lesser_count(&self.entries, id))?;
        if first.id == id {
            Some(first.place)
        } else {
            None
        }
    }
}
