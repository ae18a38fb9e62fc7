//! The units that can be walked through, by their identifiers.

ghost use Rattle.std.specs.Prelude.{◌≡◌, ◌≤◌, ◌<◌, ◌++◌, ◌^◌, IfOk, OnOk, map, filter, length};
ghost use Rattle.std.specs.List.{filter_map};
ghost use Rattle.std.specs.Option.{option_to_list, ForSome};
ghost use Rattle.feature_rows.specs.Indexes.{AreOnce, place_of};
ghost use Rattle.venue_nodes.specs.Members.{places_where};
ghost use Rattle.venue_nodes.specs.Naming.{AreKnown, AreWalkables, can_walk, numbers, unit_id};

use feature_rows::{Index, index_law};
use imdf_access::walkable;
use rule_reports::add;
use std::alloc::Global;
use venue_types::{FeatureId, OutOfMemory, UnitRow};

/// The walkable units, numbered from 0 in file order.
#[derive(Drop)]
pub(crate) struct Walkables {
    /// Their identifiers.
    pub ids: Vec<FeatureId>,
    /// Their indexes among all units.
    pub indexes: Vec<u32>,
    /// Their numbers by identifier.
    pub places: Index,
}

impl Walkables {
    /// Those among the units. Takes n log n time.
    pub(crate) fn of(alloc: Global, units: &[UnitRow]) -> Result<Walkables, OutOfMemory>
        requires once { AreOnce (map unit_id units.now) }
        requires few { length units.now ≤ 100000 }
        ensures { IfOk result (AreWalkables units.now) }
    {
        let ids = ids_of(alloc, units)?;
        let indexes = indexes_of(alloc, units)?;
        let places = Index::of(alloc, ids.as_slice())?;
        Ok(Walkables {
            ids,
            indexes,
            places,
        })
    }

    /// The numbers of the units that are named, rising, each once.
    pub(crate) fn numbers(&self, alloc: Global, ids: &[FeatureId]) -> Result<Vec<u32>, OutOfMemory>
        requires { AreKnown self.now }
        ensures { IfOk result (λ found. found.items ≡ numbers self.now.ids.items ids.now) }
    {
        index_law();
        let mut found = self.found(alloc, ids)?;
        found.sort_unstable();
        found.dedup();
        Ok(found)
    }

    // The number of each that is walkable, in the order of the identifiers.
    fn found(&self, alloc: Global, ids: &[FeatureId]) -> Result<Vec<u32>, OutOfMemory>
        requires { AreKnown self.now }
        ensures { IfOk result (λ found. found.items ≡ filter_map (place_of self.now.places) ids.now) }
    {
        let mut found = Vec::new(alloc);
        for id in ids {
            add_place(&mut found, self.places.place_of(*id))?;
        }
        Ok(found)
    }
}

// Adds the place, if there is one.
fn add_place(found: &mut Vec<u32>, place: Option<usize>) -> Result<(), OutOfMemory>
    requires { ForSome place (λ k. k < 2 ^ 32) }
    ensures { OnOk result (found.new.items ≡ found.old.items ++ option_to_list place) }
{
    if let Some(k) = place {
        found.push(k as u32)?;
    }
    Ok(())
}

// The identifiers of the walkable ones.
fn ids_of(alloc: Global, units: &[UnitRow]) -> Result<Vec<FeatureId>, OutOfMemory>
    ensures { IfOk result (λ ids. ids.items ≡ map unit_id (filter can_walk units.now)) }
{
    let mut ids = Vec::new(alloc);
    for unit in units {
        if can_walk(unit) {
            ids.push(unit.id)?;
        }
    }
    Ok(ids)
}

// The indexes of the walkable ones.
fn indexes_of(alloc: Global, units: &[UnitRow]) -> Result<Vec<u32>, OutOfMemory>
    requires { length units.now ≤ 100000 }
    ensures { IfOk result (λ indexes. indexes.items ≡ places_where can_walk 0 units.now) }
{
    let mut indexes = Vec::new(alloc);
    for (k, unit) in units.iter().enumerate() {
        add(&mut indexes, can_walk(unit), k as u32)?;
    }
    Ok(indexes)
}

/// Whether the unit can be walked through.
pub(crate) fn can_walk(unit: &UnitRow) -> bool
    ensures { result ≡ can_walk unit.now }
{
    walkable(unit.category.as_str().as_bytes())
}
