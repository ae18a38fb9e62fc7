//! On which levels features are.

ghost use Rattle.std.specs.Prelude.{◌≡◌, IfOk};
ghost use Rattle.std.specs.List.{find};
ghost use Rattle.std.specs.Option.{option_copied};
ghost use Rattle.std.proofs.Props.{props};
ghost use Rattle.link_graph.specs.Identity.{is_same};
ghost use Rattle.venue_build.specs.FirstRows.{FindsFirst, AreIndexes};

use crate::place_feature::PlaceFeature;
use imdf_read::{HasId, Index};
use std::alloc::Global;
use venue_types::{FeatureId, Features, List, OutOfMemory};

// The index of these rows.
fn index_of<R: HasId>(alloc: Global, rows: &[R]) -> Result<Index, OutOfMemory>
    ensures { IfOk result (FindsFirst R.id_of rows.now) }
{
    let index = Index::of(alloc, rows)?;
    Ok(index)
}

// The first of the rows that has this identifier.
fn first_row<'a, R: HasId>(rows: &'a List<R>, index: &Index, id: FeatureId) -> Option<&'a R>
    requires { FindsFirst R.id_of rows.now index.now }
    ensures { option_copied result ≡ find (λ row. is_same (R.id_of row) id) rows.now }
{
    let k = index.place_of(id)?;
    rows.get(k)
}

/// The features of a folder, with its levels, units and anchors by their identifiers.
#[derive(Drop)]
pub(crate) struct Ordinals<'a> {
    features: &'a Features,
    levels: Index,
    units: Index,
    anchors: Index,
    ghost indexes: { AreIndexes features.now levels units anchors } by { Prim.hlevel props },
}

impl<'a> Ordinals<'a> {
    ghost use Rattle.venue_build.specs.Places.{level_ordinal, unit_ordinal, anchor_ordinal, first_ordinal};
    ghost use Rattle.venue_build.specs.PlaceFeatures.{feature_ordinal};

    /// Those of these features. Takes n log n time.
    pub(crate) fn of(alloc: Global, features: &'a Features) -> Result<Ordinals<'a>, OutOfMemory>
        ensures { IfOk result (λ ordinals. ordinals.features.now ≡ features.now) }
    {
        let levels = index_of(alloc, features.levels.as_slice())?;
        let units = index_of(alloc, features.units.as_slice())?;
        let anchors = index_of(alloc, features.anchors.as_slice())?;
        Ok(Ordinals {
            features,
            levels,
            units,
            anchors,
        })
    }

    // The ordinal of a level.
    #[tactic(auto, unfolding(crate::specs::Places::level_ordinal))]
    fn of_level(&self, id: FeatureId) -> i16
        ensures { result ≡ level_ordinal self.now.features.now id }
    {
        match first_row(&self.features.levels, &self.levels, id) {
            None => 0,
            Some(row) => row.ordinal,
        }
    }

    // The ordinal of a unit's level.
    #[tactic(auto, unfolding(crate::specs::Places::unit_ordinal))]
    fn of_unit(&self, id: FeatureId) -> i16
        ensures { result ≡ unit_ordinal self.now.features.now id }
    {
        match first_row(&self.features.units, &self.units, id) {
            None => 0,
            Some(row) => self.of_level(row.level),
        }
    }

    // That of the first of these units.
    fn of_first(&self, ids: &[FeatureId]) -> i16
        ensures { result ≡ first_ordinal self.now.features.now ids.now }
    {
        match ids {
            [] => 0,
            [id, ..] => self.of_unit(*id),
        }
    }

    // That of an anchor's unit.
    #[tactic(auto, unfolding(crate::specs::Places::anchor_ordinal))]
    fn of_anchor(&self, id: FeatureId) -> i16
        ensures { result ≡ anchor_ordinal self.now.features.now id }
    {
        match first_row(&self.features.anchors, &self.anchors, id) {
            None => 0,
            Some(row) => self.of_unit(row.unit),
        }
    }

    /// The ordinal of the level that a place is on, in log n time.
    pub(crate) fn of_place(&self, feature: PlaceFeature<'_>) -> i16
        ensures { result ≡ feature_ordinal self.now.features.now feature.entry }
    {
        match feature {
            PlaceFeature::Amenity(row) => self.of_first(row.units.as_slice()),
            PlaceFeature::Anchor(row) => self.of_unit(row.unit),
            PlaceFeature::Occupant(row) => self.of_anchor(row.anchor),
            PlaceFeature::Opening(row) => self.of_level(row.level),
            PlaceFeature::Unit(row) => self.of_level(row.level),
        }
    }
}
