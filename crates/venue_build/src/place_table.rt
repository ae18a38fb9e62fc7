//! What is kept of the places of a venue.

ghost use Rattle.std.specs.Prelude.{◌≡◌, ◌<◌, ◌≤◌, IfOk, Some, map, filter, length, slice_get};
ghost use Rattle.imdf_read.specs.Sound.{AreSound};
ghost use Rattle.link_graph.specs.Nodes.{walkable_units};
ghost use Rattle.venue_build.specs.PlaceFeatures.{feature_place};
ghost use Rattle.venue_build.specs.Places.{places};
ghost use Rattle.venue_build.specs.Placing.{ArePlaces, can_walk, place_id, place_ordinal, walkable_indexes};

use crate::ordinals::Ordinals;
use crate::place_feature::PlaceFeature;
use imdf_access::walkable;
use imdf_read::Index;
use rule_reports::add;
use std::alloc::Global;
use venue_types::{FeatureId, Features, OutOfMemory, UnitRow};

/// The places of a folder: their numbers by identifier, the ordinal of each, and the indexes of the units that end their list.
#[derive(Drop)]
pub(crate) struct Places {
    pub index: Index,
    pub ordinals: Vec<i16>,
    pub units: Vec<u32>,
}

impl Places {
    /// Those of these features. Takes n log n time, and some 40 bytes a place.
    pub(crate) fn of(alloc: Global, features: &Features) -> Result<Places, OutOfMemory>
        requires { AreSound features.now }
        ensures { IfOk result (ArePlaces features.now) }
    {
        let units = walkable_indexes(alloc, features.units.as_slice())?;
        let ids = ids_of(alloc, features, &units)?;
        let index = Index::of(alloc, ids.as_slice())?;
        let ordinals = ordinals_of(alloc, features, &units)?;
        Ok(Places {
            index,
            ordinals,
            units,
        })
    }
}

/// The feature that the place of this number is, by the indexes of the units that can be walked through.
pub(crate) fn feature_at<'a>(features: &'a Features, units: &[u32], n: usize) -> PlaceFeature<'a>
    requires few { length (places features.now) ≤ 100000 }
    requires units { units.now ≡ walkable_indexes features.now.units }
    requires there { n < length (places features.now) }
    ensures { slice_get (places features.now) n ≡ Some (feature_place features.now result) }
{
    if let Some(row) = features.amenities.get(n) {
        return PlaceFeature::Amenity(row);
    }
    let anchor = n - features.amenities.len();
    if let Some(row) = features.anchors.get(anchor) {
        return PlaceFeature::Anchor(row);
    }
    let occupant = anchor - features.anchors.len();
    if let Some(row) = features.occupants.get(occupant) {
        return PlaceFeature::Occupant(row);
    }
    let opening = occupant - features.occupants.len();
    if let Some(row) = features.openings.get(opening) {
        return PlaceFeature::Opening(row);
    }
    let unit = opening - features.openings.len();
    PlaceFeature::Unit(unit_at(features.units.as_slice(), units, unit))
}

// The unit of this number among those that can be walked through, by their indexes.
fn unit_at<'a>(units: &'a [UnitRow], indexes: &[u32], n: usize) -> &'a UnitRow
    requires few { length (filter can_walk units.now) ≤ 100000 }
    requires indexes { indexes.now ≡ walkable_indexes units.now }
    requires there { n < length (filter can_walk units.now) }
    ensures { slice_get (filter can_walk units.now) n ≡ Some result.now }
{
    let index = indexes[n];
    &units[index as usize]
}

// The indexes of the units that can be walked through.
fn walkable_indexes(alloc: Global, units: &[UnitRow]) -> Result<Vec<u32>, OutOfMemory>
    requires { length units.now ≤ 100000 }
    ensures { IfOk result (λ indexes. indexes.items ≡ walkable_indexes units.now) }
{
    let mut indexes = Vec::new(alloc);
    for (k, unit) in units.iter().enumerate() {
        add(&mut indexes, can_walk(unit), k as u32)?;
    }
    Ok(indexes)
}

fn can_walk(unit: &UnitRow) -> bool
    ensures { result ≡ can_walk unit.now }
{
    walkable(unit.category.as_str().as_bytes())
}

// How many places there are, of which so many are units.
fn place_count(features: &Features, units: usize) -> usize
    requires few { length (places features.now) ≤ 100000 }
    requires units { units ≡ length (walkable_units features.now) }
    ensures { result ≡ length (places features.now) }
{
    features.amenities.len()
        + features.anchors.len()
        + features.occupants.len()
        + features.openings.len()
        + units
}

// The identifiers of the places.
fn ids_of(alloc: Global, features: &Features, units: &[u32]) -> Result<Vec<FeatureId>, OutOfMemory>
    requires few { length (places features.now) ≤ 100000 }
    requires units { units.now ≡ walkable_indexes features.now.units }
    ensures { IfOk result (λ ids. ids.items ≡ map place_id (places features.now)) }
{
    let mut ids = Vec::new(alloc);
    for n in 0..place_count(features, units.len()) {
        ids.push(feature_at(features, units, n).id())?;
    }
    Ok(ids)
}

// The ordinals of the places.
fn ordinals_of(alloc: Global, features: &Features, units: &[u32]) -> Result<Vec<i16>, OutOfMemory>
    requires few { length (places features.now) ≤ 100000 }
    requires units { units.now ≡ walkable_indexes features.now.units }
    ensures { IfOk result (λ ordinals. ordinals.items ≡ map place_ordinal (places features.now)) }
{
    let known = Ordinals::of(alloc, features)?;
    let mut ordinals = Vec::new(alloc);
    for n in 0..place_count(features, units.len()) {
        ordinals.push(known.of_place(feature_at(features, units, n)))?;
    }
    Ok(ordinals)
}
