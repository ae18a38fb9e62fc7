//! A place by the feature that it is.

ghost use Rattle.std.specs.Prelude.{◌≡◌, IfOk};

use std::alloc::Global;
use venue_types::{
    AmenityRow, AnchorRow, Class, FeatureId, Label, List, OccupantRow, OpeningRow, OutOfMemory,
    PlaceRow, UnitRow,
};

/// The feature that a place is.
#[derive(Clone, Copy)]
pub(crate) enum PlaceFeature<'a> {
    Amenity(&'a AmenityRow),
    Anchor(&'a AnchorRow),
    Occupant(&'a OccupantRow),
    Opening(&'a OpeningRow),
    Unit(&'a UnitRow),
}

impl<'a> PlaceFeature<'a> {
    ghost use Rattle.venue_build.specs.PlaceFeatures.{feature_id, feature_class, feature_name, place_on};

    /// Its identifier.
    pub(crate) fn id(self) -> FeatureId
        ensures { result ≡ feature_id self.entry }
    {
        match self {
            PlaceFeature::Amenity(row) => row.id,
            PlaceFeature::Anchor(row) => row.id,
            PlaceFeature::Occupant(row) => row.id,
            PlaceFeature::Opening(row) => row.id,
            PlaceFeature::Unit(row) => row.id,
        }
    }

    fn class(self) -> Class
        ensures { result ≡ feature_class self.entry }
    {
        match self {
            PlaceFeature::Amenity(_) => Class::Amenity,
            PlaceFeature::Anchor(_) => Class::Anchor,
            PlaceFeature::Occupant(_) => Class::Occupant,
            PlaceFeature::Opening(_) => Class::Opening,
            PlaceFeature::Unit(_) => Class::Unit,
        }
    }

    // Its name in each language, which anchors and openings don't have.
    fn name(self) -> &'a [Label]
        ensures { result.now ≡ feature_name self.entry }
    {
        match self {
            PlaceFeature::Amenity(row) => row.name.as_slice(),
            PlaceFeature::Anchor(_) | PlaceFeature::Opening(_) => &[],
            PlaceFeature::Occupant(row) => row.name.as_slice(),
            PlaceFeature::Unit(row) => row.name.as_slice(),
        }
    }

    /// The place, on a level of this ordinal. Takes memory for its names alone.
    pub(crate) fn place(self, alloc: Global, ordinal: i16) -> Result<PlaceRow, OutOfMemory>
        ensures { IfOk result (λ row. row ≡ place_on ordinal self.entry) }
    {
        let name = copied(alloc, self.name())?;
        Ok(PlaceRow {
            id: self.id(),
            class: self.class(),
            ordinal,
            name,
        })
    }
}

// Equal labels of their own.
fn copied(alloc: Global, labels: &[Label]) -> Result<List<Label>, OutOfMemory>
    ensures { IfOk result (λ copies. copies ≡ labels.now) }
{
    let mut copies = List::new(alloc);
    for label in labels {
        let copy = label.copy(alloc)?;
        copies.push(copy)?;
    }
    Ok(copies)
}
