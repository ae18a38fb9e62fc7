//! The rows of each type: which property refers to what.

use crate::row::{HasReferences, References, id_or_null, object_or_null};
use imdf_schema::Property;
use venue_types::{
    AmenityRow, AnchorRow, BuildingRow, DetailRow, FeatureId, FixtureRow, FootprintRow, KioskRow,
    LevelRow, OccupantRow, OpeningRow, PlainRow, RelationshipRow, UnitRow, VenueRow,
};

impl HasReferences for AmenityRow {
    ghost use Rattle.imdf_refs.specs.References.{amenity_references};

    ghost id_of = { λ row. row.id };

    ghost references_of = { amenity_references };

    fn id(&self) -> FeatureId {
        self.id
    }

    fn references(&self, property: Property) -> References<'_> {
        match property {
            Property::AddressId => id_or_null(self.address),
            Property::UnitIds => References::Ids(self.units.as_slice()),
            _ => References::Nothing,
        }
    }
}

impl HasReferences for AnchorRow {
    ghost use Rattle.imdf_refs.specs.References.{anchor_references};

    ghost id_of = { λ row. row.id };

    ghost references_of = { anchor_references };

    fn id(&self) -> FeatureId {
        self.id
    }

    fn references(&self, property: Property) -> References<'_> {
        match property {
            Property::AddressId => id_or_null(self.address),
            Property::UnitId => References::Id(self.unit),
            _ => References::Nothing,
        }
    }
}

impl HasReferences for BuildingRow {
    ghost use Rattle.imdf_refs.specs.References.{building_references};

    ghost id_of = { λ row. row.id };

    ghost references_of = { building_references };

    fn id(&self) -> FeatureId {
        self.id
    }

    fn references(&self, property: Property) -> References<'_> {
        match property {
            Property::AddressId => id_or_null(self.address),
            _ => References::Nothing,
        }
    }
}

impl HasReferences for DetailRow {
    ghost use Rattle.imdf_refs.specs.References.{detail_references};

    ghost id_of = { λ row. row.id };

    ghost references_of = { detail_references };

    fn id(&self) -> FeatureId {
        self.id
    }

    fn references(&self, property: Property) -> References<'_> {
        match property {
            Property::LevelId => id_or_null(self.level),
            _ => References::Nothing,
        }
    }
}

impl HasReferences for FixtureRow {
    ghost use Rattle.imdf_refs.specs.References.{fixture_references};

    ghost id_of = { λ row. row.id };

    ghost references_of = { fixture_references };

    fn id(&self) -> FeatureId {
        self.id
    }

    fn references(&self, property: Property) -> References<'_> {
        match property {
            Property::LevelId => id_or_null(self.level),
            Property::AnchorId => id_or_null(self.anchor),
            _ => References::Nothing,
        }
    }
}

impl HasReferences for FootprintRow {
    ghost use Rattle.imdf_refs.specs.References.{footprint_references};

    ghost id_of = { λ row. row.id };

    ghost references_of = { footprint_references };

    fn id(&self) -> FeatureId {
        self.id
    }

    fn references(&self, property: Property) -> References<'_> {
        match property {
            Property::BuildingIds => References::Ids(self.buildings.as_slice()),
            _ => References::Nothing,
        }
    }
}

impl HasReferences for KioskRow {
    ghost use Rattle.imdf_refs.specs.References.{kiosk_references};

    ghost id_of = { λ row. row.id };

    ghost references_of = { kiosk_references };

    fn id(&self) -> FeatureId {
        self.id
    }

    fn references(&self, property: Property) -> References<'_> {
        match property {
            Property::LevelId => id_or_null(self.level),
            Property::AnchorId => id_or_null(self.anchor),
            _ => References::Nothing,
        }
    }
}

impl HasReferences for LevelRow {
    ghost use Rattle.imdf_refs.specs.References.{level_references};

    ghost id_of = { λ row. row.id };

    ghost references_of = { level_references };

    fn id(&self) -> FeatureId {
        self.id
    }

    fn references(&self, property: Property) -> References<'_> {
        match property {
            Property::AddressId => id_or_null(self.address),
            Property::BuildingIds => References::Ids(self.buildings.as_slice()),
            _ => References::Nothing,
        }
    }
}

impl HasReferences for OccupantRow {
    ghost use Rattle.imdf_refs.specs.References.{occupant_references};

    ghost id_of = { λ row. row.id };

    ghost references_of = { occupant_references };

    fn id(&self) -> FeatureId {
        self.id
    }

    fn references(&self, property: Property) -> References<'_> {
        match property {
            Property::AnchorId => References::Id(self.anchor),
            _ => References::Nothing,
        }
    }
}

impl HasReferences for OpeningRow {
    ghost use Rattle.imdf_refs.specs.References.{opening_references};

    ghost id_of = { λ row. row.id };

    ghost references_of = { opening_references };

    fn id(&self) -> FeatureId {
        self.id
    }

    fn references(&self, property: Property) -> References<'_> {
        match property {
            Property::LevelId => References::Id(self.level),
            _ => References::Nothing,
        }
    }
}

impl HasReferences for RelationshipRow {
    ghost use Rattle.imdf_refs.specs.References.{relationship_references};

    ghost id_of = { λ row. row.id };

    ghost references_of = { relationship_references };

    fn id(&self) -> FeatureId {
        self.id
    }

    fn references(&self, property: Property) -> References<'_> {
        match property {
            Property::Origin => object_or_null(self.origin),
            Property::Intermediary => References::Objects(self.between.as_slice()),
            Property::Destination => object_or_null(self.destination),
            _ => References::Nothing,
        }
    }
}

impl HasReferences for UnitRow {
    ghost use Rattle.imdf_refs.specs.References.{unit_references};

    ghost id_of = { λ row. row.id };

    ghost references_of = { unit_references };

    fn id(&self) -> FeatureId {
        self.id
    }

    fn references(&self, property: Property) -> References<'_> {
        match property {
            Property::LevelId => References::Id(self.level),
            _ => References::Nothing,
        }
    }
}

impl HasReferences for VenueRow {
    ghost use Rattle.imdf_refs.specs.References.{venue_references};

    ghost id_of = { λ row. row.id };

    ghost references_of = { venue_references };

    fn id(&self) -> FeatureId {
        self.id
    }

    fn references(&self, property: Property) -> References<'_> {
        match property {
            Property::AddressId => id_or_null(self.address),
            _ => References::Nothing,
        }
    }
}

impl HasReferences for PlainRow {
    ghost use Rattle.std.specs.Prelude.{[]};

    ghost id_of = { λ row. row.id };

    ghost references_of = { λ property row. [] };

    fn id(&self) -> FeatureId {
        self.id
    }

    fn references(&self, _property: Property) -> References<'_> {
        References::Nothing
    }
}
