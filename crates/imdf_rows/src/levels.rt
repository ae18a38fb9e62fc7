//! The rows of levels and units.

use crate::display::display_field;
use crate::feature_row::FeatureRow;
use crate::figure::{Figure, into_shape};
use crate::members::{all_named, always_named, id_in, labels_in, named, text_in};
use crate::ordinals::ordinal_field;
use exact_json::Tree;
use imdf_schema::{Property, is_null, property, unlisted_property};
use std::alloc::Global;
use venue_types::{LevelRow, OutOfMemory, UnitRow};

impl FeatureRow for LevelRow {
    ghost use Rattle.venue_types.specs.declared.folder_file.Geometry.TheVariants as kind;
    ghost use Rattle.imdf_rows.specs.Rows.{IsLevelRow};

    ghost geometry = { kind.Shape };

    ghost is_row = { IsLevelRow };

    fn read_row(alloc: Global, item: &Tree, figure: Figure) -> Result<LevelRow, OutOfMemory> {
        Ok(LevelRow {
            id: id_in(item),
            address: named(item, Property::AddressId),
            buildings: all_named(alloc, item, Property::BuildingIds)?,
            ordinal: ordinal_field(unlisted_property(item, b"ordinal")),
            shape: into_shape(alloc, figure),
        })
    }
}

impl FeatureRow for UnitRow {
    ghost use Rattle.venue_types.specs.declared.folder_file.Geometry.TheVariants as kind;
    ghost use Rattle.imdf_rows.specs.Rows.{IsUnitRow};

    ghost geometry = { kind.Shape };

    ghost is_row = { IsUnitRow };

    fn read_row(alloc: Global, item: &Tree, figure: Figure) -> Result<UnitRow, OutOfMemory> {
        Ok(UnitRow {
            id: id_in(item),
            level: always_named(item, Property::LevelId),
            shape: into_shape(alloc, figure),
            display: display_field(property(item, Property::DisplayPoint)),
            category: text_in(alloc, item, Property::Category)?,
            restricted: !is_null(property(item, Property::Restriction)),
            name: labels_in(alloc, item)?,
        })
    }
}
