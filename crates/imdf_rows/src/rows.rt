//! The rows of features whose fields are identifiers, texts, names and figures.

use crate::feature_row::FeatureRow;
use crate::figure::{Figure, into_point, into_shape};
use crate::members::{all_named, always_named, id_in, labels_in, named, text_in};
use exact_json::Tree;
use imdf_schema::Property;
use std::alloc::Global;
use venue_types::{
    AmenityRow, AnchorRow, BuildingRow, DetailRow, FixtureRow, FootprintRow, KioskRow, OccupantRow,
    OutOfMemory, PlainRow, VenueRow,
};

impl FeatureRow for PlainRow {
    ghost use Rattle.venue_types.specs.declared.folder_file.Geometry.TheVariants as kind;
    ghost use Rattle.imdf_rows.specs.Rows.{IsPlainRow};

    ghost geometry = { kind.Unjudged };

    ghost is_row = { IsPlainRow };

    fn read_row(_alloc: Global, item: &Tree, _figure: Figure) -> Result<PlainRow, OutOfMemory> {
        Ok(PlainRow { id: id_in(item) })
    }
}

impl FeatureRow for AmenityRow {
    ghost use Rattle.venue_types.specs.declared.folder_file.Geometry.TheVariants as kind;
    ghost use Rattle.imdf_rows.specs.Rows.{IsAmenityRow};

    ghost geometry = { kind.Point };

    ghost is_row = { IsAmenityRow };

    fn read_row(alloc: Global, item: &Tree, figure: Figure) -> Result<AmenityRow, OutOfMemory> {
        Ok(AmenityRow {
            id: id_in(item),
            address: named(item, Property::AddressId),
            units: all_named(alloc, item, Property::UnitIds)?,
            point: into_point(figure),
            category: text_in(alloc, item, Property::Category)?,
            name: labels_in(alloc, item)?,
        })
    }
}

impl FeatureRow for AnchorRow {
    ghost use Rattle.venue_types.specs.declared.folder_file.Geometry.TheVariants as kind;
    ghost use Rattle.imdf_rows.specs.Rows.{IsAnchorRow};

    ghost geometry = { kind.Point };

    ghost is_row = { IsAnchorRow };

    fn read_row(_alloc: Global, item: &Tree, figure: Figure) -> Result<AnchorRow, OutOfMemory> {
        Ok(AnchorRow {
            id: id_in(item),
            address: named(item, Property::AddressId),
            unit: always_named(item, Property::UnitId),
            point: into_point(figure),
        })
    }
}

impl FeatureRow for BuildingRow {
    ghost use Rattle.venue_types.specs.declared.folder_file.Geometry.TheVariants as kind;
    ghost use Rattle.imdf_rows.specs.Rows.{IsBuildingRow};

    ghost geometry = { kind.Null };

    ghost is_row = { IsBuildingRow };

    fn read_row(_alloc: Global, item: &Tree, _figure: Figure) -> Result<BuildingRow, OutOfMemory> {
        Ok(BuildingRow {
            id: id_in(item),
            address: named(item, Property::AddressId),
        })
    }
}

impl FeatureRow for DetailRow {
    ghost use Rattle.venue_types.specs.declared.folder_file.Geometry.TheVariants as kind;
    ghost use Rattle.imdf_rows.specs.Rows.{IsDetailRow};

    ghost geometry = { kind.Unjudged };

    ghost is_row = { IsDetailRow };

    fn read_row(_alloc: Global, item: &Tree, _figure: Figure) -> Result<DetailRow, OutOfMemory> {
        Ok(DetailRow {
            id: id_in(item),
            level: named(item, Property::LevelId),
        })
    }
}

impl FeatureRow for FixtureRow {
    ghost use Rattle.venue_types.specs.declared.folder_file.Geometry.TheVariants as kind;
    ghost use Rattle.imdf_rows.specs.Rows.{IsFixtureRow};

    ghost geometry = { kind.Shape };

    ghost is_row = { IsFixtureRow };

    fn read_row(alloc: Global, item: &Tree, figure: Figure) -> Result<FixtureRow, OutOfMemory> {
        Ok(FixtureRow {
            id: id_in(item),
            level: named(item, Property::LevelId),
            anchor: named(item, Property::AnchorId),
            shape: into_shape(alloc, figure),
        })
    }
}

impl FeatureRow for FootprintRow {
    ghost use Rattle.venue_types.specs.declared.folder_file.Geometry.TheVariants as kind;
    ghost use Rattle.imdf_rows.specs.Rows.{IsFootprintRow};

    ghost geometry = { kind.Shape };

    ghost is_row = { IsFootprintRow };

    fn read_row(alloc: Global, item: &Tree, figure: Figure) -> Result<FootprintRow, OutOfMemory> {
        Ok(FootprintRow {
            id: id_in(item),
            buildings: all_named(alloc, item, Property::BuildingIds)?,
            shape: into_shape(alloc, figure),
        })
    }
}

impl FeatureRow for KioskRow {
    ghost use Rattle.venue_types.specs.declared.folder_file.Geometry.TheVariants as kind;
    ghost use Rattle.imdf_rows.specs.Rows.{IsKioskRow};

    ghost geometry = { kind.Unjudged };

    ghost is_row = { IsKioskRow };

    fn read_row(_alloc: Global, item: &Tree, _figure: Figure) -> Result<KioskRow, OutOfMemory> {
        Ok(KioskRow {
            id: id_in(item),
            level: named(item, Property::LevelId),
            anchor: named(item, Property::AnchorId),
        })
    }
}

impl FeatureRow for OccupantRow {
    ghost use Rattle.venue_types.specs.declared.folder_file.Geometry.TheVariants as kind;
    ghost use Rattle.imdf_rows.specs.Rows.{IsOccupantRow};

    ghost geometry = { kind.Null };

    ghost is_row = { IsOccupantRow };

    fn read_row(alloc: Global, item: &Tree, _figure: Figure) -> Result<OccupantRow, OutOfMemory> {
        Ok(OccupantRow {
            id: id_in(item),
            anchor: always_named(item, Property::AnchorId),
            name: labels_in(alloc, item)?,
        })
    }
}

impl FeatureRow for VenueRow {
    ghost use Rattle.venue_types.specs.declared.folder_file.Geometry.TheVariants as kind;
    ghost use Rattle.imdf_rows.specs.Rows.{IsVenueRow};

    ghost geometry = { kind.Shape };

    ghost is_row = { IsVenueRow };

    fn read_row(alloc: Global, item: &Tree, figure: Figure) -> Result<VenueRow, OutOfMemory> {
        Ok(VenueRow {
            id: id_in(item),
            address: named(item, Property::AddressId),
            shape: into_shape(alloc, figure),
        })
    }
}
