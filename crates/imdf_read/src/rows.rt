//! The rows of a folder, file after file.

ghost use Rattle.std.specs.Prelude.{◌≡◌, OnOk, IfOk, length};
ghost use Rattle.imdf_rows.specs.Rows.{IsAmenityRow, IsAnchorRow, IsBuildingRow, IsDetailRow, IsFixtureRow, IsFootprintRow, IsKioskRow, IsLevelRow, IsOccupantRow, IsOpeningRow, IsPlainRow, IsRelationshipRow, IsUnitRow, IsVenueRow};
ghost use Rattle.venue_types.specs.declared.folder_file.File.TheVariants as file;
ghost use Rattle.imdf_read.specs.Progress.{IsUpTo, HasRows, HaveRows};

use crate::progress::{Progress, read_next_file};
use imdf_schema::File;
use std::alloc::Global;
use venue_types::{
    AmenityRow, AnchorRow, BuildingRow, DetailRow, Features, FixtureRow, FootprintRow, KioskRow,
    LevelRow, List, OccupantRow, OpeningRow, OutOfMemory, PlainRow, RelationshipRow, Slot, UnitRow,
    VenueRow,
};

fn addresses_to_buildings(
    alloc: Global,
    progress: &mut Progress,
    slots: &[Slot],
) -> Result<
    (
        List<PlainRow>,
        List<AmenityRow>,
        List<AnchorRow>,
        List<BuildingRow>,
    ),
    OutOfMemory,
>
    requires { length slots.now ≡ 17 }
    ensures progress { OnOk result (IsUpTo slots.now 0 progress.old → IsUpTo slots.now 4 progress.new) }
    ensures rows { IfOk result (λ t. HasRows IsPlainRow slots.now file.Address t.0 × HasRows IsAmenityRow slots.now file.Amenity t.1 × HasRows IsAnchorRow slots.now file.Anchor t.2 × HasRows IsBuildingRow slots.now file.Building t.3) }
{
    let addresses = read_next_file(alloc, progress, slots, File::Address)?;
    let amenities = read_next_file(alloc, progress, slots, File::Amenity)?;
    let anchors = read_next_file(alloc, progress, slots, File::Anchor)?;
    let buildings = read_next_file(alloc, progress, slots, File::Building)?;
    Ok((addresses, amenities, anchors, buildings))
}

fn details_to_geofences(
    alloc: Global,
    progress: &mut Progress,
    slots: &[Slot],
) -> Result<
    (
        List<DetailRow>,
        List<FixtureRow>,
        List<FootprintRow>,
        List<PlainRow>,
    ),
    OutOfMemory,
>
    requires { length slots.now ≡ 17 }
    ensures progress { OnOk result (IsUpTo slots.now 4 progress.old → IsUpTo slots.now 8 progress.new) }
    ensures rows { IfOk result (λ t. HasRows IsDetailRow slots.now file.Detail t.0 × HasRows IsFixtureRow slots.now file.Fixture t.1 × HasRows IsFootprintRow slots.now file.Footprint t.2 × HasRows IsPlainRow slots.now file.Geofence t.3) }
{
    let details = read_next_file(alloc, progress, slots, File::Detail)?;
    let fixtures = read_next_file(alloc, progress, slots, File::Fixture)?;
    let footprints = read_next_file(alloc, progress, slots, File::Footprint)?;
    let geofences = read_next_file(alloc, progress, slots, File::Geofence)?;
    Ok((details, fixtures, footprints, geofences))
}

fn kiosks_to_openings(
    alloc: Global,
    progress: &mut Progress,
    slots: &[Slot],
) -> Result<
    (
        List<KioskRow>,
        List<LevelRow>,
        List<OccupantRow>,
        List<OpeningRow>,
    ),
    OutOfMemory,
>
    requires { length slots.now ≡ 17 }
    ensures progress { OnOk result (IsUpTo slots.now 8 progress.old → IsUpTo slots.now 12 progress.new) }
    ensures rows { IfOk result (λ t. HasRows IsKioskRow slots.now file.Kiosk t.0 × HasRows IsLevelRow slots.now file.Level t.1 × HasRows IsOccupantRow slots.now file.Occupant t.2 × HasRows IsOpeningRow slots.now file.Opening t.3) }
{
    let kiosks = read_next_file(alloc, progress, slots, File::Kiosk)?;
    let levels = read_next_file(alloc, progress, slots, File::Level)?;
    let occupants = read_next_file(alloc, progress, slots, File::Occupant)?;
    let openings = read_next_file(alloc, progress, slots, File::Opening)?;
    Ok((kiosks, levels, occupants, openings))
}

fn relationships_to_venues(
    alloc: Global,
    progress: &mut Progress,
    slots: &[Slot],
) -> Result<
    (
        List<RelationshipRow>,
        List<PlainRow>,
        List<UnitRow>,
        List<VenueRow>,
    ),
    OutOfMemory,
>
    requires { length slots.now ≡ 17 }
    ensures progress { OnOk result (IsUpTo slots.now 12 progress.old → IsUpTo slots.now 16 progress.new) }
    ensures rows { IfOk result (λ t. HasRows IsRelationshipRow slots.now file.Relationship t.0 × HasRows IsPlainRow slots.now file.Section t.1 × HasRows IsUnitRow slots.now file.Unit t.2 × HasRows IsVenueRow slots.now file.Venue t.3) }
{
    let relationships = read_next_file(alloc, progress, slots, File::Relationship)?;
    let sections = read_next_file(alloc, progress, slots, File::Section)?;
    let units = read_next_file(alloc, progress, slots, File::Unit)?;
    let venues = read_next_file(alloc, progress, slots, File::Venue)?;
    Ok((relationships, sections, units, venues))
}

/// The rows of all feature files.
pub(crate) fn read_rows(
    alloc: Global,
    progress: &mut Progress,
    slots: &[Slot],
) -> Result<Features, OutOfMemory>
    requires { length slots.now ≡ 17 }
    ensures progress { OnOk result (IsUpTo slots.now 0 progress.old → IsUpTo slots.now 16 progress.new) }
    ensures rows { IfOk result (HaveRows slots.now) }
{
    let (addresses, amenities, anchors, buildings) = addresses_to_buildings(
        alloc, progress, slots,
    )?;
    let (details, fixtures, footprints, geofences) = details_to_geofences(alloc, progress, slots)?;
    let (kiosks, levels, occupants, openings) = kiosks_to_openings(alloc, progress, slots)?;
    let (relationships, sections, units, venues) = relationships_to_venues(alloc, progress, slots)?;
    Ok(Features {
        addresses,
        amenities,
        anchors,
        buildings,
        details,
        fixtures,
        footprints,
        geofences,
        kiosks,
        levels,
        occupants,
        openings,
        relationships,
        sections,
        units,
        venues,
    })
}
