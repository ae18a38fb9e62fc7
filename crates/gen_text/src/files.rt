//! The files of a building.

ghost use Rattle.std.specs.Prelude.{◌≡◌, ◌-◌, ◌<◌, ◌≤◌, [], ◌∷◌, map, flat_map, IfOk};
ghost use Rattle.gen_text.specs.Texts.{level_item, opening_items, relationship_items, unit_items, venue_item, manifest_text, collection_front, feature_file, levels_from_0, building_files};
ghost use Rattle.gen_text.specs.Ended.{IsEndOf};
ghost use Rattle.venue_types.specs.declared.files.Slot.TheVariants.{Held};

use crate::items::{push_level, push_openings, push_relationships, push_units, push_venue};
use crate::numbers::{opening_count, relationship_count, unit_count};
use std::alloc::{AllocError, Global};
use venue_types::{Bytes, Files, List, OutOfMemory, Slot};

// No feature has a longer text, with its comma.
const ITEM_ROOM: usize = 360;

// Begins a file of so many features, with room for all.
fn begun(alloc: Global, features: u32) -> Result<Vec<u8>, AllocError>
    ensures { IfOk result (λ out. out.items ≡ collection_front) }
{
    let mut out = Vec::with_capacity(alloc, (features as usize + 1) * ITEM_ROOM)?;
    out.extend_from_slice(br#"{"type":"FeatureCollection","features":["#)?;
    Ok(out)
}

// Takes the last comma back and ends the file.
fn ended_file(text: Vec<u8>) -> Result<Slot, AllocError>
    ensures { IfOk result (λ slot. IsEndOf text.items slot) }
{
    let mut out = text;
    let _comma = out.pop();
    out.extend_from_slice(b"]}")?;
    Ok(Slot::Held(Bytes::from_vec(out)))
}

fn manifest_file(alloc: Global) -> Result<Slot, AllocError>
    ensures { IfOk result (λ slot. slot ≡ Held manifest_text) }
{
    let text = Vec::from_slice(
        alloc,
        br#"{"version":"1.0.0","created":"","language":"en"}"#,
    )?;
    Ok(Slot::Held(Bytes::from_vec(text)))
}

fn level_file(alloc: Global, levels: u8) -> Result<Slot, AllocError>
    requires { 0 < levels }
    ensures { IfOk result (λ slot. slot ≡ feature_file (map level_item (levels_from_0 levels))) }
{
    let mut out = begun(alloc, levels as u32)?;
    for level in 0..levels {
        push_level(&mut out, level)?;
    }
    ended_file(out)
}

fn opening_file(alloc: Global, levels: u8) -> Result<Slot, AllocError>
    requires { 0 < levels }
    ensures { IfOk result (λ slot. slot ≡ feature_file (flat_map (opening_items levels) (levels_from_0 levels))) }
{
    let mut out = begun(alloc, opening_count(levels))?;
    for level in 0..levels {
        push_openings(&mut out, levels, level)?;
    }
    ended_file(out)
}

fn relationship_file(alloc: Global, levels: u8) -> Result<Slot, AllocError>
    requires { 0 < levels }
    ensures { IfOk result (λ slot. slot ≡ feature_file (flat_map (relationship_items levels) (levels_from_0 (levels - 1)))) }
{
    if levels == 1 {
        return Ok(Slot::Absent);
    }
    let mut out = begun(alloc, relationship_count(levels))?;
    for level in 0..levels - 1 {
        push_relationships(&mut out, levels, level)?;
    }
    ended_file(out)
}

fn unit_file(alloc: Global, levels: u8) -> Result<Slot, AllocError>
    requires { 0 < levels }
    ensures { IfOk result (λ slot. slot ≡ feature_file (flat_map (unit_items levels) (levels_from_0 levels))) }
{
    let mut out = begun(alloc, unit_count(levels))?;
    for level in 0..levels {
        push_units(&mut out, levels, level)?;
    }
    ended_file(out)
}

fn venue_file(alloc: Global, levels: u8) -> Result<Slot, AllocError>
    ensures { IfOk result (λ slot. slot ≡ feature_file (venue_item levels ∷ [])) }
{
    let mut out = begun(alloc, 1)?;
    push_venue(&mut out, levels)?;
    ended_file(out)
}

/// The seventeen files of a building of so many levels.
pub fn gen_files(alloc: Global, levels: u8) -> Result<Files, OutOfMemory>
    requires { (0 < levels) × (levels ≤ 200) }
    ensures { IfOk result (λ files. files ≡ building_files levels) }
{
    let manifest = manifest_file(alloc)?;
    let level = level_file(alloc, levels)?;
    let opening = opening_file(alloc, levels)?;
    let relationship = relationship_file(alloc, levels)?;
    let unit = unit_file(alloc, levels)?;
    let venue = venue_file(alloc, levels)?;
    let slots = vec![in alloc;
        manifest,
        Slot::Absent, // address
        Slot::Absent, // amenity
        Slot::Absent, // anchor
        Slot::Absent, // building
        Slot::Absent, // detail
        Slot::Absent, // fixture
        Slot::Absent, // footprint
        Slot::Absent, // geofence
        Slot::Absent, // kiosk
        level,
        Slot::Absent, // occupant
        opening,
        relationship,
        Slot::Absent, // section
        unit,
        venue,
    ]?;
    Ok(Files {
        slots: List::from_vec(slots),
    })
}
