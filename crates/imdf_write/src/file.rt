//! One file of a folder.

ghost use Rattle.std.specs.Prelude.{◌≡◌, ◌≤◌, map, IfOk};
ghost use Rattle.json_text.specs.Drafts.{onto};
ghost use Rattle.json_text.specs.Compact.{compact, first_items, more_items};
ghost use Rattle.imdf_write.specs.Values.{items_of};
ghost use Rattle.venue_types.specs.declared.files.Slot.TheVariants.{Held};
ghost use Rattle.imdf_write.specs.Folder.{canonical_file, collection, collection_file, manifest};

use crate::rows::Canonical;
use json_text::Draft;
use std::alloc::{AllocError, Global};
use venue_types::{Bytes, Features, File, OutOfMemory, Slot};

// The manifest's text.
static MANIFEST: [u8; 86] =
    *b"{\"created\":\"\",\"extensions\":null,\"generated_by\":null,\"language\":null,\"version\":\"1.0.0\"}";

// Adds each feature, with a comma in front.
fn append_more<R: Canonical>(rows: &[R], file: File, out: &mut Draft)
    ensures { out.new ≡ onto out.old (more_items (items_of (map (R.feature file) rows.now))) }
{
    for row in rows {
        out.push(b',');
        row.append(file, out);
    }
}

// Adds the features of all rows, with commas between them.
fn append_features<R: Canonical>(rows: &[R], file: File, out: &mut Draft)
    ensures { out.new ≡ onto out.old (first_items (items_of (map (R.feature file) rows.now))) }
{
    if let Some((first, others)) = rows.split_first() {
        first.append(file, out);
        append_more(others, file, out);
    }
}

// Adds the collection of the features of all rows.
fn append_collection<R: Canonical>(rows: &[R], file: File, out: &mut Draft)
    ensures { out.new ≡ onto out.old (compact (collection (map (R.feature file) rows.now))) }
{
    out.append(b"{\"features\":[");
    append_features(rows, file, out);
    out.append(b"],\"type\":\"FeatureCollection\"}");
}

// The text of a draft that found room for all of it.
fn whole_text(draft: Draft) -> Vec<u8>
    requires { draft.len ≤ draft.room }
    ensures { result.items ≡ draft.bytes }
{
    match draft.finish() {
        Some(bytes) => bytes,
        None => unreachable!(),
    }
}

// The text of the collection, in one piece of memory: its length is counted first.
fn collection_bytes<R: Canonical>(
    alloc: Global,
    rows: &[R],
    file: File,
) -> Result<Vec<u8>, AllocError>
    ensures { IfOk result (λ bytes. bytes.items ≡ compact (collection (map (R.feature file) rows.now))) }
{
    let mut count = Draft::counting(alloc);
    append_collection(rows, file, &mut count);
    let mut out = Draft::with_room(alloc, count.len())?;
    append_collection(rows, file, &mut out);
    Ok(whole_text(out))
}

// The file of these rows, absent where there are none.
fn collection_slot<R: Canonical>(alloc: Global, rows: &[R], file: File) -> Result<Slot, OutOfMemory>
    ensures { IfOk result (λ slot. slot ≡ collection_file (map (R.feature file) rows.now)) }
{
    if rows.is_empty() {
        return Ok(Slot::Absent);
    }
    let bytes = collection_bytes(alloc, rows, file)?;
    Ok(Slot::Held(Bytes::from_vec(bytes)))
}

// The manifest, which is always there.
fn manifest_slot(alloc: Global) -> Result<Slot, OutOfMemory>
    ensures { IfOk result (λ slot. slot ≡ Held (compact manifest)) }
{
    let bytes = Vec::from_slice(alloc, &MANIFEST)?;
    Ok(Slot::Held(Bytes::from_vec(bytes)))
}

/// A file of the folder of these features: its text, or that it is absent, since it would have no feature. What is written may be longer than the
/// 33,554,432 bytes that are read. Takes no memory but the file's bytes.
pub fn write_file(alloc: Global, features: &Features, file: File) -> Result<Slot, OutOfMemory>
    ensures { IfOk result (λ slot. slot ≡ canonical_file features.now file) }
{
    match file {
        File::Manifest => manifest_slot(alloc),
        File::Address => collection_slot(alloc, features.addresses.as_slice(), file),
        File::Amenity => collection_slot(alloc, features.amenities.as_slice(), file),
        File::Anchor => collection_slot(alloc, features.anchors.as_slice(), file),
        File::Building => collection_slot(alloc, features.buildings.as_slice(), file),
        File::Detail => collection_slot(alloc, features.details.as_slice(), file),
        File::Fixture => collection_slot(alloc, features.fixtures.as_slice(), file),
        File::Footprint => collection_slot(alloc, features.footprints.as_slice(), file),
        File::Geofence => collection_slot(alloc, features.geofences.as_slice(), file),
        File::Kiosk => collection_slot(alloc, features.kiosks.as_slice(), file),
        File::Level => collection_slot(alloc, features.levels.as_slice(), file),
        File::Occupant => collection_slot(alloc, features.occupants.as_slice(), file),
        File::Opening => collection_slot(alloc, features.openings.as_slice(), file),
        File::Relationship => collection_slot(alloc, features.relationships.as_slice(), file),
        File::Section => collection_slot(alloc, features.sections.as_slice(), file),
        File::Unit => collection_slot(alloc, features.units.as_slice(), file),
        File::Venue => collection_slot(alloc, features.venues.as_slice(), file),
    }
}
