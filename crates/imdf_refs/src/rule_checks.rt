//! The rules on references: each names a feature, of the type that the table of properties asks for.

ghost use Rattle.std.specs.Prelude.{◌≡◌, ◌≤◌, OnOk, map, length};
ghost use Rattle.rule_reports.specs.Passes.{Adds};
ghost use Rattle.feature_rows.specs.Rows.{feature_count};
ghost use Rattle.venue_types.specs.declared.feature_id.FeatureId.{FeatureId as FeatureIdOf};
ghost use Rattle.imdf_refs.specs.References.{by_id, by_object, file_named};
ghost use Rattle.imdf_refs.specs.Gathering.{reference, reference_list, Dangles, DanglesAmong, DanglesInRows, DanglesInProperty, DanglesInTable};

use crate::known::Known;
use crate::place::member_of;
use crate::row::{HasReferences, References};
use imdf_schema::{FeatureAt, File, PropertyRow, ReferenceTarget, Rule};
use rule_reports::add;
use venue_types::{FeatureId, Features, Finding, OutOfMemory, Ref};

// The number of the file whose features a property names, where a reference object tells this one.
fn named_file(names: ReferenceTarget, told: Option<u8>) -> Option<u8>
    ensures { (id : FeatureIdOf) → result ≡ file_named names (reference id told) }
{
    match names {
        ReferenceTarget::Nothing => None,
        ReferenceTarget::Address => Some(File::Address.number()),
        ReferenceTarget::Anchor => Some(File::Anchor.number()),
        ReferenceTarget::Building => Some(File::Building.number()),
        ReferenceTarget::Level => Some(File::Level.number()),
        ReferenceTarget::Unit => Some(File::Unit.number()),
        ReferenceTarget::ByReference => told,
    }
}

// At one reference, which has to name a feature of this file.
fn judge(
    findings: &mut Vec<Finding>,
    known: &Known,
    place: FeatureAt,
    member: u32,
    id: FeatureId,
    file: Option<u8>,
) -> Result<(), OutOfMemory>
    ensures { OnOk result (Adds (Dangles known.now place member id file) findings.old.items findings.new.items) }
{
    let named = known.has(id);
    let right = known.has_typed(id, file);
    add(findings, !named, place.finding(Rule::X1, member))?;
    add(findings, named & !right, place.finding(Rule::X2, member))
}

// At each identifier of a list.
fn judge_ids(
    findings: &mut Vec<Finding>,
    known: &Known,
    row: &PropertyRow,
    index: u32,
    ids: &[FeatureId],
) -> Result<(), OutOfMemory>
    ensures { OnOk result (Adds (DanglesAmong known.now row.now index (map by_id ids.now)) findings.old.items findings.new.items) }
{
    let file = named_file(row.names, None);
    let place = FeatureAt {
        file: row.file,
        index,
    };
    for (k, id) in ids.iter().enumerate() {
        let member = member_of(row.property, k)?;
        judge(findings, known, place, member, *id, file)?;
    }
    Ok(())
}

// At each reference object of a list.
fn judge_objects(
    findings: &mut Vec<Finding>,
    known: &Known,
    row: &PropertyRow,
    index: u32,
    objects: &[Ref],
) -> Result<(), OutOfMemory>
    ensures { OnOk result (Adds (DanglesAmong known.now row.now index (map by_object objects.now)) findings.old.items findings.new.items) }
{
    let place = FeatureAt {
        file: row.file,
        index,
    };
    for (k, object) in objects.iter().enumerate() {
        let file = named_file(row.names, Some(object.feature_type));
        let member = member_of(row.property, k)?;
        judge(findings, known, place, member, object.id, file)?;
    }
    Ok(())
}

// At each reference of a property of one feature.
fn judge_references(
    findings: &mut Vec<Finding>,
    known: &Known,
    row: &PropertyRow,
    index: u32,
    references: References<'_>,
) -> Result<(), OutOfMemory>
    ensures { OnOk result (Adds (DanglesAmong known.now row.now index (reference_list references.entry)) findings.old.items findings.new.items) }
{
    match references {
        References::Nothing => Ok(()),
        References::Id(id) => judge_ids(findings, known, row, index, &[id]),
        References::Ids(ids) => judge_ids(findings, known, row, index, ids),
        References::Object(object) => judge_objects(findings, known, row, index, &[object]),
        References::Objects(objects) => judge_objects(findings, known, row, index, objects),
    }
}

// At each feature of a file.
fn judge_rows<R: HasReferences>(
    findings: &mut Vec<Finding>,
    known: &Known,
    row: &PropertyRow,
    features: &[R],
) -> Result<(), OutOfMemory>
    requires { length features.now ≤ 100000 }
    ensures { OnOk result (Adds (DanglesInRows known.now row.now (map (R.references_of row.now.property) features.now)) findings.old.items findings.new.items) }
{
    for (k, feature) in features.iter().enumerate() {
        let references = feature.references(row.property);
        judge_references(findings, known, row, k as u32, references)?;
    }
    Ok(())
}

// At each feature that has the property.
fn judge_property(
    findings: &mut Vec<Finding>,
    known: &Known,
    row: &PropertyRow,
    features: &Features,
) -> Result<(), OutOfMemory>
    requires { feature_count features.now ≤ 100000 }
    ensures { OnOk result (Adds (DanglesInProperty known.now features.now row.now) findings.old.items findings.new.items) }
{
    match row.file {
        File::Amenity => judge_rows(findings, known, row, features.amenities.as_slice()),
        File::Anchor => judge_rows(findings, known, row, features.anchors.as_slice()),
        File::Building => judge_rows(findings, known, row, features.buildings.as_slice()),
        File::Detail => judge_rows(findings, known, row, features.details.as_slice()),
        File::Fixture => judge_rows(findings, known, row, features.fixtures.as_slice()),
        File::Footprint => judge_rows(findings, known, row, features.footprints.as_slice()),
        File::Kiosk => judge_rows(findings, known, row, features.kiosks.as_slice()),
        File::Level => judge_rows(findings, known, row, features.levels.as_slice()),
        File::Occupant => judge_rows(findings, known, row, features.occupants.as_slice()),
        File::Opening => judge_rows(findings, known, row, features.openings.as_slice()),
        File::Relationship => judge_rows(findings, known, row, features.relationships.as_slice()),
        File::Unit => judge_rows(findings, known, row, features.units.as_slice()),
        File::Venue => judge_rows(findings, known, row, features.venues.as_slice()),
        // Their features refer to nothing.
        File::Manifest | File::Address | File::Geofence | File::Section => Ok(()),
    }
}

/// At each feature that has one of these properties, given the identifiers of all features.
///
/// It takes log n time a reference.
pub(crate) fn judge_properties(
    findings: &mut Vec<Finding>,
    known: &Known,
    table: &[PropertyRow],
    features: &Features,
) -> Result<(), OutOfMemory>
    requires { feature_count features.now ≤ 100000 }
    ensures { OnOk result (Adds (DanglesInTable known.now features.now table.now) findings.old.items findings.new.items) }
{
    for row in table {
        judge_property(findings, known, row, features)?;
    }
    Ok(())
}
