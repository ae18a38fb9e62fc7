//! The rule on identifiers: each stands for one feature.

ghost use Rattle.std.specs.Prelude.{◌≡◌, ◌+◌, ◌≤◌, IfOk, OnOk, map};
ghost use Rattle.rule_reports.specs.Passes.{Adds};
ghost use Rattle.feature_rows.specs.Rows.{ids_of as ids_in, feature_count};
ghost use Rattle.venue_types.specs.FolderFiles.{file_number};
ghost use Rattle.imdf_refs.specs.Index.{HasBefore, HasAll};
ghost use Rattle.imdf_refs.specs.Gathering.{RepeatsIn, Repeats};

use crate::known::Known;
use crate::row::HasReferences;
use imdf_schema::{FeatureAt, File, Rule, feature_files};
use rule_reports::add;
use std::alloc::Global;
use venue_types::{FeatureId, Features, Finding, OutOfMemory};

// The identifiers of features, in their order.
fn ids<R: HasReferences>(alloc: Global, features: &[R]) -> Result<Vec<FeatureId>, OutOfMemory>
    ensures { IfOk result (λ ids. ids.items ≡ map R.id_of features.now) }
{
    let mut ids = Vec::new(alloc);
    for feature in features {
        ids.push(feature.id())?;
    }
    Ok(ids)
}

// The identifiers of a file's features, in file order.
fn ids_of(alloc: Global, features: &Features, file: File) -> Result<Vec<FeatureId>, OutOfMemory>
    ensures { IfOk result (λ ids. ids.items ≡ ids_in file features.now) }
{
    match file {
        File::Manifest => Ok(Vec::new(alloc)),
        File::Address => ids(alloc, features.addresses.as_slice()),
        File::Amenity => ids(alloc, features.amenities.as_slice()),
        File::Anchor => ids(alloc, features.anchors.as_slice()),
        File::Building => ids(alloc, features.buildings.as_slice()),
        File::Detail => ids(alloc, features.details.as_slice()),
        File::Fixture => ids(alloc, features.fixtures.as_slice()),
        File::Footprint => ids(alloc, features.footprints.as_slice()),
        File::Geofence => ids(alloc, features.geofences.as_slice()),
        File::Kiosk => ids(alloc, features.kiosks.as_slice()),
        File::Level => ids(alloc, features.levels.as_slice()),
        File::Occupant => ids(alloc, features.occupants.as_slice()),
        File::Opening => ids(alloc, features.openings.as_slice()),
        File::Relationship => ids(alloc, features.relationships.as_slice()),
        File::Section => ids(alloc, features.sections.as_slice()),
        File::Unit => ids(alloc, features.units.as_slice()),
        File::Venue => ids(alloc, features.venues.as_slice()),
    }
}

// At each feature of a file, given the identifiers of the features of the files before it.
fn judge_file(
    alloc: Global,
    findings: &mut Vec<Finding>,
    known: &mut Known,
    features: &Features,
    file: File,
) -> Result<(), OutOfMemory>
    requires few { feature_count features.now ≤ 100000 }
    requires known { HasBefore features.now (file_number file) 0 known.old }
    ensures known { OnOk result (HasBefore features.now (file_number file + 1) 0 known.new) }
    ensures findings { OnOk result (Adds (RepeatsIn features.now file) findings.old.items findings.new.items) }
{
    let ids = ids_of(alloc, features, file)?;
    for (k, id) in ids.iter().enumerate() {
        let fresh = known.insert(*id, file.number())?;
        let place = FeatureAt {
            file,
            index: k as u32,
        };
        add(findings, !fresh, place.finding(Rule::C7, 0))?;
    }
    Ok(())
}

/// At each feature, in the order of files, and the identifiers of all.
///
/// It takes n log n time and memory in proportion to the features.
pub(crate) fn judge_identifiers(
    alloc: Global,
    findings: &mut Vec<Finding>,
    features: &Features,
) -> Result<Known, OutOfMemory>
    requires { feature_count features.now ≤ 100000 }
    ensures known { IfOk result (HasAll features.now) }
    ensures findings { OnOk result (Adds (Repeats features.now) findings.old.items findings.new.items) }
{
    let mut known = Known::new(alloc);
    for file in feature_files() {
        judge_file(alloc, findings, &mut known, features, *file)?;
    }
    Ok(known)
}
