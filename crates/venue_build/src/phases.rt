//! One phase of rules after another.

ghost use Rattle.std.specs.Prelude.{◌≡◌, ◌⊎◌, IfOk, Contains, length};
ghost use Rattle.imdf_read.specs.Sound.{AreSound};
ghost use Rattle.rule_reports.specs.Reports.{IsNoteList};
ghost use Rattle.link_graph.specs.Unplaced.{IsUnplaced};
ghost use Rattle.venue_build.specs.Ground.{IsGround, IsJudged, IsLaterBuilt};
ghost use Rattle.venue_build.specs.Built.{IsBuilt};

use crate::ground::{Ground, Judged, ground_of};
use crate::place_table::Places;
use crate::plane::plane_findings;
use crate::{Built, Venue};
use imdf_read::{ReadOut, read_folder, sound_reading_law};
use imdf_refs::{own_ids_law, reference_findings};
use link_graph::{limit_law, place_notes};
use ring_rules::no_spread_law;
use rule_reports::{notes_in_order, shortened};
use std::alloc::Global;
use venue_types::{Features, Files, List, Note, OutOfMemory, Settings};

// What the phases after the first make of rows.
fn judged(alloc: Global, features: &Features, settings: &Settings) -> Result<Judged, OutOfMemory>
    requires { AreSound features.now }
    ensures { IfOk result (IsJudged features.now settings.now) }
{
    own_ids_law();
    no_spread_law();
    limit_law();
    let misnamed = reference_findings(alloc, features)?;
    if !misnamed.is_empty() {
        return Ok(Judged::Broken(misnamed));
    }
    let misplaced = plane_findings(alloc, features, settings)?;
    if !misplaced.is_empty() {
        return Ok(Judged::Broken(misplaced));
    }
    match ground_of(alloc, features, settings) {
        Ok(ground) => Ok(Judged::Sound(ground)),
        Err(fault) => {
            let crowded = fault.findings(alloc)?;
            Ok(Judged::Broken(crowded))
        }
    }
}

// What is noted of the files, and what is no place or leads nowhere.
fn all_notes(
    features: &Features,
    settings: &Settings,
    ground: &Ground,
    noted: List<Note>,
) -> Result<List<Note>, OutOfMemory>
    requires sound { AreSound features.now }
    requires ground { IsGround features.now settings.now ground.now }
    ensures { IfOk result (IsNoteList (λ x. Contains noted x ⊎ IsUnplaced features.now settings.now.border_tol x)) }
{
    let mut notes = noted.into_vec();
    let nodes = ground.graph.node_table();
    place_notes(features, &ground.touches, nodes, &mut notes)?;
    Ok(notes_in_order(notes))
}

// The venue of rows in which the first phase finds nothing, or the report of a later one.
fn built(
    alloc: Global,
    features: Features,
    settings: &Settings,
    noted: List<Note>,
) -> Result<Built, OutOfMemory>
    requires { AreSound features }
    ensures { IfOk result (IsLaterBuilt features settings.now noted) }
{
    match judged(alloc, &features, settings)? {
        Judged::Broken(findings) => Ok(Built::Rejected(shortened(findings))),
        Judged::Sound(ground) => {
            let notes = all_notes(&features, settings, &ground, noted)?;
            let places = Places::of(alloc, &features)?;
            let kept = settings.copy(alloc)?;
            let venue = Venue::new(features, kept, notes, ground.graph, places);
            Ok(Built::Venue(venue))
        }
    }
}

/// Makes a venue of the seventeen files of a folder, or the report of the first phase of rules that finds something.
///
/// A report has its first 500 findings, and their whole number. The time is that of reading the files and that of
/// judging the rows, one phase after another.
pub fn build(alloc: Global, files: &Files, settings: &Settings) -> Result<Built, OutOfMemory>
    requires { length files.now.slots ≡ 17 }
    ensures { IfOk result (IsBuilt files.now settings.now) }
{
    sound_reading_law();
    let ReadOut {
        features,
        findings,
        notes,
    } = read_folder(alloc, files)?;
    if !findings.is_empty() {
        return Ok(Built::Rejected(shortened(findings)));
    }
    built(alloc, features, settings, notes)
}
