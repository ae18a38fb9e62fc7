//! The rings of a folder.

ghost use Rattle.std.specs.Prelude.{◌≤◌, OnOk, length, map};
ghost use mathlib.Core.List.{IsPrefix};
ghost use Rattle.plane_exact.specs.Figure.{AllClose};
ghost use Rattle.rule_reports.specs.Passes.{Adds};
ghost use Rattle.feature_rows.specs.Sound.{AreSound};
ghost use Rattle.feature_rows.specs.Figures.{judged_positions};
ghost use Rattle.ring_rules.specs.Judged.{AreFitShapes};
ghost use Rattle.ring_rules.specs.Findings.{FindsInShapes};
ghost use Rattle.ring_rules.specs.Rules.{BreaksInRing};

use crate::shape_findings::add_shape;
use feature_rows::HasShape;
use imdf_schema::{FeatureAt, File};
use std::alloc::Global;
use venue_types::{Features, Finding, List, OutOfMemory};

/// What is wrong with the rings of some rows of a file.
#[tactic(auto, using(rule_reports::proofs::Beginnings::beginnings))]
pub(crate) fn add_rows<R: HasShape>(
    alloc: Global,
    findings: &mut Vec<Finding>,
    file: File,
    rows: &[R],
) -> Result<(), OutOfMemory>
    requires few { length rows.now ≤ 100000 }
    requires fit { AreFitShapes (map R.shape_of rows.now) }
    ensures adds { OnOk result (Adds (FindsInShapes file (map R.shape_of rows.now)) findings.old.items findings.new.items) }
    ensures begins { IsPrefix findings.old.items findings.new.items }
{
    for k in 0..rows.len() {
        let index = k as u32;
        add_shape(alloc, findings, FeatureAt { file, index }, rows[k].shape())?;
    }
    Ok(())
}

// What is wrong with the rings of a file.
fn add_file<R: HasShape>(
    alloc: Global,
    findings: &mut Vec<Finding>,
    file: File,
    rows: &List<R>,
) -> Result<(), OutOfMemory>
    requires few { length rows.now ≤ 100000 }
    requires fit { AreFitShapes (map R.shape_of rows.now) }
    ensures adds { OnOk result (Adds (FindsInShapes file (map R.shape_of rows.now)) findings.old.items findings.new.items) }
    ensures begins { IsPrefix findings.old.items findings.new.items }
{
    add_rows(alloc, findings, file, rows.as_slice())
}

/// Adds what is wrong with the rings of a folder whose positions lie close together.
///
/// A tree of octagons is made of one ring at a time, and of a border once for all its holes. So on most rings it takes
/// n log n time for n positions, at worst time in proportion to the sum of the squares of the rings' lengths, and memory
/// for the findings and for the trees of two rings.
#[tactic(auto, using(rule_reports::proofs::Beginnings::beginnings))]
pub fn add_ring_findings(
    alloc: Global,
    features: &Features,
    findings: &mut Vec<Finding>,
) -> Result<(), OutOfMemory>
    requires sound { AreSound features.now }
    requires close { AllClose (judged_positions features.now) }
    ensures adds { OnOk result (Adds (BreaksInRing features.now) findings.old.items findings.new.items) }
    ensures begins { IsPrefix findings.old.items findings.new.items }
{
    add_file(alloc, findings, File::Fixture, &features.fixtures)?;
    add_file(alloc, findings, File::Footprint, &features.footprints)?;
    add_file(alloc, findings, File::Level, &features.levels)?;
    add_file(alloc, findings, File::Unit, &features.units)?;
    add_file(alloc, findings, File::Venue, &features.venues)
}
