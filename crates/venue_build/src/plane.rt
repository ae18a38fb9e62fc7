//! The two phases on the plane.

ghost use Rattle.std.specs.Prelude.{IfOk};
ghost use Rattle.rule_reports.specs.Reports.{IsReport};
ghost use Rattle.imdf_read.specs.Rows.{HaveOwnIds};
ghost use Rattle.imdf_read.specs.Sound.{AreSound};
ghost use Rattle.venue_build.specs.Phases.{IsPlaneBroken};

use contain_rules::add_hold_findings;
use imdf_read::{FeatureAt, File, Rule};
use ring_rules::{add_ring_findings, is_spread};
use rule_reports::in_order;
use std::alloc::Global;
use venue_types::{Features, Finding, List, OutOfMemory, Settings};

// The positions of a folder lie too far apart, which is told of the folder, and so of its first file.
const FOLDER: FeatureAt = FeatureAt {
    file: File::Manifest,
    index: 0,
};

/// The third phase, and, where it has nothing, the fourth, over rows in which the phases before find nothing.
///
/// The time is that of `add_ring_findings` and `add_hold_findings`, and n log n for n findings.
pub(crate) fn plane_findings(
    alloc: Global,
    features: &Features,
    settings: &Settings,
) -> Result<List<Finding>, OutOfMemory>
    requires sound { AreSound features.now }
    requires own_ids { HaveOwnIds features.now }
    ensures { IfOk result (IsReport (IsPlaneBroken features.now settings.now.contain_tol)) }
{
    let mut findings = Vec::new(alloc);
    if is_spread(features) {
        findings.push(FOLDER.finding(Rule::G6, 0))?;
        return Ok(in_order(findings));
    }
    add_ring_findings(alloc, features, &mut findings)?;
    add_hold_findings(alloc, features, settings.contain_tol, &mut findings)?;
    Ok(in_order(findings))
}
