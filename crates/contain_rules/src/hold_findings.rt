//! What holds what in a folder.

ghost use Rattle.std.specs.Prelude.{OnOk, ◌≤◌, length};
ghost use mathlib.Core.List.{IsPrefix};
ghost use Rattle.rule_reports.specs.Passes.{Adds};
ghost use Rattle.feature_rows.specs.Rows.{HaveOwnIds};
ghost use Rattle.feature_rows.specs.Sound.{AreSound};
ghost use Rattle.feature_rows.specs.Figures.{judged_positions};
ghost use Rattle.plane_exact.specs.Figure.{AllClose};
ghost use Rattle.contain_rules.specs.Rules.{BreaksHold};
ghost use Rattle.contain_rules.specs.Judging.{BreaksIn, CanJudge};

use crate::holders::Holders;
use crate::rows::HasHolder;
use imdf_schema::FeatureAt;
use rule_reports::add;
use std::alloc::Global;
use venue_types::{AmenityRow, AnchorRow, Features, Finding, OpeningRow, OutOfMemory, UnitRow};

// Adds which rows of a file aren't held by what is to hold them.
#[tactic(auto, using(rule_reports::proofs::Beginnings::beginnings))]
fn judge<R: HasHolder>(
    features: &Features,
    holders: &Holders,
    tolerance: u32,
    findings: &mut Vec<Finding>,
) -> Result<(), OutOfMemory>
    requires ready { CanJudge features.now tolerance holders.now }
    requires few { length (R.rows features.now) ≤ 100000 }
    ensures adds { OnOk result (Adds (BreaksIn (R.leaves features.now tolerance) (R.rows features.now) R.rule) findings.old.items findings.new.items) }
    ensures begins { IsPrefix findings.old.items findings.new.items }
{
    for (k, row) in R::rows(features).as_slice().iter().enumerate() {
        let leaves = row.leaves(features, holders, tolerance);
        let place = FeatureAt {
            file: R::file(),
            index: k as u32,
        };
        add(findings, leaves, place.finding(R::rule(), 0))?;
    }
    Ok(())
}

/// Adds what is not held by what is to hold it, in a folder whose positions lie close together.
///
/// The tolerance is in nanodegrees. Trees of octagons are made of all levels and units, and dropped at the end. On most
/// shapes a position is compared with a number of octagons that grows as the logarithm of the shape's edges, at worst with
/// all its edges. The memory is that of the trees and of the findings.
#[tactic(auto, using(rule_reports::proofs::Beginnings::beginnings))]
pub fn add_hold_findings(
    alloc: Global,
    features: &Features,
    tolerance: u32,
    findings: &mut Vec<Finding>,
) -> Result<(), OutOfMemory>
    requires sound { AreSound features.now }
    requires own_ids { HaveOwnIds features.now }
    requires close { AllClose (judged_positions features.now) }
    requires range { tolerance ≤ 1000000 }
    ensures adds { OnOk result (Adds (BreaksHold features.now tolerance) findings.old.items findings.new.items) }
    ensures begins { IsPrefix findings.old.items findings.new.items }
{
    let holders = Holders::of(alloc, features)?;
    judge::<UnitRow>(features, &holders, tolerance, findings)?;
    judge::<AnchorRow>(features, &holders, tolerance, findings)?;
    judge::<AmenityRow>(features, &holders, tolerance, findings)?;
    judge::<OpeningRow>(features, &holders, tolerance, findings)
}
