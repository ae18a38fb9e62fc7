//! All identifiers and references of a folder.

ghost use Rattle.std.specs.Prelude.{◌≤◌, ◌↔◌, IfOk, Contains};
ghost use Rattle.venue_types.specs.declared.finding.Finding.{Finding as FindingOf};
ghost use Rattle.rule_reports.specs.Reports.{IsReport};
ghost use Rattle.feature_rows.specs.Rows.{feature_count};
ghost use Rattle.feature_rows.specs.Sound.{AreSound};
ghost use Rattle.imdf_refs.specs.Rules.{IsMisnamed};

use crate::identifiers::judge_identifiers;
use crate::rule_checks::judge_properties;
use imdf_schema::properties;
use rule_reports::in_order;
use std::alloc::Global;
use venue_types::{Features, Finding, List, OutOfMemory};

/// Where a rule of the second phase is broken, in the order in which that is found.
pub(crate) fn gather(alloc: Global, features: &Features) -> Result<Vec<Finding>, OutOfMemory>
    requires { feature_count features.now ≤ 100000 }
    ensures { IfOk result (λ findings. (x : FindingOf) → Contains findings.items x ↔ IsMisnamed features.now x) }
{
    let mut findings = Vec::new(alloc);
    let known = judge_identifiers(alloc, &mut findings, features)?;
    judge_properties(&mut findings, &known, properties(), features)?;
    Ok(findings)
}

/// The whole second phase over the rows of a folder in which the first phase finds nothing.
///
/// It takes n log n time for n features and references, and memory in proportion to the features and the findings.
/// A list of more than 2^26 items in one property, which takes over a gigabyte, counts as want of memory: its last
/// items have no number that fits a finding.
pub fn reference_findings(alloc: Global, features: &Features) -> Result<List<Finding>, OutOfMemory>
    requires { AreSound features.now }
    ensures { IfOk result (IsReport (IsMisnamed features.now)) }
{
    let findings = gather(alloc, features)?;
    Ok(in_order(findings))
}
