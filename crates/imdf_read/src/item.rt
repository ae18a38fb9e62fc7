//! The rules and notes on one item.

ghost use Rattle.std.specs.Prelude.{◌≡◌, OnOk, IfOk, true, nat_lt};
ghost use Rattle.exact_json.specs.View.{tree_view};
ghost use Rattle.imdf_schema.specs.Items.{is_feature as feature_is};
ghost use Rattle.rule_reports.specs.Passes.{Adds};
ghost use Rattle.imdf_read.specs.Gathering.{FindsRule, FindsInGeometry, FindsInItem, IsShort};
ghost use Rattle.imdf_read.specs.Judging.{IsJudged};

use crate::figures::{Judged, judged_geometry};
use crate::plain_rules::judge_plain;
use crate::property_rule::judge_properties;
use exact_json::Tree;
use imdf_schema::{FeatureAt, Rule, is_feature};
use rule_reports::add;
use std::alloc::Global;
use venue_types::{Finding, OutOfMemory};

const MAX_RING: u64 = 20_000;

// The rules on a geometry.
fn judge_figure(
    findings: &mut Vec<Finding>,
    place: FeatureAt,
    item: &Tree,
    judged: &Judged,
) -> Result<(), OutOfMemory>
    requires { IsJudged place.file (tree_view item.now) judged.now }
    ensures { OnOk result (Adds (FindsInGeometry place.file place.index (tree_view item.now)) findings.old.items findings.new.items) }
{
    let _ = item;
    add(
        findings,
        judged.longest > MAX_RING,
        place.finding(Rule::S3, 0),
    )?;
    add(findings, judged.bad_position, place.finding(Rule::G1, 0))?;
    add(findings, judged.bad_form, place.finding(Rule::G2, 0))
}

// The rules on a feature.
fn judge_feature(
    alloc: Global,
    findings: &mut Vec<Finding>,
    place: FeatureAt,
    item: &Tree,
) -> Result<Judged, OutOfMemory>
    requires feature { feature_is (tree_view item.now) ≡ true }
    requires short { IsShort (tree_view item.now) }
    ensures adds { OnOk result (Adds (FindsInItem place.file place.index (tree_view item.now)) findings.old.items findings.new.items) }
    ensures judged { IfOk result (IsJudged place.file (tree_view item.now)) }
{
    judge_plain(findings, place, item)?;
    judge_properties(alloc, findings, place, item)?;
    let judged = judged_geometry(alloc, place.file, item)?;
    judge_figure(findings, place, item, &judged)?;
    Ok(judged)
}

/// The rules on an item, and what was read of its geometry.
pub(crate) fn judge_item(
    alloc: Global,
    findings: &mut Vec<Finding>,
    place: FeatureAt,
    item: &Tree,
) -> Result<Judged, OutOfMemory>
    requires { IsShort (tree_view item.now) }
    ensures adds { OnOk result (Adds (FindsInItem place.file place.index (tree_view item.now)) findings.old.items findings.new.items) }
    ensures judged { IfOk result (IsJudged place.file (tree_view item.now)) }
{
    if is_feature(item) {
        return judge_feature(alloc, findings, place, item);
    }
    add(findings, true, place.finding(Rule::C2, 0))?;
    Ok(Judged::nothing())
}
