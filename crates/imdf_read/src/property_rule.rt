//! The rule on properties: each is of its form.

ghost use Rattle.std.specs.Prelude.{◌≡◌, ◌≤◌, ◌^◌, OnOk, map, length};
ghost use Rattle.exact_json.specs.View.{tree_view};
ghost use Rattle.imdf_schema.specs.Properties.{properties};
ghost use Rattle.rule_reports.specs.Passes.{Adds};
ghost use Rattle.imdf_read.specs.Gathering.{FindsBadItem, FindsMisformed, FindsMisformedOf, IsShort};

use exact_json::Tree;
use imdf_schema::{FeatureAt, PropertyRow, Rule, fits, item_fits, list_of, properties, property};
use rule_reports::add;
use std::alloc::Global;
use venue_types::{Finding, OutOfMemory};

// At each item of a list.
fn judge_list(
    findings: &mut Vec<Finding>,
    place: FeatureAt,
    row: &PropertyRow,
    items: &[Tree],
) -> Result<(), OutOfMemory>
    requires { length items.now ≤ 2 ^ 25 }
    ensures { OnOk result (Adds (FindsBadItem row.now place.file place.index (map tree_view items.now)) findings.old.items findings.new.items) }
{
    for (k, item) in items.iter().enumerate() {
        let member = row.property.number() as u32 + 64 * k as u32;
        let unfit = !item_fits(row.form, item);
        add(findings, unfit, place.finding(Rule::C6, member))?;
    }
    Ok(())
}

// At one property.
fn judge_property(
    alloc: Global,
    findings: &mut Vec<Finding>,
    place: FeatureAt,
    item: &Tree,
    row: &PropertyRow,
) -> Result<(), OutOfMemory>
    requires { IsShort (tree_view item.now) }
    ensures { OnOk result (Adds (FindsMisformed place.file place.index (tree_view item.now) row.now) findings.old.items findings.new.items) }
{
    if row.file != place.file {
        return Ok(());
    }
    let value = property(item, row.property);
    let fit = fits(alloc, row.form, value)?;
    let member = row.property.number() as u32;
    add(findings, !fit, place.finding(Rule::C6, member))?;
    match list_of(row.form, value) {
        Some(items) => judge_list(findings, place, row, items),
        None => Ok(()),
    }
}

// At each property of a table.
fn judge_table(
    alloc: Global,
    findings: &mut Vec<Finding>,
    place: FeatureAt,
    item: &Tree,
    table: &[PropertyRow],
) -> Result<(), OutOfMemory>
    requires { IsShort (tree_view item.now) }
    ensures { OnOk result (Adds (FindsMisformedOf table.now place.file place.index (tree_view item.now)) findings.old.items findings.new.items) }
{
    for row in table {
        judge_property(alloc, findings, place, item, row)?;
    }
    Ok(())
}

/// At each property of the item.
pub(crate) fn judge_properties(
    alloc: Global,
    findings: &mut Vec<Finding>,
    place: FeatureAt,
    item: &Tree,
) -> Result<(), OutOfMemory>
    requires { IsShort (tree_view item.now) }
    ensures { OnOk result (Adds (FindsMisformedOf properties place.file place.index (tree_view item.now)) findings.old.items findings.new.items) }
{
    judge_table(alloc, findings, place, item, properties())
}
