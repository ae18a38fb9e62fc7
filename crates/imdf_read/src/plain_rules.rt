//! The rules that take one test of a feature.

ghost use Rattle.std.specs.Prelude.{◌≡◌, ◌↔◌, ◌≤◌, ◌^◌, IsTrue, OnOk, true, not, ◌||◌, map, sum_by, length, ℤ, codes};
ghost use Rattle.std.specs.List.{list_all};
ghost use Rattle.exact_json.specs.View.{tree_view};
ghost use Rattle.imdf_schema.specs.Items.{is_feature};
ghost use Rattle.imdf_schema.specs.Values.{seen, is_word as word_is};
ghost use Rattle.imdf_rows.specs.Fields.{IsOrdinal};
ghost use Rattle.imdf_read.specs.Counts.{one_unless_null as one_of, elements as elements_of};
ghost use Rattle.imdf_read.specs.Broken.{ItemBreaks};
ghost use Rattle.rule_reports.specs.Passes.{Adds};
ghost use Rattle.imdf_read.specs.Gathering.{FindsBy, IsShort, is_plain, plain_rules};

use exact_json::Tree;
use imdf_rows::ordinal;
use imdf_schema::{
    FeatureAt, File, Property, Rule, fits_geometry, geometry, is_id, is_null, is_word, list,
    member, property, unlisted_property,
};
use rule_reports::add;
use venue_types::{Finding, OutOfMemory};

const MAX_ELEMENTS: usize = 65;

static RULES: [Rule; 6] = [Rule::C3, Rule::C4, Rule::C5, Rule::L1, Rule::Q1, Rule::S4];

fn is_ordinal(value: Option<&Tree>) -> bool
    ensures { IsTrue result ↔ ((n : ℤ) × IsOrdinal (seen value.entry) n) }
{
    ordinal(value).is_some()
}

// One of two words.
fn is_direction(value: Option<&Tree>) -> bool
    ensures { result ≡ (word_is (seen value.entry) (codes "directed") || word_is (seen value.entry) (codes "undirected")) }
{
    is_word(value, b"directed") || is_word(value, b"undirected")
}

fn one_unless_null(value: Option<&Tree>) -> usize
    ensures { result ≡ one_of (seen value.entry) }
{
    if is_null(value) { 0 } else { 1 }
}

// How many aren't null.
fn count(items: &[Tree]) -> usize
    ensures exact { result ≡ sum_by one_of (map tree_view items.now) }
    ensures few { result ≤ length items.now }
{
    let mut count = 0;
    for item in items {
        count += one_unless_null(Some(item));
    }
    count
}

// Origin, intermediaries and destination that aren't null.
fn elements(item: &Tree) -> usize
    requires { IsShort (tree_view item.now) }
    ensures { result ≡ elements_of (tree_view item.now) }
{
    let origin = one_unless_null(property(item, Property::Origin));
    let destination = one_unless_null(property(item, Property::Destination));
    let between = match list(property(item, Property::Intermediary)) {
        Some(items) => count(items),
        None => 0,
    };
    origin + between + destination
}

// The rule on a level's ordinal.
fn breaks_ordinal(file: File, item: &Tree) -> bool
    requires { is_feature (tree_view item.now) ≡ true }
    ensures { IsTrue result ↔ ItemBreaks Rule.L1 file (tree_view item.now) 0 }
{
    file == File::Level && !is_ordinal(unlisted_property(item, b"ordinal"))
}

// The rule on a relationship's direction.
fn breaks_direction(file: File, item: &Tree) -> bool
    requires { is_feature (tree_view item.now) ≡ true }
    ensures { IsTrue result ↔ ItemBreaks Rule.Q1 file (tree_view item.now) 0 }
{
    file == File::Relationship && !is_direction(unlisted_property(item, b"direction"))
}

// The rule on a relationship's length.
fn breaks_length(file: File, item: &Tree) -> bool
    requires feature { is_feature (tree_view item.now) ≡ true }
    requires short { IsShort (tree_view item.now) }
    ensures { IsTrue result ↔ ItemBreaks Rule.S4 file (tree_view item.now) 0 }
{
    file == File::Relationship && elements(item) > MAX_ELEMENTS
}

// Whether a feature breaks the rule.
fn breaks(rule: Rule, file: File, item: &Tree) -> bool
    requires feature { is_feature (tree_view item.now) ≡ true }
    requires short { IsShort (tree_view item.now) }
    requires plain { is_plain rule ≡ true }
    ensures { IsTrue result ↔ ItemBreaks rule file (tree_view item.now) 0 }
{
    match rule {
        Rule::C3 => !is_id(member(Some(item), b"id")),
        Rule::C4 => !is_word(member(Some(item), b"feature_type"), file.type_name()),
        Rule::C5 => !fits_geometry(file.geometry(), geometry(item)),
        Rule::L1 => breaks_ordinal(file, item),
        Rule::Q1 => breaks_direction(file, item),
        Rule::S4 => breaks_length(file, item),
        _ => false,
    }
}

// Each of these rules.
fn judge_rules(
    findings: &mut Vec<Finding>,
    place: FeatureAt,
    item: &Tree,
    rules: &[Rule],
) -> Result<(), OutOfMemory>
    requires feature { is_feature (tree_view item.now) ≡ true }
    requires short { IsShort (tree_view item.now) }
    requires plain { IsTrue (list_all is_plain rules.now) }
    ensures { OnOk result (Adds (FindsBy rules.now place.file place.index (tree_view item.now)) findings.old.items findings.new.items) }
{
    for rule in rules {
        let broken = breaks(*rule, place.file, item);
        add(findings, broken, place.finding(*rule, 0))?;
    }
    Ok(())
}

/// Each rule that takes one test of a feature.
pub(crate) fn judge_plain(
    findings: &mut Vec<Finding>,
    place: FeatureAt,
    item: &Tree,
) -> Result<(), OutOfMemory>
    requires feature { is_feature (tree_view item.now) ≡ true }
    requires short { IsShort (tree_view item.now) }
    ensures { OnOk result (Adds (FindsBy plain_rules place.file place.index (tree_view item.now)) findings.old.items findings.new.items) }
{
    judge_rules(findings, place, item, &RULES)
}
