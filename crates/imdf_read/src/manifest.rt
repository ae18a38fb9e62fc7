//! The manifest: read and judged.

ghost use Rattle.std.specs.Prelude.{◌≡◌, ◌&&◌, ◌||◌, not, true, OnOk, codes};
ghost use Rattle.exact_json.specs.Json.{member as member_of};
ghost use Rattle.exact_json.specs.View.{tree_view};
ghost use Rattle.imdf_schema.specs.Values as values;
ghost use Rattle.venue_types.specs.declared.files.Slot.{Slot as ASlot};
ghost use Rattle.venue_types.specs.declared.files.Slot.TheVariants.{Absent};
ghost use Rattle.rule_reports.specs.Passes.{Adds};
ghost use Rattle.imdf_read.specs.Gathering.{FindsInSlot};
ghost use Rattle.imdf_read.specs.Taking.{HasOnlyValue, HasFault};

use crate::file::{MAX_BYTES, whole};
use exact_json::{Arena, JsonFault, Tree, read};
use imdf_schema::{File, Rule, is_null, is_object, is_text, is_word, member};
use rule_reports::add;
use std::alloc::Global;
use venue_types::{Finding, OutOfMemory, Slot};

fn lacks_version(tree: &Tree) -> bool
    ensures { result ≡ not (values.is_word (member_of (tree_view tree.now) (codes "version")) (codes "1.0.0")) }
{
    !is_word(member(Some(tree), b"version"), b"1.0.0")
}

fn lacks_created(tree: &Tree) -> bool
    ensures { result ≡ (values.is_object (tree_view tree.now) && not (values.is_text (member_of (tree_view tree.now) (codes "created")))) }
{
    is_object(Some(tree)) && !is_text(member(Some(tree), b"created"))
}

// Null or a text.
fn is_language(tree: &Tree) -> bool
    ensures { result ≡ (values.is_null (member_of (tree_view tree.now) (codes "language")) || values.is_text (member_of (tree_view tree.now) (codes "language"))) }
{
    is_null(member(Some(tree), b"language")) || is_text(member(Some(tree), b"language"))
}

fn lacks_language(tree: &Tree) -> bool
    ensures { result ≡ (values.is_object (tree_view tree.now)
        && not (values.is_null (member_of (tree_view tree.now) (codes "language")) || values.is_text (member_of (tree_view tree.now) (codes "language")))) }
{
    is_object(Some(tree)) && !is_language(tree)
}

// The rules on its members.
fn judge_tree(findings: &mut Vec<Finding>, tree: &Tree) -> Result<(), OutOfMemory>
    ensures { OnOk result ((slot : ASlot) → HasOnlyValue slot (tree_view tree.now)
        → Adds (FindsInSlot File.Manifest slot) findings.old.items findings.new.items) }
{
    let version = lacks_version(tree);
    add(findings, version, whole(Rule::M1, File::Manifest))?;
    let created = lacks_created(tree);
    add(findings, created, whole(Rule::M2, File::Manifest))?;
    let language = lacks_language(tree);
    add(findings, language, whole(Rule::M3, File::Manifest))
}

// It has no value for this cause.
fn judge_fault(findings: &mut Vec<Finding>, rule: Rule) -> Result<(), OutOfMemory>
    ensures { OnOk result ((slot : ASlot) → HasFault rule slot
        → Adds (FindsInSlot File.Manifest slot) findings.old.items findings.new.items) }
{
    add(findings, true, whole(rule, File::Manifest))
}

// It isn't there.
fn judge_absent(findings: &mut Vec<Finding>) -> Result<(), OutOfMemory>
    ensures { OnOk result (Adds (FindsInSlot File.Manifest Absent) findings.old.items findings.new.items) }
{
    add(findings, true, whole(Rule::F1, File::Manifest))
}

/// The rules on the manifest.
pub(crate) fn judge_manifest(
    alloc: Global,
    findings: &mut Vec<Finding>,
    slot: &Slot,
) -> Result<(), OutOfMemory>
    ensures { OnOk result (Adds (FindsInSlot File.Manifest slot.now) findings.old.items findings.new.items) }
{
    let bytes = match slot {
        Slot::Absent => return judge_absent(findings),
        Slot::Held(bytes) => bytes.as_slice(),
    };
    if bytes.len() > MAX_BYTES {
        return judge_fault(findings, Rule::F2);
    }
    let arena = Arena::new(alloc);
    match read(&arena, bytes) {
        Ok(tree) => judge_tree(findings, &tree),
        Err(JsonFault::Text) => judge_fault(findings, Rule::F3),
        Err(JsonFault::Deep) => judge_fault(findings, Rule::F4),
        Err(JsonFault::OutOfMemory) => Err(OutOfMemory),
    }
}
