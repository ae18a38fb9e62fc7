//! One file: read, judged, noted and made rows. Its tree is dropped before the next is read.

ghost use Rattle.std.specs.Prelude.{◌≡◌, ◌≢◌, ◌≤◌, if◌then◌else◌, ◌^◌, ◌↔◌, IsTrue, true, OnOk, IfOk, length};
ghost use Rattle.exact_json.specs.Json.{HasTexts};
ghost use Rattle.exact_json.specs.View.{tree_view};
ghost use Rattle.venue_types.specs.declared.files.Slot.{Slot as ASlot};
ghost use Rattle.venue_types.specs.declared.files.Slot.TheVariants.{Absent};
ghost use Rattle.venue_types.specs.FolderFiles.{geometry_of};
ghost use Rattle.rule_reports.specs.Passes.{Adds};
ghost use Rattle.imdf_schema.specs.Places.{finding_at};
ghost use Rattle.imdf_read.specs.Gathering.{FindsInFile, FindsInItems, NotesInFile, NotesInItems, IsShort};
ghost use Rattle.imdf_read.specs.Taking.{Serves, Takes, TakesItems, HasOnlyValue, HasFault, TakesNothing, AreShort, AreTexts, trees_of};

use crate::items::{Gathered, Taken, take_items};
use exact_json::{Arena, JsonFault, Tree, read};
use imdf_rows::FeatureRow;
use imdf_schema::{FeatureAt, File, Rule, is_collection, items};
use rule_reports::add;
use std::alloc::Global;
use venue_types::{Finding, OutOfMemory, Slot};

pub(crate) const MAX_BYTES: usize = 33_554_432;

/// The finding of a rule on a file as a whole.
pub(crate) fn whole(rule: Rule, file: File) -> Finding
    ensures { result ≡ finding_at rule file 0 0 }
{
    FeatureAt { file, index: 0 }.finding(rule, 0)
}

impl<R: FeatureRow> Taken<R> {
    // Of a file without items.
    fn nothing(alloc: Global) -> Taken<R>
        ensures { TakesNothing result }
    {
        Taken {
            rows: Vec::new(alloc),
            items: 0,
            positions: 0,
        }
    }
}

// The items of a list, if there is one.
fn take_list<R: FeatureRow>(
    alloc: Global,
    gathered: &mut Gathered,
    file: File,
    list: Option<&[Tree]>,
) -> Result<Taken<R>, OutOfMemory>
    requires few { length (trees_of list) ≤ 2 ^ 25 }
    requires short { AreShort (trees_of list) }
    requires texts { AreTexts (trees_of list) }
    requires serves { Serves R.geometry (geometry_of file) }
    ensures findings { OnOk result (Adds (FindsInItems file (trees_of list.entry)) gathered.old.findings.items gathered.new.findings.items) }
    ensures notes { OnOk result (Adds (NotesInItems file (trees_of list.entry)) gathered.old.notes.items gathered.new.notes.items) }
    ensures taken { IfOk result (TakesItems R.is_row file (trees_of list.entry)) }
{
    match list {
        Some(items) => take_items(alloc, gathered, file, items),
        None => Ok(Taken::nothing(alloc)),
    }
}

// The venue's file has another number of items than one.
fn is_not_one(file: File, collection: bool, items: usize) -> bool
    ensures { IsTrue result ↔ ((file ≡ File.Venue) × (collection ≡ true) × (items ≢ 1)) }
{
    file == File::Venue && collection && items != 1
}

// How many items count: those of a collection.
fn counted(collection: bool, items: usize) -> usize
    ensures { result ≡ (if collection then items else 0) }
{
    if collection { items } else { 0 }
}

// The rules on a collection, and its items.
fn take_tree<R: FeatureRow>(
    alloc: Global,
    gathered: &mut Gathered,
    file: File,
    tree: &Tree,
) -> Result<Taken<R>, OutOfMemory>
    requires short { IsShort (tree_view tree.now) }
    requires texts { HasTexts (tree_view tree.now) }
    requires features { file ≢ File.Manifest }
    requires serves { Serves R.geometry (geometry_of file) }
    ensures findings { OnOk result ((slot : ASlot) → HasOnlyValue slot (tree_view tree.now)
        → Adds (FindsInFile file slot) gathered.old.findings.items gathered.new.findings.items) }
    ensures notes { OnOk result ((slot : ASlot) → HasOnlyValue slot (tree_view tree.now)
        → Adds (NotesInFile file slot) gathered.old.notes.items gathered.new.notes.items) }
    ensures taken { IfOk result (λ t. (slot : ASlot) → HasOnlyValue slot (tree_view tree.now) → Takes R.is_row file slot t) }
{
    let collection = is_collection(Some(tree));
    add(&mut gathered.findings, !collection, whole(Rule::C1, file))?;
    let Taken {
        rows,
        items,
        positions,
    } = take_list(alloc, gathered, file, items(Some(tree)))?;
    let broken = is_not_one(file, collection, items);
    add(&mut gathered.findings, broken, whole(Rule::V1, file))?;
    Ok(Taken {
        rows,
        items: counted(collection, items),
        positions,
    })
}

// The file that isn't there.
fn take_absent<R: FeatureRow>(
    alloc: Global,
    gathered: &mut Gathered,
    file: File,
) -> Result<Taken<R>, OutOfMemory>
    requires { file ≢ File.Manifest }
    ensures findings { OnOk result (Adds (FindsInFile file Absent) gathered.old.findings.items gathered.new.findings.items) }
    ensures notes { OnOk result (Adds (NotesInFile file Absent) gathered.old.notes.items gathered.new.notes.items) }
    ensures taken { IfOk result (Takes R.is_row file Absent) }
{
    add(
        &mut gathered.findings,
        file == File::Venue,
        whole(Rule::V1, file),
    )?;
    Ok(Taken::nothing(alloc))
}

// The file that has no value for this cause.
fn take_fault<R: FeatureRow>(
    alloc: Global,
    gathered: &mut Gathered,
    file: File,
    rule: Rule,
) -> Result<Taken<R>, OutOfMemory>
    requires { file ≢ File.Manifest }
    ensures findings { OnOk result ((slot : ASlot) → HasFault rule slot
        → Adds (FindsInFile file slot) gathered.old.findings.items gathered.new.findings.items) }
    ensures notes { OnOk result ((slot : ASlot) → HasFault rule slot
        → Adds (NotesInFile file slot) gathered.old.notes.items gathered.new.notes.items) }
    ensures taken { IfOk result (λ t. (slot : ASlot) → HasFault rule slot → Takes R.is_row file slot t) }
{
    add(&mut gathered.findings, true, whole(rule, file))?;
    Ok(Taken::nothing(alloc))
}

/// Reads a feature file.
pub(crate) fn read_file<R: FeatureRow>(
    alloc: Global,
    gathered: &mut Gathered,
    file: File,
    slot: &Slot,
) -> Result<Taken<R>, OutOfMemory>
    requires features { file ≢ File.Manifest }
    requires serves { Serves R.geometry (geometry_of file) }
    ensures findings { OnOk result (Adds (FindsInFile file slot.now) gathered.old.findings.items gathered.new.findings.items) }
    ensures notes { OnOk result (Adds (NotesInFile file slot.now) gathered.old.notes.items gathered.new.notes.items) }
    ensures taken { IfOk result (Takes R.is_row file slot.now) }
{
    let bytes = match slot {
        Slot::Absent => return take_absent(alloc, gathered, file),
        Slot::Held(bytes) => bytes.as_slice(),
    };
    if bytes.len() > MAX_BYTES {
        return take_fault(alloc, gathered, file, Rule::F2);
    }
    let arena = Arena::new(alloc);
    match read(&arena, bytes) {
        Ok(tree) => take_tree(alloc, gathered, file, &tree),
        Err(JsonFault::Text) => take_fault(alloc, gathered, file, Rule::F3),
        Err(JsonFault::Deep) => take_fault(alloc, gathered, file, Rule::F4),
        Err(JsonFault::OutOfMemory) => Err(OutOfMemory),
    }
}
