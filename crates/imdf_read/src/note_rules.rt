//! The notes on one item.

ghost use Rattle.std.specs.Prelude.{◌≡◌, ◌≢◌, ◌↔◌, IsTrue, OnOk, Some, None, false, codes, ℕ, List};
ghost use Rattle.exact_json.specs.Json.{text_bytes};
ghost use Rattle.exact_json.specs.View.{tree_view};
ghost use Rattle.imdf_access.specs.Categories.{is_known_unit, passage_of};
ghost use Rattle.imdf_schema.specs.Values.{seen};
ghost use Rattle.imdf_read.specs.Noted.{ItemNotes};
ghost use Rattle.rule_reports.specs.Passes.{Adds};
ghost use Rattle.imdf_read.specs.Gathering.{NotesBy, NotesInItem};

use exact_json::Tree;
use imdf_access::{known_unit, passage};
use imdf_schema::{FeatureAt, File, NoteKind, Property, is_feature, property, text};
use rule_reports::add;
use venue_types::{Note, OutOfMemory};

static KINDS: [NoteKind; 3] = [NoteKind::N1, NoteKind::N2, NoteKind::N5];

// A category that no rule of units is for.
fn is_unknown(category: Option<&Tree>) -> bool
    ensures { IsTrue result ↔ ((t : List ℕ) × (text_bytes (seen category.entry) ≡ Some t) × (is_known_unit t ≡ false)) }
{
    match text(category) {
        Some(text) => !known_unit(text),
        None => false,
    }
}

// A category that makes no passage.
fn makes_none(category: Option<&Tree>) -> bool
    ensures { IsTrue result ↔ ((t : List ℕ) × (text_bytes (seen category.entry) ≡ Some t) × (passage_of t ≡ None)) }
{
    match text(category) {
        Some(text) => passage(text).is_none(),
        None => false,
    }
}

// A restriction that is another text than the two that are known.
fn is_other(restriction: Option<&Tree>) -> bool
    ensures { IsTrue result ↔ ((t : List ℕ) × (text_bytes (seen restriction.entry) ≡ Some t) × (t ≢ codes "employeesonly") × (t ≢ codes "restricted")) }
{
    match text(restriction) {
        Some(text) => text != b"employeesonly".as_slice() && text != b"restricted".as_slice(),
        None => false,
    }
}

// Whether the note is due.
fn is_due(kind: NoteKind, file: File, item: &Tree) -> bool
    ensures { IsTrue result ↔ ItemNotes kind file (tree_view item.now) }
{
    match kind {
        NoteKind::N1 => file == File::Unit && is_unknown(property(item, Property::Category)),
        NoteKind::N2 => file == File::Relationship
            && makes_none(property(item, Property::Category)),
        NoteKind::N5 => file == File::Unit && is_other(property(item, Property::Restriction)),
        NoteKind::N3 | NoteKind::N4 => false,
    }
}

// Each note of a feature.
fn judge_kinds(
    notes: &mut Vec<Note>,
    place: FeatureAt,
    item: &Tree,
    kinds: &[NoteKind],
) -> Result<(), OutOfMemory>
    ensures { OnOk result (Adds (NotesBy kinds.now place.file place.index (tree_view item.now)) notes.old.items notes.new.items) }
{
    for kind in kinds {
        let due = is_due(*kind, place.file, item);
        add(notes, due, place.note(*kind, 0))?;
    }
    Ok(())
}

/// The notes on an item.
pub(crate) fn judge_notes(
    notes: &mut Vec<Note>,
    place: FeatureAt,
    item: &Tree,
) -> Result<(), OutOfMemory>
    ensures { OnOk result (Adds (NotesInItem place.file place.index (tree_view item.now)) notes.old.items notes.new.items) }
{
    if !is_feature(item) {
        return Ok(());
    }
    judge_kinds(notes, place, item, &KINDS)
}
