//! The notes on what is no place.

ghost use Rattle.std.specs.Prelude.{◌≡◌, ◌↔◌, ℕ, ◌≤◌, IsTrue, IsSome, OnOk, All, length};
ghost use mathlib.Core.List.{IsPrefix};
ghost use Rattle.venue_types.specs.declared.feature_id.FeatureId.{FeatureId};
ghost use Rattle.venue_types.specs.declared.features.RelationshipRow.{RelationshipRow as ARelationship};
ghost use Rattle.feature_rows.specs.Sound.{AreSound, element_count};
ghost use Rattle.plane_exact.specs.Opening.{AreTouches};
ghost use Rattle.rule_reports.specs.Passes.{Adds};
ghost use Rattle.venue_nodes.specs.Nodes.{place_of};
ghost use Rattle.venue_nodes.specs.Noting.{place_note, LackNodes, LeavesElement, LeaveElements, AreEmpty};
ghost use Rattle.venue_nodes.specs.Unplaced.{one_or_none, IsUnplaced};
ghost use Rattle.venue_nodes.specs.Views.{find_place};

use crate::nodes::Nodes;
use crate::notes::PlaceNote;
use imdf_schema::{FeatureAt, Property};
use rule_reports::add;
use venue_types::{Features, List, Note, OutOfMemory, Ref, RelationshipRow, Touches};

// The note on a member of the feature of this index.
fn note_at(note: PlaceNote, index: u32, member: u32) -> Note
    ensures { result ≡ place_note note index member }
{
    let place = FeatureAt {
        file: note.file(),
        index,
    };
    place.note(note.kind(), member)
}

// At each of these references of a property.
#[tactic(auto, using(rule_reports::proofs::Beginnings::beginnings))]
fn note_references(
    nodes: &Nodes,
    notes: &mut Vec<Note>,
    index: u32,
    property: Property,
    references: &[Ref],
) -> Result<(), OutOfMemory>
    requires { length references.now ≤ 65 }
    ensures adds { OnOk result (Adds (LackNodes (find_place nodes.now) index property references.now) notes.old.items notes.new.items) }
    ensures begins { IsPrefix notes.old.items notes.new.items }
{
    for (place, reference) in references.iter().enumerate() {
        let nowhere = nodes.node_of(reference.id).is_none();
        let member = property.number() as u32 + 64 * place as u32;
        add(notes, nowhere, note_at(PlaceNote::N3, index, member))?;
    }
    Ok(())
}

// At the one reference of a property, if there is one.
fn note_reference(
    nodes: &Nodes,
    notes: &mut Vec<Note>,
    index: u32,
    property: Property,
    reference: Option<Ref>,
) -> Result<(), OutOfMemory>
    ensures adds { OnOk result (Adds (LackNodes (find_place nodes.now) index property (one_or_none reference)) notes.old.items notes.new.items) }
    ensures begins { IsPrefix notes.old.items notes.new.items }
{
    match reference {
        None => note_references(nodes, notes, index, property, &[]),
        Some(reference) => note_references(nodes, notes, index, property, &[reference]),
    }
}

// Whether the relationship makes a passage.
fn makes_passage(row: &RelationshipRow) -> bool
    ensures { IsTrue result ↔ IsSome row.now.kind }
{
    row.kind.is_some()
}

// At each element of a relationship that makes a passage: its origin, its intermediaries, its destination.
#[tactic(auto, using(rule_reports::proofs::Beginnings::beginnings))]
fn note_elements(
    nodes: &Nodes,
    notes: &mut Vec<Note>,
    index: u32,
    row: &RelationshipRow,
) -> Result<(), OutOfMemory>
    requires { element_count row.now ≤ 65 }
    ensures adds { OnOk result (Adds (LeavesElement (find_place nodes.now) index row.now) notes.old.items notes.new.items) }
    ensures begins { IsPrefix notes.old.items notes.new.items }
{
    if !makes_passage(row) {
        return Ok(());
    }
    note_reference(nodes, notes, index, Property::Origin, row.origin)?;
    let between = row.between.as_slice();
    note_references(nodes, notes, index, Property::Intermediary, between)?;
    note_reference(nodes, notes, index, Property::Destination, row.destination)
}

// At each relationship.
#[tactic(auto, using(rule_reports::proofs::Beginnings::beginnings))]
fn note_relationships(
    nodes: &Nodes,
    notes: &mut Vec<Note>,
    rows: &[RelationshipRow],
) -> Result<(), OutOfMemory>
    requires few { length rows.now ≤ 100000 }
    requires short { All (λ (row : ARelationship). element_count row ≤ 65) rows.now }
    ensures adds { OnOk result (Adds (LeaveElements (find_place nodes.now) rows.now) notes.old.items notes.new.items) }
    ensures begins { IsPrefix notes.old.items notes.new.items }
{
    for (k, row) in rows.iter().enumerate() {
        note_elements(nodes, notes, k as u32, row)?;
    }
    Ok(())
}

// At each opening, by the row of the units that it touches.
#[tactic(auto, using(rule_reports::proofs::Beginnings::beginnings))]
fn note_openings(notes: &mut Vec<Note>, rows: &[List<u32>]) -> Result<(), OutOfMemory>
    requires { length rows.now ≤ 100000 }
    ensures adds { OnOk result (Adds (AreEmpty rows.now) notes.old.items notes.new.items) }
    ensures begins { IsPrefix notes.old.items notes.new.items }
{
    for (k, row) in rows.iter().enumerate() {
        add(notes, row.is_empty(), note_at(PlaceNote::N4, k as u32, 0))?;
    }
    Ok(())
}

/// Adds the notes on elements of passages that have no node, and on openings that touch no unit. Takes log n time an element.
#[tactic(auto, using(rule_reports::proofs::Beginnings::beginnings))]
pub fn place_notes(
    features: &Features,
    touches: &Touches,
    nodes: &Nodes,
    notes: &mut Vec<Note>,
) -> Result<(), OutOfMemory>
    requires sound { AreSound features.now }
    requires places { (id : FeatureId) → find_place nodes.now id ≡ place_of features.now id }
    requires rows { length touches.now.rows ≡ length features.now.openings }
    ensures adds { (border_tol : ℕ) → AreTouches border_tol features.now touches.now → OnOk result (Adds (IsUnplaced features.now border_tol) notes.old.items notes.new.items) }
    ensures begins { IsPrefix notes.old.items notes.new.items }
{
    note_relationships(nodes, notes, features.relationships.as_slice())?;
    note_openings(notes, touches.rows.as_slice())
}
