//! The items of a feature file: judged, noted, and made rows, one after the other.

ghost use Rattle.std.specs.Prelude.{◌≡◌, ◌≤◌, ◌^◌, ◌-◌, ◌++◌, ◌∷◌, [], OnOk, IfOk, List, length, map, min, true};
ghost use Rattle.std.specs.List.{AllZip};
ghost use Rattle.exact_json.specs.Json.{Json, HasTexts};
ghost use Rattle.exact_json.specs.View.{tree_view};
ghost use Rattle.venue_types.specs.declared.finding.Finding.{Finding as AFinding};
ghost use Rattle.venue_types.specs.FolderFiles.{geometry_of};
ghost use Rattle.imdf_schema.specs.Items.{is_feature as feature_is};
ghost use Rattle.imdf_rows.specs.Figures.{HasFigure};
ghost use Rattle.imdf_read.specs.Counts.{item_positions};
ghost use Rattle.rule_reports.specs.Passes.{Adds};
ghost use Rattle.imdf_read.specs.Gathering.{FindsInItem, FindsInItems, NotesInItem, NotesInItems, IsShort};
ghost use Rattle.imdf_read.specs.Taking.{Serves, AreShort, AreTexts, TakesItems};

use crate::figures::Judged;
use crate::item::judge_item;
use crate::note_rules::judge_notes;
use exact_json::Tree;
use imdf_rows::{FeatureRow, Figure, push_row};
use imdf_schema::{FeatureAt, File, is_feature};
use std::alloc::Global;
use venue_types::{Finding, Note, OutOfMemory};

/// What was gathered so far of a folder.
#[derive(Drop)]
pub(crate) struct Gathered {
    pub findings: Vec<Finding>,
    pub notes: Vec<Note>,
}

// The row of a feature. No row is promised of an item that is none, and many such rows take memory for nothing.
fn take_row<R: FeatureRow>(
    alloc: Global,
    rows: &mut Vec<R>,
    item: &Tree,
    figure: Figure,
) -> Result<(), OutOfMemory>
    ensures { OnOk result ((items : List Json) → AllZip R.is_row items rows.old.items → HasTexts (tree_view item.now)
        → feature_is (tree_view item.now) ≡ true → HasFigure R.geometry (tree_view item.now) figure
        → AllZip R.is_row (items ++ tree_view item.now ∷ []) rows.new.items) }
{
    if !is_feature(item) {
        return Ok(());
    }
    push_row(alloc, rows, item, figure)
}

// One item, and how many positions its geometry has.
fn take_item<R: FeatureRow>(
    alloc: Global,
    gathered: &mut Gathered,
    rows: &mut Vec<R>,
    place: FeatureAt,
    item: &Tree,
) -> Result<u64, OutOfMemory>
    requires short { IsShort (tree_view item.now) }
    requires serves { Serves R.geometry (geometry_of place.file) }
    ensures findings { OnOk result (Adds (FindsInItem place.file place.index (tree_view item.now)) gathered.old.findings.items gathered.new.findings.items) }
    ensures notes { OnOk result (Adds (NotesInItem place.file place.index (tree_view item.now)) gathered.old.notes.items gathered.new.notes.items) }
    ensures rows { OnOk result ((items : List Json) → AllZip R.is_row items rows.old.items → HasTexts (tree_view item.now)
        → ((x : AFinding) → ¬ FindsInItem place.file place.index (tree_view item.now) x)
        → AllZip R.is_row (items ++ tree_view item.now ∷ []) rows.new.items) }
    ensures positions { IfOk result (λ n. n ≡ min (item_positions place.file (tree_view item.now)) (2 ^ 64 - 1)) }
{
    let Judged {
        figure,
        bad_position: _,
        bad_form: _,
        positions,
        longest: _,
    } = judge_item(alloc, &mut gathered.findings, place, item)?;
    judge_notes(&mut gathered.notes, place, item)?;
    take_row(alloc, rows, item, figure)?;
    Ok(positions)
}

/// The rows of a file, and what is counted of it.
#[derive(Drop)]
pub(crate) struct Taken<R> {
    pub rows: Vec<R>,
    /// How many items it has, if it is a collection.
    pub items: usize,
    /// How many positions its judged geometries have. It stands still at its type's end.
    pub positions: u64,
}

/// The items of a feature file. Their number is given as that of a collection.
pub(crate) fn take_items<R: FeatureRow>(
    alloc: Global,
    gathered: &mut Gathered,
    file: File,
    items: &[Tree],
) -> Result<Taken<R>, OutOfMemory>
    requires few { length items.now ≤ 2 ^ 25 }
    requires short { AreShort (map tree_view items.now) }
    requires texts { AreTexts (map tree_view items.now) }
    requires serves { Serves R.geometry (geometry_of file) }
    ensures findings { OnOk result (Adds (FindsInItems file (map tree_view items.now)) gathered.old.findings.items gathered.new.findings.items) }
    ensures notes { OnOk result (Adds (NotesInItems file (map tree_view items.now)) gathered.old.notes.items gathered.new.notes.items) }
    ensures taken { IfOk result (TakesItems R.is_row file (map tree_view items.now)) }
{
    let mut rows = Vec::new(alloc);
    let mut positions = 0u64;
    for (k, item) in items.iter().enumerate() {
        let place = FeatureAt {
            file,
            index: k as u32,
        };
        let more = take_item(alloc, gathered, &mut rows, place, item)?;
        positions = positions.saturating_add(more);
    }
    Ok(Taken {
        rows,
        items: items.len(),
        positions,
    })
}
