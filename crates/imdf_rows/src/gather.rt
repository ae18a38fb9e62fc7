//! The rows of a file, gathered as its items are gone over.

ghost use Rattle.std.specs.Prelude.{◌≡◌, List, [], ◌∷◌, ◌++◌, OnOk, OnErr};
ghost use Rattle.std.specs.List.{AllZip};
ghost use Rattle.exact_json.specs.Json.{Json, HasTexts};
ghost use Rattle.exact_json.specs.View.{tree_view};
ghost use Rattle.imdf_rows.specs.Figures.{HasFigure};

use crate::feature_row::FeatureRow;
use crate::figure::Figure;
use exact_json::Tree;
use std::alloc::Global;
use venue_types::OutOfMemory;

/// Adds the row of an item to those of the items before it, given the figure that its geometry stands for.
///
/// Where a geometry is bad there is no figure: give `Figure::Nothing`, and nothing is promised of the row.
#[tactic(auto, using(std::proofs::lemmas::Slice::Zip::all_zipped_more))]
pub fn push_row<R: FeatureRow>(
    alloc: Global,
    rows: &mut Vec<R>,
    item: &Tree,
    figure: Figure,
) -> Result<(), OutOfMemory>
    // The rows of the items before it become those of these items and this one.
    ensures rows { OnOk result ((items : List Json)
        → AllZip R.is_row items rows.old.items
        → HasTexts (tree_view item.now)
        → HasFigure R.geometry (tree_view item.now) figure
        → AllZip R.is_row (items ++ tree_view item.now ∷ []) rows.new.items) }
    ensures err { OnErr result (rows.new.items ≡ rows.old.items) }
{
    let row = R::read_row(alloc, item, figure)?;
    rows.push(row)?;
    Ok(())
}
