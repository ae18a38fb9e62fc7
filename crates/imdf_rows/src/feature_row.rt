//! One way to read rows of all kinds.

ghost use Rattle.std.specs.Prelude.{IfOk};
ghost use Rattle.exact_json.specs.View.{tree_view};
ghost use Rattle.exact_json.specs.Json.{Json, HasTexts};
ghost use Rattle.venue_types.specs.declared.folder_file.Geometry.{Geometry};
ghost use Rattle.imdf_rows.specs.Figures.{HasFigure};

use crate::figure::Figure;
use exact_json::Tree;
use std::alloc::Global;
use venue_types::OutOfMemory;

/// A row of features of one type.
pub trait FeatureRow: Drop {
    /// What the geometry of these features is.
    ghost geometry: { Geometry };

    /// The row is that of the item.
    ghost is_row: { Json → Self → Type 0 };

    /// Reads the row of an item, given the figure that its geometry stands for.
    ///
    /// Nothing is promised of the row where a text isn't UTF-8, or where the figure isn't the one that the geometry
    /// stands for. A JSON text has no such texts. It takes n log n steps for n properties.
    fn read_row(alloc: Global, item: &Tree, figure: Figure) -> Result<Self, OutOfMemory>
        ensures { IfOk result (λ row.
            HasTexts (tree_view item.now) → HasFigure geometry (tree_view item.now) figure
            → is_row (tree_view item.now) row) };
}
