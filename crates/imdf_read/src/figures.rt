//! The geometry of an item, read and judged.

ghost use Rattle.std.specs.Prelude.{◌≡◌, IfOk, true, false, [], min, length, IfSome, IsSome, IsTrue, ◌↔◌};
ghost use Rattle.exact_json.specs.View.{tree_view};
ghost use Rattle.imdf_schema.specs.Items.{geometry as geometry_of_item};
ghost use Rattle.imdf_read.specs.Judging.{IsRead, IsJudged};

use exact_json::Tree;
use geo_shapes::{ReadGeometry, line, point, shape};
use imdf_rows::Figure;
use imdf_schema::{File, Geometry, fits_geometry, geometry, is_feature};
use std::alloc::Global;
use venue_types::{Line, OutOfMemory, Point, Shape};

/// What was read of an item's geometry.
#[derive(Drop)]
pub(crate) struct Judged {
    /// The figure that it stands for, if it stands for one.
    pub figure: Figure,
    /// What stands in the place of a position is none.
    pub bad_position: bool,
    /// Its form is broken.
    pub bad_form: bool,
    /// How many values stand in the place of a position. It stands still at its type's end.
    pub positions: u64,
    /// How many of them the longest ring has.
    pub longest: u64,
}

impl Judged {
    /// Of a geometry that isn't read.
    pub(crate) fn nothing() -> Judged
        ensures { result ≡ record { figure = Figure.Nothing; bad_position = false; bad_form = false; positions = 0; longest = 0 } }
    {
        Judged {
            figure: Figure::Nothing,
            bad_position: false,
            bad_form: false,
            positions: 0,
            longest: 0,
        }
    }
}

fn point_figure(value: Option<Point>) -> Figure
    ensures { IfSome value (λ p. result ≡ Figure.Point p) }
{
    match value {
        Some(point) => Figure::Point(point),
        None => Figure::Nothing,
    }
}

fn line_figure(value: Option<Line>) -> Figure
    ensures { IfSome value (λ l. result ≡ Figure.Line l) }
{
    match value {
        Some(line) => Figure::Line(line),
        None => Figure::Nothing,
    }
}

fn shape_figure(value: Option<Shape>) -> Figure
    ensures { IfSome value (λ s. result ≡ Figure.Shape s) }
{
    match value {
        Some(shape) => Figure::Shape(shape),
        None => Figure::Nothing,
    }
}

fn judged_point(tree: &Tree) -> Judged
    ensures { IsRead Geometry.Point (tree_view tree.now) result }
{
    let read = point(tree);
    Judged {
        figure: point_figure(read.value),
        bad_position: read.bad_position,
        bad_form: read.bad_form,
        positions: read.positions,
        longest: read.longest,
    }
}

fn judged_line(alloc: Global, tree: &Tree) -> Result<Judged, OutOfMemory>
    ensures { IfOk result (IsRead Geometry.Line (tree_view tree.now)) }
{
    let ReadGeometry {
        value,
        bad_position,
        bad_form,
        positions,
        longest,
    } = line(alloc, tree)?;
    Ok(Judged {
        figure: line_figure(value),
        bad_position,
        bad_form,
        positions,
        longest,
    })
}

fn judged_shape(alloc: Global, tree: &Tree) -> Result<Judged, OutOfMemory>
    ensures { IfOk result (IsRead Geometry.Shape (tree_view tree.now)) }
{
    let ReadGeometry {
        value,
        bad_position,
        bad_form,
        positions,
        longest,
    } = shape(alloc, tree)?;
    Ok(Judged {
        figure: shape_figure(value),
        bad_position,
        bad_form,
        positions,
        longest,
    })
}

// A geometry that is of the type that is asked for.
fn read_figure(alloc: Global, kind: Geometry, tree: &Tree) -> Result<Judged, OutOfMemory>
    ensures { IfOk result (IsRead kind (tree_view tree.now)) }
{
    match kind {
        Geometry::Null | Geometry::Unjudged => Ok(Judged::nothing()),
        Geometry::Point => Ok(judged_point(tree)),
        Geometry::Line => judged_line(alloc, tree),
        Geometry::Shape => judged_shape(alloc, tree),
    }
}

/// Reads the geometry of an item, if it is judged.
pub(crate) fn judged_geometry(alloc: Global, file: File, item: &Tree) -> Result<Judged, OutOfMemory>
    ensures { IfOk result (IsJudged file (tree_view item.now)) }
{
    let kind = file.geometry();
    match geometry(item) {
        Some(tree) => {
            if is_feature(item) && fits_geometry(kind, Some(tree)) {
                read_figure(alloc, kind, tree)
            } else {
                Ok(Judged::nothing())
            }
        }
        None => Ok(Judged::nothing()),
    }
}
