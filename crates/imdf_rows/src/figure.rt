//! What the geometry of a feature was read into.

ghost use Rattle.std.specs.Prelude.{◌≡◌};
ghost use Rattle.imdf_rows.specs.Defaults.{point_or_origin, line_or_empty, shape_or_empty};

use std::alloc::Global;
use venue_types::{Line, List, Point, Shape};

/// The figure that a feature's geometry stands for.
#[derive(Drop)]
pub enum Figure {
    /// None was read.
    Nothing,
    Point(Point),
    Line(Line),
    Shape(Shape),
}

/// The point, or that of longitude and latitude 0 where it is none.
pub(crate) fn into_point(figure: Figure) -> Point
    ensures { result ≡ point_or_origin figure }
{
    match figure {
        Figure::Point(point) => point,
        _ => Point { x: 0, y: 0 },
    }
}

/// The line, or that of no points where it is none.
pub(crate) fn into_line(alloc: Global, figure: Figure) -> Line
    ensures { result ≡ line_or_empty figure }
{
    match figure {
        Figure::Line(line) => line,
        _ => Line {
            points: List::new(alloc),
        },
    }
}

/// The shape, or that of no parts where it is none.
pub(crate) fn into_shape(alloc: Global, figure: Figure) -> Shape
    ensures { result ≡ shape_or_empty figure }
{
    match figure {
        Figure::Shape(shape) => shape,
        _ => Shape {
            parts: List::new(alloc),
        },
    }
}
