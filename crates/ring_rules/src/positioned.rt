//! What has positions.

ghost use Rattle.std.specs.Prelude.{List, flat_map, map};
ghost use Rattle.venue_types.specs.declared.point.Point.{Point};
ghost use Rattle.plane_exact.specs.Figure.{vertices};
ghost use Rattle.ring_rules.specs.Bounds.{AreBounds};

use crate::bounds::Bounds;
use feature_rows::HasShape;
use venue_types::{AmenityRow, AnchorRow, List, OpeningRow, Part, Point, Ring, Shape};

/// What has positions.
pub(crate) trait HasPositions {
    /// Its positions.
    ghost positions: { Self → List Point };

    /// The bounds of its positions.
    fn bounds(&self) -> Bounds
        ensures { AreBounds (positions self.now) result };
}

/// The bounds of the positions of all items.
pub(crate) fn bounds_of<T: HasPositions>(items: &List<T>) -> Bounds
    ensures { AreBounds (flat_map T.positions items.now) result }
{
    bounds_in(items.as_slice())
}

// The same of a slice.
fn bounds_in<T: HasPositions>(items: &[T]) -> Bounds
    ensures { AreBounds (flat_map T.positions items.now) result }
{
    let mut bounds = Bounds::none();
    for item in items {
        bounds = bounds.join(item.bounds());
    }
    bounds
}

/// The bounds of the vertices of the rows' shapes.
pub(crate) fn bounds_of_shapes<R: HasShape>(rows: &List<R>) -> Bounds
    ensures { AreBounds (flat_map vertices (map R.shape_of rows.now)) result }
{
    let mut bounds = Bounds::none();
    for row in rows.as_slice() {
        bounds = bounds.join(row.shape().bounds());
    }
    bounds
}

impl HasPositions for Point {
    ghost use Rattle.std.specs.Prelude.{[], ◌∷◌};

    ghost positions = { λ p. p ∷ [] };

    fn bounds(&self) -> Bounds {
        Bounds::of(*self)
    }
}

impl HasPositions for Ring {
    ghost positions = { λ ring. ring.points };

    fn bounds(&self) -> Bounds {
        bounds_of(&self.points)
    }
}

impl HasPositions for Part {
    ghost use Rattle.plane_exact.specs.Figure.{part_points};

    ghost positions = { part_points };

    fn bounds(&self) -> Bounds {
        self.outer.bounds().join(bounds_of(&self.holes))
    }
}

impl HasPositions for Shape {
    ghost use Rattle.plane_exact.specs.Figure.{vertices};

    ghost positions = { vertices };

    fn bounds(&self) -> Bounds {
        bounds_of(&self.parts)
    }
}

impl HasPositions for AmenityRow {
    ghost use Rattle.std.specs.Prelude.{[], ◌∷◌};

    ghost positions = { λ row. row.point ∷ [] };

    fn bounds(&self) -> Bounds {
        self.point.bounds()
    }
}

impl HasPositions for AnchorRow {
    ghost use Rattle.std.specs.Prelude.{[], ◌∷◌};

    ghost positions = { λ row. row.point ∷ [] };

    fn bounds(&self) -> Bounds {
        self.point.bounds()
    }
}

impl HasPositions for OpeningRow {
    ghost positions = { λ row. row.line.points };

    fn bounds(&self) -> Bounds {
        bounds_of(&self.line.points)
    }
}
