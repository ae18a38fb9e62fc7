//! Rows whose geometry is a shape.

ghost use Rattle.std.specs.Prelude.{◌≡◌};
ghost use Rattle.venue_types.specs.declared.point.Shape.{Shape};

use venue_types::{FixtureRow, FootprintRow, LevelRow, Shape, UnitRow, VenueRow};

/// A row of a feature whose geometry is a shape.
pub trait HasShape {
    /// Its shape.
    ghost shape_of: { Self → Shape };

    /// Its shape.
    fn shape(&self) -> &Shape
        ensures { result.now ≡ shape_of self.now };
}

impl HasShape for FixtureRow {
    ghost shape_of = { λ row. row.shape };

    fn shape(&self) -> &Shape {
        &self.shape
    }
}

impl HasShape for FootprintRow {
    ghost shape_of = { λ row. row.shape };

    fn shape(&self) -> &Shape {
        &self.shape
    }
}

impl HasShape for LevelRow {
    ghost shape_of = { λ row. row.shape };

    fn shape(&self) -> &Shape {
        &self.shape
    }
}

impl HasShape for UnitRow {
    ghost shape_of = { λ row. row.shape };

    fn shape(&self) -> &Shape {
        &self.shape
    }
}

impl HasShape for VenueRow {
    ghost shape_of = { λ row. row.shape };

    fn shape(&self) -> &Shape {
        &self.shape
    }
}
