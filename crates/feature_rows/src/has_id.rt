//! Rows that have an identifier.

ghost use Rattle.std.specs.Prelude.{◌≡◌};
ghost use Rattle.venue_types.specs.declared.feature_id.FeatureId.{FeatureId};

use venue_types::{AnchorRow, FeatureId, LevelRow, UnitRow};

/// A row that has an identifier.
pub trait HasId {
    /// Its identifier.
    ghost id_of: { Self → FeatureId };

    /// Its identifier.
    fn id(&self) -> FeatureId
        ensures { result ≡ id_of self.now };
}

impl HasId for AnchorRow {
    ghost id_of = { λ row. row.id };

    fn id(&self) -> FeatureId {
        self.id
    }
}

impl HasId for LevelRow {
    ghost id_of = { λ row. row.id };

    fn id(&self) -> FeatureId {
        self.id
    }
}

impl HasId for UnitRow {
    ghost id_of = { λ row. row.id };

    fn id(&self) -> FeatureId {
        self.id
    }
}

/// An identifier by itself, so that any list of them has an index.
impl HasId for FeatureId {
    ghost id_of = { λ id. id };

    fn id(&self) -> FeatureId {
        *self
    }
}
