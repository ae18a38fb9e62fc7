//! What holds others: levels and units by identifier, with their shapes made ready.

ghost use Rattle.std.specs.Prelude.{◌≡◌, ◌≢◌, IfOk, MatchOption, Contains, map};
ghost use Rattle.feature_rows.specs.Rows.{HaveOwnIds};
ghost use Rattle.feature_rows.specs.Indexes.{AreOnce, IsOnlyRow};
ghost use Rattle.feature_rows.specs.Figures.{judged_positions};
ghost use Rattle.plane_exact.specs.Figure.{AllClose};
ghost use Rattle.contain_rules.specs.Banding.{AreCloseShapes};
ghost use Rattle.contain_rules.specs.Holders.{IsShapeIndex, AreHolders};

use crate::shape_trees::bands_of;
use feature_rows::{HasId, HasShape, Index, once_law, row_law};
use plane_trees::Bands;
use std::alloc::Global;
use venue_types::{FeatureId, Features, List, OutOfMemory};

/// Where the rows of a file stand by identifier, and their shapes made ready, place by place.
#[derive(Drop)]
pub(crate) struct ShapeIndex<'a> {
    places: Index,
    bands: Vec<Bands<'a>>,
}

impl<'a> ShapeIndex<'a> {
    // Of these rows. Takes n log n time.
    fn of<R: HasId + HasShape>(alloc: Global, rows: &'a [R]) -> Result<ShapeIndex<'a>, OutOfMemory>
        requires once { AreOnce (map R.id_of rows.now) }
        requires close { AreCloseShapes (map R.shape_of rows.now) }
        ensures { IfOk result (IsShapeIndex (map R.id_of rows.now) (map R.shape_of rows.now)) }
    {
        Ok(ShapeIndex {
            places: Index::of(alloc, rows)?,
            bands: bands_of(alloc, rows)?,
        })
    }

    /// Of its rows the one of this identifier, and its shape made ready. Takes log n time.
    pub(crate) fn find<'b, R: HasId + HasShape>(
        &'b self,
        rows: &'b List<R>,
        id: FeatureId,
    ) -> Option<(&'b R, &'b Bands<'a>)>
        requires { IsShapeIndex (map R.id_of rows.now) (map R.shape_of rows.now) self.now }
        ensures { MatchOption result ((row : R) → Contains rows.now row → R.id_of row ≢ id) (λ found. IsOnlyRow R.id_of rows.now id found.0.now × (found.1.now ≡ R.shape_of found.0.now)) }
    {
        row_law::<R>();
        let place = self.places.place_of(id)?;
        let row = rows.as_slice().get(place)?;
        Some((row, &self.bands[place]))
    }
}

/// The features that hold others.
#[derive(Drop)]
pub(crate) struct Holders<'a> {
    pub levels: ShapeIndex<'a>,
    pub units: ShapeIndex<'a>,
}

impl<'a> Holders<'a> {
    /// The levels and the units by their identifiers.
    pub(crate) fn of(alloc: Global, features: &'a Features) -> Result<Holders<'a>, OutOfMemory>
        requires own_ids { HaveOwnIds features.now }
        requires close { AllClose (judged_positions features.now) }
        ensures { IfOk result (AreHolders features.now) }
    {
        once_law();
        Ok(Holders {
            levels: ShapeIndex::of(alloc, features.levels.as_slice())?,
            units: ShapeIndex::of(alloc, features.units.as_slice())?,
        })
    }
}
