//! How far the positions of a folder lie apart.

ghost use Rattle.std.specs.Prelude.{◌≡◌, IsTrue, ◌↔◌, false, flat_map};
ghost use Rattle.plane_exact.specs.Figure.{AllClose};
ghost use Rattle.feature_rows.specs.Figures.{display_of, judged_positions};
ghost use Rattle.ring_rules.specs.Bounds.{AreBounds};
ghost use Rattle.ring_rules.specs.Rules.{IsSpread};

use crate::bounds::Bounds;
use crate::positioned::{bounds_of, bounds_of_shapes};
use venue_types::{Features, UnitRow};

// The bounds of the units' display points.
fn bounds_of_displays(units: &[UnitRow]) -> Bounds
    ensures { AreBounds (flat_map display_of units.now) result }
{
    let mut bounds = Bounds::none();
    for unit in units {
        bounds = bounds.join(bounds_of_display(unit));
    }
    bounds
}

// The bounds of a unit's display point, if it has one.
fn bounds_of_display(unit: &UnitRow) -> Bounds
    ensures { AreBounds (display_of unit.now) result }
{
    match unit.display {
        Some(p) => Bounds::of(p),
        None => Bounds::none(),
    }
}

// The bounds of the positions that are judged.
fn bounds_of_judged(features: &Features) -> Bounds
    ensures { AreBounds (judged_positions features.now) result }
{
    bounds_of(&features.amenities)
        .join(bounds_of(&features.anchors))
        .join(bounds_of_shapes(&features.fixtures))
        .join(bounds_of_shapes(&features.footprints))
        .join(bounds_of_shapes(&features.levels))
        .join(bounds_of(&features.openings))
        .join(bounds_of_shapes(&features.units))
        .join(bounds_of_shapes(&features.venues))
        .join(bounds_of_displays(features.units.as_slice()))
}

/// Whether two judged positions differ by more than 200,000,000 nanodegrees on an axis.
///
/// It takes time in proportion to the positions, and no memory.
pub fn is_spread(features: &Features) -> bool
    ensures spread { IsTrue result ↔ IsSpread features.now }
    ensures close { result ≡ false → AllClose (judged_positions features.now) }
{
    bounds_of_judged(features).are_wide()
}
