//! What the definition of the spread means.

ghost use Rattle.venue_types.specs.declared.features.Features.{Features};
ghost use Rattle.plane_exact.specs.Figure.{AllClose};
ghost use Rattle.feature_rows.specs.Figures.{judged_positions};
ghost use Rattle.ring_rules.specs.Rules.{IsSpread};

/// Where no two judged positions lie too far apart, any two of them are close.
pub fn no_spread_law()
    ensures { (features : Features) → ¬ IsSpread features → AllClose (judged_positions features) }
{}
