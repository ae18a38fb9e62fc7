//! What the test of whether an opening touches a unit means.

ghost use Rattle.std.specs.Prelude.{ℕ, ◌↔◌, IsTrue};
ghost use Rattle.venue_types.specs.declared.features.OpeningRow.{OpeningRow};
ghost use Rattle.venue_types.specs.declared.features.UnitRow.{UnitRow};
ghost use Rattle.plane_exact.specs.Opening.{Touches};
ghost use Rattle.venue_nodes.specs.Touching.{does_touch};

/// The test holds exactly of an opening and a unit that touch.
pub fn touch_law()
    ensures { (border_tol : ℕ) (o : OpeningRow) (u : UnitRow) → IsTrue (does_touch border_tol o u) ↔ Touches border_tol o u }
{}
