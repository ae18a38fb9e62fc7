//! Which features aren't held by what is to hold them.

ghost use Rattle.std.specs.Prelude.{◌≡◌, ◌↔◌, ℕ, List, IsTrue, Contains};
ghost use Rattle.venue_types.specs.declared.features.Features.{Features};
ghost use Rattle.imdf_schema.specs.declared.rules.Rule.{Rule as ARule};
ghost use Rattle.contain_rules.specs.Rules.{file_judged};
ghost use Rattle.contain_rules.specs.Judging.{CanJudge, UnitHolds, OneHolds};

use crate::holders::Holders;
use crate::outside_positions::{figure_leaves, is_held, some_leaves};
use feature_rows::{amenity_point_law, anchor_point_law, opening_point_law, unit_vertex_law};
use imdf_schema::{File, Rule};
use venue_types::{AmenityRow, AnchorRow, FeatureId, Features, List, OpeningRow, UnitRow};

/// A row of a feature that another is to hold.
pub(crate) trait HasHolder {
    /// The rule that it breaks where it isn't held.
    ghost rule: { ARule };

    /// The rows of its file.
    ghost rows: { Features → List Self };

    /// Whether it isn't held, within the tolerance.
    ghost leaves: { Features → ℕ → Self → Type 0 };

    /// The rule that it breaks.
    fn rule() -> Rule
        ensures { result ≡ rule };

    /// Its file.
    fn file() -> File
        ensures { result ≡ file_judged rule };

    /// The rows of its file.
    fn rows(features: &Features) -> &List<Self>
        ensures { result.now ≡ rows features.now };

    /// Whether it isn't held.
    fn leaves(&self, features: &Features, holders: &Holders, tolerance: u32) -> bool
        requires ready { CanJudge features.now tolerance holders.now }
        requires own { Contains (rows features.now) self.now }
        ensures { IsTrue result ↔ leaves features.now tolerance self.now };
}

/// A unit, whose vertices its level is to hold.
impl HasHolder for UnitRow {
    ghost use Rattle.imdf_schema.specs.declared.rules.Rule.TheVariants.{K1};
    ghost use Rattle.contain_rules.specs.Rules.{UnitLeaves};

    ghost rule = { K1 };

    ghost rows = { λ features. features.units };

    ghost leaves = { UnitLeaves };

    fn rule() -> Rule {
        Rule::K1
    }

    fn file() -> File {
        File::Unit
    }

    fn rows(features: &Features) -> &List<UnitRow> {
        &features.units
    }

    fn leaves(&self, features: &Features, holders: &Holders, tolerance: u32) -> bool {
        unit_vertex_law();
        match holders.levels.find(&features.levels, self.level) {
            Some((_, level)) => figure_leaves(level, tolerance, &self.shape),
            None => false,
        }
    }
}

/// An anchor, whose point its unit is to hold.
impl HasHolder for AnchorRow {
    ghost use Rattle.imdf_schema.specs.declared.rules.Rule.TheVariants.{K2};
    ghost use Rattle.contain_rules.specs.Rules.{AnchorLeaves};

    ghost rule = { K2 };

    ghost rows = { λ features. features.anchors };

    ghost leaves = { AnchorLeaves };

    fn rule() -> Rule {
        Rule::K2
    }

    fn file() -> File {
        File::Anchor
    }

    fn rows(features: &Features) -> &List<AnchorRow> {
        &features.anchors
    }

    fn leaves(&self, features: &Features, holders: &Holders, tolerance: u32) -> bool {
        anchor_point_law();
        match holders.units.find(&features.units, self.unit) {
            Some((_, unit)) => !is_held(unit, tolerance, self.point),
            None => false,
        }
    }
}

// Whether the unit holds the amenity's point.
fn unit_holds(
    features: &Features,
    holders: &Holders,
    tolerance: u32,
    amenity: &AmenityRow,
    id: FeatureId,
) -> bool
    requires ready { CanJudge features.now tolerance holders.now }
    requires own { Contains features.now.amenities amenity.now }
    ensures { IsTrue result ↔ UnitHolds features.now tolerance amenity.now.point id }
{
    amenity_point_law();
    match holders.units.find(&features.units, id) {
        Some((_, unit)) => is_held(unit, tolerance, amenity.point),
        None => false,
    }
}

// Whether one of these units holds the amenity's point.
fn one_holds(
    features: &Features,
    holders: &Holders,
    tolerance: u32,
    amenity: &AmenityRow,
    ids: &[FeatureId],
) -> bool
    requires ready { CanJudge features.now tolerance holders.now }
    requires own { Contains features.now.amenities amenity.now }
    ensures { IsTrue result ↔ OneHolds features.now tolerance amenity.now.point ids.now }
{
    let mut held = false;
    for id in ids {
        held = held || unit_holds(features, holders, tolerance, amenity, *id);
    }
    held
}

/// An amenity, whose point one of its units is to hold.
impl HasHolder for AmenityRow {
    ghost use Rattle.imdf_schema.specs.declared.rules.Rule.TheVariants.{K3};
    ghost use Rattle.contain_rules.specs.Rules.{AmenityLeaves};

    ghost rule = { K3 };

    ghost rows = { λ features. features.amenities };

    ghost leaves = { AmenityLeaves };

    fn rule() -> Rule {
        Rule::K3
    }

    fn file() -> File {
        File::Amenity
    }

    fn rows(features: &Features) -> &List<AmenityRow> {
        &features.amenities
    }

    fn leaves(&self, features: &Features, holders: &Holders, tolerance: u32) -> bool {
        !one_holds(features, holders, tolerance, self, self.units.as_slice())
    }
}

/// An opening, whose points its level is to hold.
impl HasHolder for OpeningRow {
    ghost use Rattle.imdf_schema.specs.declared.rules.Rule.TheVariants.{K4};
    ghost use Rattle.contain_rules.specs.Rules.{OpeningLeaves};

    ghost rule = { K4 };

    ghost rows = { λ features. features.openings };

    ghost leaves = { OpeningLeaves };

    fn rule() -> Rule {
        Rule::K4
    }

    fn file() -> File {
        File::Opening
    }

    fn rows(features: &Features) -> &List<OpeningRow> {
        &features.openings
    }

    fn leaves(&self, features: &Features, holders: &Holders, tolerance: u32) -> bool {
        opening_point_law();
        match holders.levels.find(&features.levels, self.level) {
            Some((_, level)) => some_leaves(level, tolerance, self.line.points.as_slice()),
            None => false,
        }
    }
}
