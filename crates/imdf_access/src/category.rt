//! What a category means for walking.

ghost use Rattle.std.specs.Prelude.{◌≡◌};
ghost use Rattle.imdf_access.specs.Categories.{is_walkable, is_known_unit, unit_kind_of, passage_of};

use crate::meaning::{Meaning, category_meaning};
use venue_types::Kind;

/// Whether a unit of the category can be walked through. One whose category is unknown can.
#[tactic(auto, unfolding(crate::specs::Categories::is_walkable))]
pub fn walkable(category: &[u8]) -> bool
    ensures { result ≡ is_walkable category.now }
{
    category_meaning(category) != Meaning::Solid
}

/// Whether the category is one that this profile has a rule for.
#[tactic(auto, unfolding(crate::specs::Categories::is_known_unit))]
pub fn known_unit(category: &[u8]) -> bool
    ensures { result ≡ is_known_unit category.now }
{
    !matches!(
        category_meaning(category),
        Meaning::Traversal | Meaning::Unknown
    )
}

/// How a link inside a unit of the category is passed.
#[tactic(auto, unfolding(crate::specs::Categories::unit_kind_of))]
pub fn unit_kind(category: &[u8]) -> Kind
    ensures { result ≡ unit_kind_of category.now }
{
    match category_meaning(category) {
        Meaning::Elevator => Kind::Elevator,
        Meaning::Escalator => Kind::Escalator,
        Meaning::Movingwalkway => Kind::Movingwalkway,
        Meaning::Ramp => Kind::Ramp,
        Meaning::Stairs | Meaning::Steps => Kind::Stairs,
        Meaning::Traversal | Meaning::Ground | Meaning::Solid | Meaning::Unknown => Kind::Floor,
    }
}

/// The passage that a relationship of the category makes.
#[tactic(auto, unfolding(crate::specs::Categories::passage_of))]
pub fn passage(category: &[u8]) -> Option<Kind>
    ensures { result ≡ passage_of category.now }
{
    match category_meaning(category) {
        Meaning::Elevator => Some(Kind::Elevator),
        Meaning::Escalator => Some(Kind::Escalator),
        Meaning::Movingwalkway => Some(Kind::Movingwalkway),
        Meaning::Ramp => Some(Kind::Ramp),
        Meaning::Stairs => Some(Kind::Stairs),
        Meaning::Traversal => Some(Kind::Traversal),
        Meaning::Steps | Meaning::Ground | Meaning::Solid | Meaning::Unknown => None,
    }
}
