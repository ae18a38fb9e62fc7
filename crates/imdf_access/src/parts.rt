//! What the way of a link and each of its ends ask apart, so that a link is judged by its parts.

ghost use Rattle.std.specs.Prelude.{◌≡◌, ◌↔◌, IsTrue, Option};
ghost use Rattle.venue_types.specs.declared.features.UnitRow.{UnitRow};
ghost use Rattle.venue_types.specs.declared.kind.Kind.{Kind};
ghost use Rattle.venue_types.specs.declared.settings.Profile.{Profile};
ghost use Rattle.imdf_access.specs.Access.{End, IsAllowed, facts_of};
ghost use Rattle.imdf_access.specs.Parts.{MayGo, PassesWay, PassesEnd, PassesFacts, end_facts};

use crate::profile::{is_granted, passes_kind};
use venue_types::{Kind, Profile};

/// What one end of a link asks of who passes it.
#[derive(Clone, Copy, Debug, PartialEq, Eq)]
pub struct EndFacts {
    /// A restricted unit.
    pub restricted: bool,
    /// An opening whose door is revolving.
    pub revolving: bool,
    /// An opening whose door is a turnstile.
    pub turnstile: bool,
    /// An opening that isn't marked for wheelchairs.
    pub unmarked: bool,
    /// An opening that is out of service.
    pub out: bool,
}

/// Whether somebody with the profile may use the way of a link, where `restricted` says whether it crosses a restricted unit.
pub fn passes_way(profile: &Profile, kind: Kind, restricted: bool) -> bool
    ensures { IsTrue result ↔ MayGo profile.now kind restricted }
{
    passes_kind(profile, kind) && is_granted(restricted, profile.restricted)
}

/// Whether somebody with the profile may pass an end of a link.
pub fn passes_end(profile: &Profile, facts: &EndFacts) -> bool
    ensures facts { IsTrue result ↔ PassesFacts profile.now facts.now }
    ensures end { (end : End) → facts.now ≡ end_facts end → IsTrue result ↔ PassesEnd profile.now end }
{
    !facts.out
        && is_granted(facts.restricted, profile.restricted)
        && is_granted(facts.revolving, profile.revolving)
        && is_granted(facts.turnstile, profile.turnstile)
        && is_granted(facts.unmarked, !profile.marked)
}

/// A link is allowed exactly where its way and both its ends are passed.
pub fn parts_law()
    ensures { (profile : Profile) (kind : Kind) (via : Option UnitRow) (from to : End) → IsAllowed profile (facts_of kind via from to) ↔ PassesWay profile kind via × PassesEnd profile from × PassesEnd profile to }
{}
