//! Which links a profile may use, and the profiles that every venue has.

ghost use Rattle.std.specs.Prelude.{◌≡◌, ◌↔◌, IsTrue, IfOk, not, ◌||◌};
ghost use Rattle.imdf_access.specs.Access.{IsAllowed, is_allowed, passes};
ghost use Rattle.imdf_access.specs.Profiles.{built_in_profiles, walk_profile, wheelchair_profile};

use std::alloc::Global;
use venue_types::{Kind, LinkFacts, List, OutOfMemory, Profile, Text};

/// Whether the profile passes links of the kind.
pub fn passes_kind(profile: &Profile, kind: Kind) -> bool
    ensures { result ≡ passes profile.now kind }
{
    match kind {
        Kind::Floor | Kind::Traversal => true,
        Kind::Elevator => profile.elevator,
        Kind::Escalator => profile.escalator,
        Kind::Movingwalkway => profile.movingwalkway,
        Kind::Ramp => profile.ramp,
        Kind::Stairs => profile.stairs,
    }
}

/// Whether what is asked, if it is asked, is granted.
pub fn is_granted(asked: bool, granted: bool) -> bool
    ensures granted { IsTrue result ↔ (IsTrue asked → IsTrue granted) }
    ensures test { result ≡ (not asked || granted) }
{
    !asked || granted
}

/// Whether somebody with the profile may use a link with these facts.
#[tactic(auto, unfolding(crate::specs::Access::is_allowed))]
pub fn allows(profile: &Profile, facts: &LinkFacts) -> bool
    ensures allowed { IsTrue result ↔ IsAllowed profile.now facts.now }
    ensures test { result ≡ is_allowed profile.now facts.now }
{
    !facts.out
        && passes_kind(profile, facts.kind)
        && is_granted(facts.restricted, profile.restricted)
        && is_granted(facts.revolving, profile.revolving)
        && is_granted(facts.turnstile, profile.turnstile)
        && is_granted(facts.unmarked, !profile.marked)
}

// Everything but restricted units.
fn walk(alloc: Global) -> Result<Profile, OutOfMemory>
    ensures { IfOk result (λ profile. profile ≡ walk_profile) }
{
    Ok(Profile {
        name: Text::from_string(String::from_str(alloc, "walk")?),
        elevator: true,
        escalator: true,
        movingwalkway: true,
        ramp: true,
        stairs: true,
        revolving: true,
        turnstile: true,
        restricted: false,
        marked: false,
    })
}

// Level ways, elevators and ramps, by doors that are neither revolving nor turnstiles.
fn wheelchair(alloc: Global) -> Result<Profile, OutOfMemory>
    ensures { IfOk result (λ profile. profile ≡ wheelchair_profile) }
{
    Ok(Profile {
        name: Text::from_string(String::from_str(alloc, "wheelchair")?),
        elevator: true,
        escalator: false,
        movingwalkway: false,
        ramp: true,
        stairs: false,
        revolving: false,
        turnstile: false,
        restricted: false,
        marked: false,
    })
}

/// The profiles that every venue has: `walk`, then `wheelchair`.
pub fn built_in(alloc: Global) -> Result<List<Profile>, OutOfMemory>
    ensures { IfOk result (λ profiles. profiles ≡ built_in_profiles) }
{
    let mut profiles = List::new(alloc);
    profiles.push(walk(alloc)?)?;
    profiles.push(wheelchair(alloc)?)?;
    Ok(profiles)
}
