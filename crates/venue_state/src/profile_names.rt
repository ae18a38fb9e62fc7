//! Profiles by their names, and sets of them as changes and replies name them.

ghost use Rattle.std.specs.Prelude.{◌≡◌, ◌<◌, length, Some, IfOk, IfSome, IsTrue};
ghost use Rattle.venue_types.specs.ProfileSets.{is_within};
ghost use Rattle.venue_history.specs.Closed.{everybody, is_everybody, named, names_of};
ghost use Rattle.venue_history.specs.Named.{named_set, repeated, set_of_names};
ghost use Rattle.venue_history.specs.Versions.{AreProfiles};
ghost use Rattle.venue_history.specs.Ways.{profile_number};

use std::alloc::Global;
use venue_types::{List, OutOfMemory, ProfileSet, Settings, Text};

/// The number of the profile of a name, the first if there are several.
#[tactic(auto, unfolding(venue_history::specs::Ways::profile_number))]
pub(crate) fn profile_number(settings: &Settings, name: &Text) -> Option<usize>
    ensures number { result ≡ profile_number settings.now name.now }
    ensures there { IfSome result (λ k. k < length settings.now.profiles) }
{
    let name = name.as_str();
    settings
        .profiles
        .iter()
        .position(|profile| profile.name.as_str() == name)
}

/// All profiles of the settings.
pub(crate) fn everybody(settings: &Settings) -> ProfileSet
    ensures all { result ≡ everybody settings.now }
    ensures profiles { AreProfiles settings.now result }
{
    ProfileSet::of_all(settings.profiles.len() as u32)
}

/// The names of the profiles of a set, or nothing where they are all that there are.
pub(crate) fn named(
    alloc: Global,
    settings: &Settings,
    set: ProfileSet,
) -> Result<Option<List<Text>>, OutOfMemory>
    ensures { IfOk result (λ names. names ≡ named settings.now set) }
{
    if is_everybody(settings, set) {
        Ok(None)
    } else {
        let names = names_of(alloc, settings, set)?;
        Ok(Some(names))
    }
}

/// Whether these are all profiles of the settings.
pub(crate) fn is_everybody(settings: &Settings, set: ProfileSet) -> bool
    ensures { result ≡ is_everybody settings.now set }
{
    set == everybody(settings)
}

// The names of the profiles of a set, by their numbers.
fn names_of(alloc: Global, settings: &Settings, set: ProfileSet) -> Result<List<Text>, OutOfMemory>
    ensures { IfOk result (λ names. names ≡ names_of settings.now set) }
{
    let mut names = List::new(alloc);
    for (number, profile) in settings.profiles.as_slice().iter().enumerate() {
        if set.has(number as u8) {
            let name = profile.name.copy(alloc)?;
            names.push(name)?;
        }
    }
    Ok(names)
}

/// The profiles of these names, if the settings have each of them, or all where none are named.
pub(crate) fn named_set(settings: &Settings, names: &Option<List<Text>>) -> Option<ProfileSet>
    ensures set { result ≡ named_set settings.now names.now }
    ensures known { IfSome result (λ set. IsTrue (is_within (length settings.now.profiles) set)) }
{
    match names {
        Some(names) => set_of_names(settings, names.as_slice()),
        None => Some(everybody(settings)),
    }
}

// The profiles of these names, if the settings have each of them.
fn set_of_names(settings: &Settings, names: &[Text]) -> Option<ProfileSet>
    ensures { result ≡ set_of_names settings.now names.now }
{
    let mut set = ProfileSet::nobody();
    for name in names {
        let number = profile_number(settings, name)?;
        set = set.with(number as u8);
    }
    Some(set)
}

/// The names of the profiles of a set, where some were named.
pub(crate) fn repeated(
    alloc: Global,
    settings: &Settings,
    names: &Option<List<Text>>,
    set: ProfileSet,
) -> Result<Option<List<Text>>, OutOfMemory>
    ensures { IfOk result (λ told. told ≡ repeated settings.now names.now set) }
{
    match names {
        Some(_) => {
            let names = names_of(alloc, settings, set)?;
            Ok(Some(names))
        }
        None => Ok(None),
    }
}
