//! The profiles of a file, after the built-in ones.

ghost use Rattle.std.specs.Prelude.{◌≡◌, ◌∷◌, ◌++◌, [], None, Some, false, map, codes, IfOk, OnOk, if◌then◌else◌};
ghost use Rattle.std.specs.List.{filter_map, list_any};
ghost use Rattle.std.specs.Str.{bytes_eq};
ghost use Rattle.imdf_access.specs.Profiles.{built_in_profiles};
ghost use Rattle.toml.specs.Data.{as_table};
ghost use Rattle.toml.specs.View.{view, table_view};
ghost use Rattle.venue_settings.specs.declared.fault.SettingsFault.TheVariants.{Twice};
ghost use Rattle.venue_settings.specs.Faults.{first_of, profile_faults, twice_fault, text_at as the_text_at};
ghost use Rattle.venue_settings.specs.Judged.{IsFault, IsJudged};
ghost use Rattle.venue_settings.specs.Settings.{profile_of as the_profile_of};

use crate::fault::{SettingsFault, owned};
use crate::profile_keys::{
    ELEVATOR, ESCALATOR, MARKED, MOVINGWALKWAY, NAME, PROFILE_KEYS, RAMP, RESTRICTED, REVOLVING,
    STAIRS, TURNSTILE,
};
use crate::table::judge_table;
use crate::values::{text_at, truth_at};
use imdf_access::built_in;
use std::alloc::Global;
use toml::{Table, Value};
use venue_types::{List, OutOfMemory, Profile};

/// The first fault of the tables among the values, if there is one.
pub(crate) fn judge_profiles(alloc: Global, values: &[Value]) -> Result<(), SettingsFault>
    ensures { IsJudged (first_of (profile_faults (filter_map as_table (map view values.now)))) result }
{
    for value in values {
        let Some(table) = value.as_table() else {
            continue;
        };
        judge_table(alloc, table, &PROFILE_KEYS)?;
    }
    Ok(())
}

fn profile_of(alloc: Global, table: &Table) -> Result<Profile, OutOfMemory>
    ensures { IfOk result (λ profile. profile ≡ the_profile_of (table_view table.now)) }
{
    Ok(Profile {
        name: owned(alloc, text_at(table, NAME.name))?,
        elevator: truth_at(table, ELEVATOR.name),
        escalator: truth_at(table, ESCALATOR.name),
        movingwalkway: truth_at(table, MOVINGWALKWAY.name),
        ramp: truth_at(table, RAMP.name),
        stairs: truth_at(table, STAIRS.name),
        revolving: truth_at(table, REVOLVING.name),
        turnstile: truth_at(table, TURNSTILE.name),
        restricted: truth_at(table, RESTRICTED.name),
        marked: truth_at(table, MARKED.name),
    })
}

fn has_name(profiles: &[Profile], name: &str) -> bool
    ensures { result ≡ list_any (λ profile. bytes_eq profile.name name.now) profiles.now }
{
    profiles.iter().any(|profile| profile.name.as_str() == name)
}

// The profile of the table at the end, unless an earlier one has its name.
fn add(alloc: Global, profiles: &mut List<Profile>, table: &Table) -> Result<(), SettingsFault>
    ensures added { OnOk result (profiles.new ≡ profiles.old ++ the_profile_of (table_view table.now) ∷ []) }
    ensures judged { let name = the_text_at (codes "name") (table_view table.now) in IsJudged (if list_any (λ profile. bytes_eq profile.name name) profiles.old then Some (Twice name) else None) result }
{
    let profile = profile_of(alloc, table)?;
    if has_name(profiles.as_slice(), profile.name.as_str()) {
        return Err(SettingsFault::Twice(profile.name));
    }
    profiles.push(profile)?;
    Ok(())
}

/// The built-in profiles and then those of the tables among the values, or the first name that an
/// earlier one has.
pub(crate) fn all_profiles(alloc: Global, values: &[Value]) -> Result<List<Profile>, SettingsFault>
    ensures made { IfOk result (λ profiles. profiles ≡ built_in_profiles ++ map the_profile_of (filter_map as_table (map view values.now))) }
    ensures judged { IsJudged (twice_fault (filter_map as_table (map view values.now))) result }
{
    let mut profiles = built_in(alloc)?;
    for value in values {
        let Some(table) = value.as_table() else {
            continue;
        };
        add(alloc, &mut profiles, table)?;
    }
    Ok(profiles)
}
