//! Reading the settings of a venue.

ghost use Rattle.std.specs.Prelude.{◌≡◌, ◌≢◌, ◌∷◌, ◌++◌, [], map, codes, IfErr, IfOk, OnOk};
ghost use Rattle.std.specs.List.{filter_map};
ghost use Rattle.imdf_access.specs.Profiles.{built_in_profiles};
ghost use Rattle.toml.specs.Data.{Members, as_str};
ghost use Rattle.toml.specs.View.{view, table_view};
ghost use Rattle.venue_settings.specs.declared.fault.SettingsFault.TheVariants.{NotToml, OutOfMemory as NoMemory};
ghost use Rattle.venue_settings.specs.Faults.{first_of, first_fault, items_at, profile_faults, profile_tables, table_faults, twice_fault};
ghost use Rattle.venue_settings.specs.Judged.{IsJudged};
ghost use Rattle.venue_settings.specs.Keys.{settings_rows};
ghost use Rattle.venue_settings.specs.Settings.{HasExtras, HasSettings, IsDocument, IsSettingsOf, profile_of};
ghost use Rattle.venue_settings.specs.Sound.{IsSound};

use crate::fault::{SettingsFault, owned};
use crate::keys::{
    BORDER_TOL, CONTAIN_TOL, ELEVATOR_EXTRA, ESCALATOR_EXTRA, INSIDE, KX, KY, LAST_VERSION,
    MOVINGWALKWAY_EXTRA, PROFILE, RAMP_EXTRA, SETTINGS_KEYS, STAFF_KEYS, STAIRS_EXTRA,
    TRAVERSAL_EXTRA,
};
use crate::profiles::{all_profiles, judge_profiles};
use crate::table::judge_table;
use crate::values::{inside_at, list_at, number_at};
use std::alloc::Global;
use toml::{Table, Value};
use venue_types::{Extras, List, OutOfMemory, Profile, Settings, Text};

fn document(alloc: Global, bytes: &[u8]) -> Result<Table, SettingsFault>
    ensures document { IfOk result (λ table. IsDocument bytes.now (table_view table)) }
    ensures none { IfErr result (λ fault. fault ≢ NoMemory → (fault ≡ NotToml) × ((table : Members) → ¬ IsDocument bytes.now table)) }
{
    match toml::table_from_slice(alloc, bytes) {
        Ok(table) => Ok(table),
        Err(error) if error.is_memory() => Err(SettingsFault::OutOfMemory),
        Err(_) => Err(SettingsFault::NotToml),
    }
}

fn judge_settings(alloc: Global, table: &Table) -> Result<(), SettingsFault>
    ensures judged { IsJudged (first_of (table_faults settings_rows (table_view table.now))) result }
    ensures sound { OnOk result (IsSound (table_view table.now)) }
{
    judge_table(alloc, table, &SETTINGS_KEYS)
}

fn profiles_of(alloc: Global, table: &Table) -> Result<List<Profile>, SettingsFault>
    ensures made { IfOk result (λ profiles. profiles ≡ built_in_profiles ++ map profile_of (profile_tables (table_view table.now))) }
    ensures judged { let tables = profile_tables (table_view table.now) in IsJudged (first_of (profile_faults tables ++ twice_fault tables ∷ [])) result }
{
    let values = list_at(table, PROFILE.name);
    judge_profiles(alloc, values)?;
    all_profiles(alloc, values)
}

fn texts_of(alloc: Global, values: &[Value]) -> Result<List<Text>, OutOfMemory>
    ensures { IfOk result (λ texts. texts ≡ filter_map as_str (map view values.now)) }
{
    let mut texts = List::new(alloc);
    for value in values {
        let Some(text) = value.as_str() else {
            continue;
        };
        texts.push(owned(alloc, text)?)?;
    }
    Ok(texts)
}

fn staff_keys_of(alloc: Global, table: &Table) -> Result<List<Text>, OutOfMemory>
    ensures { IfOk result (λ texts. texts ≡ filter_map as_str (items_at (codes "staff_keys") (table_view table.now))) }
{
    texts_of(alloc, list_at(table, STAFF_KEYS.name))
}

fn extras_of(table: &Table) -> Extras
    requires { IsSound (table_view table.now) }
    ensures { HasExtras (table_view table.now) result }
{
    Extras {
        elevator: number_at(table, &ELEVATOR_EXTRA, 0),
        escalator: number_at(table, &ESCALATOR_EXTRA, 0),
        movingwalkway: number_at(table, &MOVINGWALKWAY_EXTRA, 0),
        ramp: number_at(table, &RAMP_EXTRA, 0),
        stairs: number_at(table, &STAIRS_EXTRA, 0),
        traversal: number_at(table, &TRAVERSAL_EXTRA, 0),
    }
}

fn settings_of(table: &Table, staff_keys: List<Text>, profiles: List<Profile>) -> Settings
    requires sound { IsSound (table_view table.now) }
    requires staff { staff_keys ≡ filter_map as_str (items_at (codes "staff_keys") (table_view table.now)) }
    requires made { profiles ≡ built_in_profiles ++ map profile_of (profile_tables (table_view table.now)) }
    ensures { HasSettings (table_view table.now) result }
{
    // A key that is needed has no default: what stands in its place is out of use, since the key is there.
    Settings {
        kx: number_at(table, &KX, KX.low),
        ky: number_at(table, &KY, KY.low),
        border_tol: number_at(table, &BORDER_TOL, 1_000),
        contain_tol: number_at(table, &CONTAIN_TOL, 5_000),
        inside: inside_at(table, &INSIDE),
        extras: extras_of(table),
        last_version: number_at(table, &LAST_VERSION, LAST_VERSION.high),
        staff_keys,
        profiles,
    }
}

fn settings_in(alloc: Global, table: &Table) -> Result<Settings, SettingsFault>
    ensures judged { IsJudged (first_fault (table_view table.now)) result }
    ensures settings { IfOk result (HasSettings (table_view table.now)) }
{
    judge_settings(alloc, table)?;
    let profiles = profiles_of(alloc, table)?;
    let staff_keys = staff_keys_of(alloc, table)?;
    Ok(settings_of(table, staff_keys, profiles))
}

/// Reads the settings of a venue: a document of TOML 1.1 with the keys of `venue.toml`.
///
/// The faults are looked for in this order: the bytes are no document; the least unknown key by its
/// bytes; key by key what is missing, of the wrong kind or out of range; the same for the table of each
/// profile; a profile's name that an earlier one has. The first is answered.
///
/// Takes the time and memory of reading the document, whose table is let go at the end.
pub fn read_settings(alloc: Global, bytes: &[u8]) -> Result<Settings, SettingsFault>
    ensures { IsSettingsOf bytes.now result }
{
    let table = document(alloc, bytes)?;
    settings_in(alloc, &table)
}
