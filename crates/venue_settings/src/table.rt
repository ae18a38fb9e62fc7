//! Judging a table: its least unknown key, then key by key.

ghost use Rattle.std.specs.Prelude.{◌≡◌, map, not, option_map, option_copied, string_bytes, if◌then◌else◌};
ghost use Rattle.std.specs.List.{find, list_any};
ghost use Rattle.std.specs.Str.{bytes_eq};
ghost use Rattle.std.specs.String.{string_cmp};
ghost use Rattle.std.specs.List.Sorted.{IsStrictlySortedBy};
ghost use Rattle.std.specs.BTreeMap.{keys as keys_of_map};
ghost use Rattle.toml.specs.Data.{get_member};
ghost use Rattle.toml.specs.View.{view, table_view};
ghost use Rattle.venue_settings.specs.Faults.{first_of, is_among, key_fault, table_faults, unknown_fault, value_fault};
ghost use Rattle.venue_settings.specs.Judged.{IsJudged};
ghost use Rattle.venue_settings.specs.declared.fault.SettingsFault.TheVariants.{Missing};
ghost use Rattle.venue_settings.specs.Table.{row_of};

use crate::fault::{SettingsFault, owned};
use crate::judge::{Judgement, judge_value};
use crate::keys::Key;
use std::alloc::Global;
use toml::{Table, Value};

/// The value at a key.
pub(crate) fn value_at<'a>(table: &'a Table, key: &str) -> Option<&'a Value>
    ensures { option_map (λ value. view value.now) result ≡ get_member key.now (table_view table.now) }
{
    table.get(key)
}

// The fault that the judgement of the key's value makes.
fn judge_found(alloc: Global, key: &str, judgement: Judgement) -> Result<(), SettingsFault>
    ensures { IsJudged (value_fault key.now judgement) result }
{
    match judgement {
        Judgement::Good => Ok(()),
        Judgement::WrongKind => Err(SettingsFault::WrongKind(owned(alloc, key)?)),
        Judgement::OutOfRange => Err(SettingsFault::Range(owned(alloc, key)?)),
    }
}

// The fault of a key that is missing, if it is needed.
fn judge_missing(alloc: Global, key: &Key) -> Result<(), SettingsFault>
    ensures { IsJudged (if key.now.needed then Some (Missing key.now.name.now) else None) result }
{
    if key.needed {
        Err(SettingsFault::Missing(owned(alloc, key.name)?))
    } else {
        Ok(())
    }
}

fn judge_key(alloc: Global, table: &Table, key: &Key) -> Result<(), SettingsFault>
    ensures { IsJudged (key_fault (table_view table.now) (row_of key.now)) result }
{
    match value_at(table, key.name) {
        Some(value) => judge_found(alloc, key.name, judge_value(value, key)),
        None => judge_missing(alloc, key),
    }
}

fn judge_keys(alloc: Global, table: &Table, keys: &[Key]) -> Result<(), SettingsFault>
    ensures { IsJudged (first_of (map (key_fault (table_view table.now)) (map row_of keys.now))) result }
{
    for key in keys {
        judge_key(alloc, table, key)?;
    }
    Ok(())
}

fn is_known(keys: &[Key], name: &str) -> bool
    ensures { result ≡ list_any (λ key. bytes_eq key.name.now name.now) keys.now }
{
    keys.iter().any(|key| key.name == name)
}

fn first_unknown<'a>(table: &'a Table, keys: &[Key]) -> Option<&'a String>
    ensures found { option_copied result ≡ find (λ name. not (list_any (λ key. bytes_eq key.name.now (string_bytes name)) keys.now)) (keys_of_map table.now) }
    ensures ordered { IsStrictlySortedBy string_cmp (keys_of_map table.now) }
{
    table.keys().find(|name| !is_known(keys, name.as_str()))
}

fn judge_unknown(alloc: Global, table: &Table, keys: &[Key]) -> Result<(), SettingsFault>
    ensures { IsJudged (unknown_fault (map row_of keys.now) (table_view table.now)) result }
{
    match first_unknown(table, keys) {
        Some(name) => Err(SettingsFault::Unknown(owned(alloc, name.as_str())?)),
        None => Ok(()),
    }
}

/// Whether the table is without a fault, or its first fault.
pub(crate) fn judge_table(alloc: Global, table: &Table, keys: &[Key]) -> Result<(), SettingsFault>
    ensures { IsJudged (first_of (table_faults (map row_of keys.now) (table_view table.now))) result }
{
    judge_unknown(alloc, table, keys)?;
    judge_keys(alloc, table, keys)
}
