//! The values of a table.

ghost use Rattle.std.specs.Prelude.{◌≡◌, ◌≤◌, Some, None, true, map, pos, MatchOption, option_copied, option_and_then};
ghost use Rattle.toml.specs.Data.{as_array, as_integer, as_str, get_member};
ghost use Rattle.toml.specs.View.{view, table_view};
ghost use Rattle.venue_settings.specs.Faults.{items_at, items_in, key_fault, text_at as the_text_at};
ghost use Rattle.venue_settings.specs.Settings.{IsInsideAt, IsNumberAt, truth_at as the_truth_at};
ghost use Rattle.venue_settings.specs.Table.{row_of};
ghost use Rattle.venue_settings.specs.Values.{is_whole_between, inside_of, judged_inside};
ghost use Rattle.venue_settings.specs.declared.judge.Judgement.TheVariants.{Good};

use crate::judge::{inside_word, whole_between};
use crate::keys::{Form, Key};
use crate::table::value_at;
use toml::{Table, Value};
use venue_types::Inside;

/// The text at a key, empty where there is none.
pub(crate) fn text_at<'a>(table: &'a Table, key: &str) -> &'a str
    ensures { result.now ≡ the_text_at key.now (table_view table.now) }
{
    match value_at(table, key) {
        Some(value) => value.as_str().unwrap_or(""),
        None => "",
    }
}

/// The truth value at a key, `false` where there is none.
pub(crate) fn truth_at(table: &Table, key: &str) -> bool
    ensures { result ≡ the_truth_at key.now (table_view table.now) }
{
    match value_at(table, key) {
        Some(value) => value.as_bool().unwrap_or(false),
        None => false,
    }
}

fn items_of(value: &Value) -> &[Value]
    ensures { map view result.now ≡ items_in (as_array (view value.now)) }
{
    match value.as_array() {
        Some(values) => values,
        None => &[],
    }
}

/// The items of the list at a key, none where there is no list.
pub(crate) fn list_at<'a>(table: &'a Table, key: &str) -> &'a [Value]
    ensures { map view result.now ≡ items_at key.now (table_view table.now) }
{
    match value_at(table, key) {
        Some(value) => items_of(value),
        None => &[],
    }
}

fn integer_at(table: &Table, key: &str) -> Option<i64>
    ensures { result ≡ option_and_then as_integer (get_member key.now (table_view table.now)) }
{
    match value_at(table, key) {
        Some(value) => value.as_integer(),
        None => None,
    }
}

// The number that was found, or the default; a number out of range has been refused before.
fn number_or(found: Option<i64>, low: u32, high: u32, default: u32) -> u32
    requires least { low ≤ default }
    requires greatest { default ≤ high }
    ensures least { low ≤ result }
    ensures greatest { result ≤ high }
    ensures number { MatchOption found (result ≡ default) (λ n. is_whole_between low high n ≡ true → n ≡ pos result) }
{
    match found {
        Some(n) => whole_between(n, low, high).unwrap_or(default),
        None => default,
    }
}

/// The number at a key, or the default where there is no such key.
pub(crate) fn number_at(table: &Table, key: &Key, default: u32) -> u32
    requires whole { key.now.form ≡ Form.Whole }
    requires least { key.now.low ≤ default }
    requires greatest { default ≤ key.now.high }
    ensures least { key.now.low ≤ result }
    ensures greatest { result ≤ key.now.high }
    ensures number { key_fault (table_view table.now) (row_of key.now) ≡ None → IsNumberAt (table_view table.now) key.now.name.now default result }
{
    number_or(integer_at(table, key.name), key.low, key.high, default)
}

// How rooms are crossed by the word that was found, or straight; another value has been refused before.
fn inside_in(found: &Value) -> Inside
    ensures { judged_inside (view found.now) ≡ Good → option_and_then inside_of (as_str (view found.now)) ≡ Some result }
{
    match found.as_str() {
        Some(text) => inside_word(text).unwrap_or(Inside::Straight),
        None => Inside::Straight,
    }
}

/// How rooms are crossed by the word at a key, straight where there is no such key.
pub(crate) fn inside_at(table: &Table, key: &Key) -> Inside
    requires { key.now.form ≡ Form.Inside }
    ensures { key_fault (table_view table.now) (row_of key.now) ≡ None → IsInsideAt (table_view table.now) key.now.name.now result }
{
    let Some(value) = value_at(table, key.name) else {
        return Inside::Straight;
    };
    inside_in(value)
}
