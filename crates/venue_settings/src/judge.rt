//! How a value is judged at a key.

ghost use Rattle.std.specs.Prelude.{◌≡◌, ◌≤◌, ◌&&◌, pos, false, length, map, IfSome, IfNone};
ghost use Rattle.std.specs.List.{list_all};
ghost use Rattle.toml.specs.View.{view};
ghost use Rattle.venue_settings.specs.Values.{judged, judgement, judged_whole, judged_staff_keys, judged_staff_list, judged_profiles, judged_profile_list, judged_name, judged_truth, judged_inside, inside_of, is_whole_between, is_between, is_staff_key, is_name, is_name_byte, is_text, is_table, holds_staff_key};

use crate::keys::{Form, Key};
use toml::Value;
use venue_types::Inside;

/// What is to be said of a value at a key.
#[derive(Clone, Copy, Debug, PartialEq, Eq)]
pub(crate) enum Judgement {
    Good,
    WrongKind,
    OutOfRange,
}

fn judge(right_kind: bool, in_range: bool) -> Judgement
    ensures { result ≡ judgement right_kind in_range }
{
    if !right_kind {
        Judgement::WrongKind
    } else if !in_range {
        Judgement::OutOfRange
    } else {
        Judgement::Good
    }
}

/// The number, if it is within the range.
pub(crate) fn whole_between(n: i64, low: u32, high: u32) -> Option<u32>
    ensures some { IfSome result (λ k. (n ≡ pos k) × (low ≤ k) × (k ≤ high)) }
    ensures none { IfNone result (is_whole_between low high n ≡ false) }
{
    let k = u32::try_from(n).ok()?;
    if low <= k && k <= high { Some(k) } else { None }
}

fn judge_whole(value: &Value, low: u32, high: u32) -> Judgement
    ensures { result ≡ judged_whole low high (view value.now) }
{
    match value.as_integer() {
        Some(n) => judge(true, whole_between(n, low, high).is_some()),
        None => judge(false, false),
    }
}

fn between(n: usize, low: u32, high: u32) -> bool
    ensures { result ≡ is_between low high n }
{
    low as usize <= n && n <= high as usize
}

fn is_visible(text: &str) -> bool
    ensures { result ≡ list_all (is_between 0x21 0x7E) text.now }
{
    text.as_bytes()
        .iter()
        .all(|byte| 0x21 <= *byte && *byte <= 0x7E)
}

fn is_staff(text: &str) -> bool
    ensures { result ≡ is_staff_key text.now }
{
    between(text.len(), 8, 128) && is_visible(text)
}

fn holds_staff(value: &Value) -> bool
    ensures { result ≡ holds_staff_key (view value.now) }
{
    match value.as_str() {
        Some(text) => is_staff(text),
        None => false,
    }
}

fn are_texts(values: &[Value]) -> bool
    ensures { result ≡ list_all (λ value. is_text (view value)) values.now }
{
    values.iter().all(|value| value.is_str())
}

fn hold_staff(values: &[Value]) -> bool
    ensures { result ≡ list_all (λ value. holds_staff_key (view value)) values.now }
{
    values.iter().all(|value| holds_staff(value))
}

fn are_few_staff(values: &[Value], low: u32, high: u32) -> bool
    ensures { result ≡ (is_between low high (length values.now) && list_all (λ value. holds_staff_key (view value)) values.now) }
{
    between(values.len(), low, high) && hold_staff(values)
}

fn are_tables(values: &[Value]) -> bool
    ensures { result ≡ list_all (λ value. is_table (view value)) values.now }
{
    values.iter().all(|value| value.is_table())
}

fn judge_staff_list(values: &[Value], low: u32, high: u32) -> Judgement
    ensures { result ≡ judged_staff_list low high (map view values.now) }
{
    judge(are_texts(values), are_few_staff(values, low, high))
}

fn judge_staff_keys(value: &Value, low: u32, high: u32) -> Judgement
    ensures { result ≡ judged_staff_keys low high (view value.now) }
{
    match value.as_array() {
        Some(values) => judge_staff_list(values, low, high),
        None => Judgement::WrongKind,
    }
}

fn judge_profile_list(values: &[Value], low: u32, high: u32) -> Judgement
    ensures { result ≡ judged_profile_list low high (map view values.now) }
{
    judge(are_tables(values), between(values.len(), low, high))
}

fn judge_profiles(value: &Value, low: u32, high: u32) -> Judgement
    ensures { result ≡ judged_profiles low high (view value.now) }
{
    match value.as_array() {
        Some(values) => judge_profile_list(values, low, high),
        None => Judgement::WrongKind,
    }
}

fn is_name_text(text: &str) -> bool
    ensures { result ≡ list_all is_name_byte text.now }
{
    text.as_bytes().iter().all(|byte| matches!(*byte, b'a'..=b'z' | b'0'..=b'9' | b'_' | b'-'))
}

fn is_profile_name(text: &str, low: u32, high: u32) -> bool
    ensures { result ≡ is_name low high text.now }
{
    between(text.len(), low, high) && is_name_text(text)
}

fn judge_name(value: &Value, low: u32, high: u32) -> Judgement
    ensures { result ≡ judged_name low high (view value.now) }
{
    match value.as_str() {
        Some(text) => judge(true, is_profile_name(text, low, high)),
        None => Judgement::WrongKind,
    }
}

fn judge_truth(value: &Value) -> Judgement
    ensures { result ≡ judged_truth (view value.now) }
{
    judge(value.is_bool(), true)
}

/// How rooms are crossed, by its word.
pub(crate) fn inside_word(text: &str) -> Option<Inside>
    ensures { result ≡ inside_of text.now }
{
    if text == "straight" {
        Some(Inside::Straight)
    } else if text == "clear" {
        Some(Inside::Clear)
    } else {
        None
    }
}

fn judge_inside(value: &Value) -> Judgement
    ensures { result ≡ judged_inside (view value.now) }
{
    match value.as_str() {
        Some(text) => judge(true, inside_word(text).is_some()),
        None => Judgement::WrongKind,
    }
}

/// How the value is judged at the key.
pub(crate) fn judge_value(value: &Value, key: &Key) -> Judgement
    ensures { result ≡ judged key.now.form key.now.low key.now.high (view value.now) }
{
    match key.form {
        Form::Whole => judge_whole(value, key.low, key.high),
        Form::StaffKeys => judge_staff_keys(value, key.low, key.high),
        Form::Profiles => judge_profiles(value, key.low, key.high),
        Form::Name => judge_name(value, key.low, key.high),
        Form::Truth => judge_truth(value),
        Form::Inside => judge_inside(value),
    }
}
