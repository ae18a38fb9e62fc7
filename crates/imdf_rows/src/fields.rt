//! The fields of a row that a member's value gives.

ghost use Rattle.std.specs.Prelude.{◌≡◌, map, IfOk};
ghost use Rattle.std.specs.List.{filter_map, list_any};
ghost use Rattle.std.specs.Str.Lossy.{utf8_lossy};
ghost use Rattle.exact_json.specs.Json.{HasTexts};
ghost use Rattle.exact_json.specs.View.{tree_view};
ghost use Rattle.imdf_schema.specs.Values as values;
ghost use Rattle.imdf_rows.specs.Fields as specs;

use exact_json::Tree;
use imdf_access::{before_dot, passage};
use imdf_schema::{File, id, is_word, list, member, text, type_of};
use std::alloc::Global;
use venue_types::{FeatureId, Kind, List, OutOfMemory, Ref, Text};

/// The identifier, 0 where it is none.
pub(crate) fn id_field(value: Option<&Tree>) -> FeatureId
    ensures { result ≡ specs.id_field (values.seen value.entry) }
{
    id(value).unwrap_or(FeatureId(0))
}

/// The text, empty where it is none, with U+FFFD for what isn't UTF-8.
pub(crate) fn text_field(alloc: Global, value: Option<&Tree>) -> Result<Text, OutOfMemory>
    ensures lossy { IfOk result (λ field. field ≡ utf8_lossy (specs.text_field (values.seen value.entry))) }
    ensures exact { IfOk result (λ field. HasTexts (values.seen value.entry) → field ≡ specs.text_field (values.seen value.entry)) }
{
    let bytes = text(value).unwrap_or(&[]);
    Ok(Text::from_string(String::from_utf8_lossy(alloc, bytes)?))
}

// The identifiers among the items.
fn ids_among(alloc: Global, items: &[Tree]) -> Result<Vec<FeatureId>, OutOfMemory>
    ensures { IfOk result (λ ids. ids.items ≡ filter_map values.id_of (map tree_view items.now)) }
{
    let mut ids = Vec::new(alloc);
    for item in items {
        if let Some(id) = id(Some(item)) {
            ids.push(id)?;
        }
    }
    Ok(ids)
}

/// The identifiers of a list.
pub(crate) fn ids_field(alloc: Global, value: Option<&Tree>) -> Result<List<FeatureId>, OutOfMemory>
    ensures { IfOk result (λ ids. ids ≡ specs.ids_field (values.seen value.entry)) }
{
    match list(value) {
        Some(items) => Ok(List::from_vec(ids_among(alloc, items)?)),
        None => Ok(List::new(alloc)),
    }
}

fn ref_to(id: FeatureId, file: File) -> Ref
    ensures { result ≡ specs.ref_to id file }
{
    Ref {
        id,
        feature_type: file.number(),
    }
}

fn ref_of_both(id: Option<FeatureId>, file: Option<File>) -> Option<Ref>
    ensures { result ≡ specs.ref_of_both id file }
{
    match (id, file) {
        (Some(id), Some(file)) => Some(ref_to(id, file)),
        _ => None,
    }
}

/// The reference that an object is.
pub(crate) fn ref_of(value: Option<&Tree>) -> Option<Ref>
    ensures { result ≡ specs.ref_of (values.seen value.entry) }
{
    let name = member(value, b"id");
    let kind = member(value, b"feature_type");
    let id = id(name);
    let file = type_of(kind);
    ref_of_both(id, file)
}

// The references among the items.
fn refs_among(alloc: Global, items: &[Tree]) -> Result<Vec<Ref>, OutOfMemory>
    ensures { IfOk result (λ refs. refs.items ≡ filter_map specs.ref_of (map tree_view items.now)) }
{
    let mut refs = Vec::new(alloc);
    for item in items {
        if let Some(reference) = ref_of(Some(item)) {
            refs.push(reference)?;
        }
    }
    Ok(refs)
}

/// The references of a list.
pub(crate) fn refs_field(alloc: Global, value: Option<&Tree>) -> Result<List<Ref>, OutOfMemory>
    ensures { IfOk result (λ refs. refs ≡ specs.refs_field (values.seen value.entry)) }
{
    match list(value) {
        Some(items) => Ok(List::from_vec(refs_among(alloc, items)?)),
        None => Ok(List::new(alloc)),
    }
}

fn any_is_word(items: &[Tree], word: &[u8]) -> bool
    ensures { result ≡ list_any (λ item. values.is_word item word.now) (map tree_view items.now) }
{
    for item in items {
        if is_word(Some(item), word) {
            return true;
        }
    }
    false
}

/// Whether the word stands in a list.
pub(crate) fn lists_word(value: Option<&Tree>, word: &[u8]) -> bool
    ensures { result ≡ specs.lists_word (values.seen value.entry) word.now }
{
    match list(value) {
        Some(items) => any_is_word(items, word),
        None => false,
    }
}

/// Whether the type of a door, before its first dot, is the word.
pub(crate) fn door_is(door: Option<&Tree>, word: &[u8]) -> bool
    ensures { result ≡ specs.door_is (values.seen door.entry) word.now }
{
    before_dot(text(member(door, b"type")).unwrap_or(&[])) == word
}

/// The passage that a category makes.
pub(crate) fn passage_field(value: Option<&Tree>) -> Option<Kind>
    ensures { result ≡ specs.passage_field (values.seen value.entry) }
{
    passage(text(value).unwrap_or(&[]))
}
