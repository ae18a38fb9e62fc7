//! The labels of a name.

ghost use Rattle.std.specs.Prelude.{◌≡◌, [], map, IfOk, OnOk, string_bytes};
ghost use Rattle.std.specs.Cmp.Lexicographic.{slice_cmp};
ghost use Rattle.std.specs.Ordering.{nat_cmp};
ghost use Rattle.std.specs.BTreeMap.{insert_entry};
ghost use Rattle.std.specs.Str.Lossy.{utf8_lossy};
ghost use Rattle.exact_json.specs.Json.{HasTexts, members_list};
ghost use Rattle.exact_json.specs.View.{tree_view, pair_view, object_view};
ghost use Rattle.imdf_schema.specs.Values.{seen};
ghost use Rattle.imdf_rows.specs.Fields as specs;
ghost use Rattle.imdf_rows.specs.Fields.{label};
ghost use Rattle.imdf_rows.specs.Lossy.{entry_bytes, with_lossy, all_lossy};

use exact_json::{Members, Pair, Tree};
use imdf_schema::{object, text};
use std::alloc::Global;
use std::collections::BTreeMap;
use venue_types::{Label, List, OutOfMemory, Text};

// Puts in a text by its tag, in place of an earlier one of that tag.
fn put(texts: &mut BTreeMap<String, String>, tag: String, text: String) -> Result<(), OutOfMemory>
    ensures { OnOk result (map entry_bytes texts.new.entries
        ≡ insert_entry (slice_cmp nat_cmp) (map entry_bytes texts.old.entries) (string_bytes tag) (string_bytes text)) }
{
    texts.insert(tag, text)?;
    Ok(())
}

// The text of a value, empty where it is none.
fn lossy_text(alloc: Global, value: &Tree) -> Result<String, OutOfMemory>
    ensures { IfOk result (λ t. string_bytes t ≡ utf8_lossy (specs.text_field (tree_view value.now))) }
{
    let bytes = text(Some(value)).unwrap_or(&[]);
    Ok(String::from_utf8_lossy(alloc, bytes)?)
}

// Puts in a pair.
fn put_pair(
    alloc: Global,
    texts: &mut BTreeMap<String, String>,
    pair: &Pair,
) -> Result<(), OutOfMemory>
    ensures { OnOk result (map entry_bytes texts.new.entries
        ≡ with_lossy (map entry_bytes texts.old.entries) (pair_view pair.now)) }
{
    let tag = String::from_utf8_lossy(alloc, pair.name.bytes())?;
    let text = lossy_text(alloc, &pair.value)?;
    put(texts, tag, text)
}

// The texts of the pairs by their tags, the last of each tag.
fn texts_by_tag(alloc: Global, pairs: &[Pair]) -> Result<BTreeMap<String, String>, OutOfMemory>
    ensures { IfOk result (λ texts. map entry_bytes texts.entries ≡ all_lossy [] (map pair_view pairs.now)) }
{
    let mut texts = BTreeMap::new(alloc);
    for pair in pairs {
        put_pair(alloc, &mut texts, pair)?;
    }
    Ok(texts)
}

// The labels of texts by their tags.
fn labels(alloc: Global, texts: BTreeMap<String, String>) -> Result<Vec<Label>, OutOfMemory>
    ensures { IfOk result (λ labels. labels.items ≡ map label (map entry_bytes texts.entries)) }
{
    let mut labels = Vec::new(alloc);
    for (tag, text) in texts {
        labels.push(Label {
            tag: Text::from_string(tag),
            text: Text::from_string(text),
        })?;
    }
    Ok(labels)
}

// The labels of the pairs.
fn labels_among(alloc: Global, pairs: &[Pair]) -> Result<Vec<Label>, OutOfMemory>
    ensures { IfOk result (λ labels. labels.items ≡ map label (all_lossy [] (map pair_view pairs.now))) }
{
    let texts = texts_by_tag(alloc, pairs)?;
    labels(alloc, texts)
}

// The labels of an object.
fn labels_of(alloc: Global, members: &Members) -> Result<Vec<Label>, OutOfMemory>
    ensures { IfOk result (λ labels. labels.items ≡ map label (all_lossy [] (members_list (object_view members.now)))) }
{
    labels_among(alloc, members.as_slice())
}

/// The labels of a name, in ascending order of their tags' bytes. It takes n log n steps for n members.
pub(crate) fn labels_field(alloc: Global, value: Option<&Tree>) -> Result<List<Label>, OutOfMemory>
    ensures { IfOk result (λ labels. HasTexts (seen value.entry) → labels ≡ specs.labels_field (seen value.entry)) }
{
    match object(value) {
        Some(members) => Ok(List::from_vec(labels_of(alloc, members)?)),
        None => Ok(List::new(alloc)),
    }
}
