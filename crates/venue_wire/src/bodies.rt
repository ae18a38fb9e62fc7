//! What a body asks of a path.

ghost use Rattle.std.specs.Prelude.{◌≡◌, ◌<◌, ◌&&◌, nat_lt, nat_le, codes, true, IfOk, OnErr, IfSome, IfNone, is_some, length, option_and_then, option_map};
ghost use Rattle.std.specs.List.{list_all};
ghost use Rattle.serde_json.specs.Find.{as_bool, as_str, get};
ghost use Rattle.serde_json.specs.View.{items_view, view};
ghost use Rattle.venue_types.specs.Identifier.{identifier_read};
ghost use Rattle.venue_types.specs.declared.query.Change.{Change};
ghost use Rattle.venue_wire.specs.Bodies.{AsksChange, change_in, closure_in, few, named_in, publish_in, text_in, texts_of};
ghost use Rattle.venue_wire.specs.Judging.{IsReadAs};
ghost use Rattle.venue_wire.specs.Messages.{IsChanged};

use crate::forms::is_folder_name;
use crate::messages::Message;
use crate::paths::Path;
use serde_json::Value;
use std::alloc::Global;
use venue_types::{Change, Closure, FeatureId, List, OutOfMemory, Text};
use wire_frames::Refusal;

// How many profiles a closure names at most.
const MOST_NAMED: usize = 16;

// The value of a body, if it is one.
fn value_in(alloc: Global, body: &[u8]) -> Result<Option<Value>, OutOfMemory>
    ensures read { IfOk result (λ found. IsReadAs body.now found) }
    ensures memory { OnErr result (0 < length body.now) }
{
    match Value::from_slice(alloc, body) {
        Err(error) => {
            if error.is_memory() {
                Err(OutOfMemory)
            } else {
                Ok(None)
            }
        }
        Ok(value) => Ok(Some(value)),
    }
}

fn text_in<'v>(value: &'v Value, name: &str) -> Option<&'v str>
    ensures { option_map (λ text. text.now) result ≡ text_in name.now (view value.now) }
{
    value.get(name)?.as_str()
}

// A text of its own.
fn copy_text(alloc: Global, text: &str) -> Result<Text, OutOfMemory>
    ensures { IfOk result (λ copy. copy ≡ text.now) }
{
    Ok(Text::from_string(String::from_str(alloc, text)?))
}

// Whether each of these values is a text.
fn are_texts(items: &[Value]) -> bool
    ensures { result ≡ list_all (λ item. is_some (as_str (view item))) items.now }
{
    items.iter().all(|item| item.is_string())
}

// Whether a list of so many names is one.
fn is_few(count: usize) -> bool
    ensures { result ≡ (nat_lt 0 count && nat_le count 16) }
{
    0 < count && count <= MOST_NAMED
}

// Whether these values are 1 to 16 texts.
#[tactic(auto, using(crate::proofs::BodyLemmas::few_all))]
fn are_few_texts(items: &[Value]) -> bool
    ensures { result ≡ is_some (option_and_then few (texts_of (items_view items.now))) }
{
    is_few(items.len()) && are_texts(items)
}

// The texts that these values are, if each is one.
fn copy_texts(alloc: Global, items: &[Value]) -> Result<Option<List<Text>>, OutOfMemory>
    ensures { IfOk result (λ texts. texts ≡ texts_of (items_view items.now)) }
{
    let mut texts = List::new(alloc);
    for item in items {
        let Some(text) = item.as_str() else {
            return Ok(None);
        };
        texts.push(copy_text(alloc, text)?)?;
    }
    Ok(Some(texts))
}

// The 1 to 16 texts that these values are. A refusal takes no memory.
fn few_texts(alloc: Global, items: &[Value]) -> Result<Option<List<Text>>, OutOfMemory>
    ensures value { IfOk result (λ texts. texts ≡ option_and_then few (texts_of (items_view items.now))) }
    ensures memory { OnErr result (is_some (option_and_then few (texts_of (items_view items.now))) ≡ true) }
{
    if !are_few_texts(items) {
        return Ok(None);
    }
    copy_texts(alloc, items)
}

// The profiles that a closure names, if any. A refusal takes no memory.
fn named_in(
    alloc: Global,
    member: Option<&Value>,
) -> Result<Option<Option<List<Text>>>, OutOfMemory>
    ensures value { IfOk result (λ named. named ≡ named_in (option_map (λ value. view value.now) member.entry)) }
    ensures memory { OnErr result (is_some (named_in (option_map (λ value. view value.now) member.entry)) ≡ true) }
{
    match member {
        None => Ok(Some(None)),
        Some(Value::Null) => Ok(Some(None)),
        Some(Value::Array(items)) => match few_texts(alloc, items)? {
            Some(texts) => Ok(Some(Some(texts))),
            None => Ok(None),
        },
        Some(_) => Ok(None),
    }
}

fn feature_in(value: &Value) -> Option<FeatureId>
    ensures { result ≡ option_and_then identifier_read (text_in (codes "feature") (view value.now)) }
{
    FeatureId::read(text_in(value, "feature")?.as_bytes())
}

fn closed_in(value: &Value) -> Option<bool>
    ensures { result ≡ option_and_then as_bool (get (codes "closed") (view value.now)) }
{
    value.get("closed")?.as_bool()
}

// The feature, how it is to stand, and for whom. A refusal takes no memory.
fn closure_in(alloc: Global, value: &Value) -> Result<Option<Change>, OutOfMemory>
    ensures value { IfOk result (λ change. change ≡ closure_in (view value.now)) }
    ensures memory { OnErr result (is_some (closure_in (view value.now)) ≡ true) }
{
    let Some(feature) = feature_in(value) else {
        return Ok(None);
    };
    let Some(closed) = closed_in(value) else {
        return Ok(None);
    };
    let Some(profiles) = named_in(alloc, value.get("profiles"))? else {
        return Ok(None);
    };
    Ok(Some(Change::Closure(Closure {
        feature,
        closed,
        profiles,
    })))
}

// The folder to be published. A refusal takes no memory.
fn publish_in(alloc: Global, value: &Value) -> Result<Option<Change>, OutOfMemory>
    ensures value { IfOk result (λ change. change ≡ publish_in (view value.now)) }
    ensures memory { OnErr result (is_some (publish_in (view value.now)) ≡ true) }
{
    let Some(name) = text_in(value, "folder") else {
        return Ok(None);
    };
    if !is_folder_name(name) {
        return Ok(None);
    }
    let folder = copy_text(alloc, name)?;
    Ok(Some(Change::Publish { folder }))
}

// What a value asks of a path. A refusal takes no memory.
fn change_in(alloc: Global, path: Path, value: &Value) -> Result<Option<Change>, OutOfMemory>
    ensures value { IfOk result (λ change. change ≡ change_in path (view value.now)) }
    ensures memory { OnErr result (is_some (change_in path (view value.now)) ≡ true) }
{
    match path {
        Path::Closures => closure_in(alloc, value),
        Path::Publish => publish_in(alloc, value),
        Path::Version | Path::Places | Path::Place | Path::Route | Path::Tour | Path::Nearest => Ok(
            None,
        ),
    }
}

// What a body asks of a path, if it asks for something.
fn change_of(alloc: Global, path: Path, body: &[u8]) -> Result<Option<Change>, OutOfMemory>
    ensures some { IfOk result (λ found. IfSome found (λ change. AsksChange path body.now change)) }
    ensures none { IfOk result (λ found. IfNone found ((change : Change) → ¬ AsksChange path body.now change)) }
    ensures memory { OnErr result (0 < length body.now) }
{
    match value_in(alloc, body)? {
        Some(value) => change_in(alloc, path, &value),
        None => Ok(None),
    }
}

/// The change that a body asks of a path, or its refusal.
pub(crate) fn changed(alloc: Global, path: Path, body: &[u8]) -> Result<Message, OutOfMemory>
    ensures message { IfOk result (λ message. IsChanged path body.now message) }
    ensures memory { OnErr result (0 < length body.now) }
{
    match change_of(alloc, path, body)? {
        Some(change) => Ok(Message::Do(change)),
        None => Ok(Message::Refused(Refusal::BadBody)),
    }
}
