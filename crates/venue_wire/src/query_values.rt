//! What a query asks of a path.

ghost use Rattle.std.specs.Prelude.{◌≡◌, ◌<◌, ◌≤◌, false, [], IfOk, IfSome, OnErr, codes, length, option_and_then};
ghost use Rattle.venue_wire.specs.Messages.{asked};
ghost use Rattle.venue_wire.specs.Paths.{place_in};
ghost use Rattle.venue_wire.specs.Queries.{answer_read, ask_of, category_read, end_of, limit_read, nearest_asked, query_of, only_value, route_asked, since_of, stops_read, tour_asked, value_or, values_of};

use crate::forms::{is_category, read_answer, read_limit, read_number};
use crate::messages::Message;
use crate::paths::Path;
use crate::query_pairs::{Sought, seek};
use crate::stops::read_stops;
use std::alloc::Global;
use venue_types::{Ask, FeatureId, List, NearQuery, OutOfMemory, Query, Text, TourQuery};
use wire_frames::Refusal;

// The version that is asked for at least, if any; none where the query isn't of its form.
fn since_of(alloc: Global, query: &[u8]) -> Result<Option<Option<u32>>, OutOfMemory>
    ensures value { IfOk result (λ since. since ≡ since_of query.now) }
    ensures memory { OnErr result (0 < length query.now) }
{
    match seek(alloc, query, "since")? {
        Sought::Absent => Ok(Some(None)),
        Sought::Once(text) => match read_number((&*text).as_bytes()) {
            Some(version) => Ok(Some(Some(version))),
            None => Ok(None),
        },
        Sought::Several => Ok(None),
    }
}

// The place at one end of a route or a tour, or from which the nearest are asked for.
fn end_of(alloc: Global, query: &[u8], key: &str) -> Result<Option<FeatureId>, OutOfMemory>
    ensures value { IfOk result (λ place. place ≡ end_of key.now query.now) }
    ensures memory { OnErr result (0 < length query.now) }
{
    match seek(alloc, query, key)? {
        Sought::Once(text) => Ok(FeatureId::read((&*text).as_bytes())),
        Sought::Absent => Ok(None),
        Sought::Several => Ok(None),
    }
}

// The profile, which may be an empty name.
#[tactic(auto, using(crate::proofs::ValueLemmas::no_values))]
fn profile_of(alloc: Global, query: &[u8]) -> Result<Option<Text>, OutOfMemory>
    ensures value { IfOk result (λ profile. profile ≡ only_value (values_of (codes "profile") query.now)) }
    ensures memory { OnErr result (0 < length query.now) }
{
    if query.is_empty() {
        return Ok(None);
    }
    match seek(alloc, query, "profile")? {
        Sought::Once(text) => Ok(Some(Text::from_string(text.into_owned(alloc)?))),
        Sought::Absent => Ok(None),
        Sought::Several => Ok(None),
    }
}

fn certificate_of(alloc: Global, query: &[u8]) -> Result<Option<bool>, OutOfMemory>
    ensures value { IfOk result (λ certificate. certificate ≡ value_or false answer_read (values_of (codes "certificate") query.now)) }
    ensures memory { OnErr result (0 < length query.now) }
{
    match seek(alloc, query, "certificate")? {
        Sought::Absent => Ok(Some(false)),
        Sought::Once(text) => Ok(read_answer(&*text)),
        Sought::Several => Ok(None),
    }
}

fn route_asked(alloc: Global, query: &[u8]) -> Result<Option<Ask>, OutOfMemory>
    ensures value { IfOk result (λ ask. ask ≡ route_asked query.now) }
    ensures memory { OnErr result (0 < length query.now) }
{
    let Some(from) = end_of(alloc, query, "from")? else {
        return Ok(None);
    };
    let Some(to) = end_of(alloc, query, "to")? else {
        return Ok(None);
    };
    let Some(profile) = profile_of(alloc, query)? else {
        return Ok(None);
    };
    let Some(certificate) = certificate_of(alloc, query)? else {
        return Ok(None);
    };
    Ok(Some(Ask::Route {
        from,
        to,
        profile,
        certificate,
    }))
}

// The stops of a tour.
#[tactic(auto, using(crate::proofs::ValueLemmas::no_values))]
fn stops_of(alloc: Global, query: &[u8]) -> Result<Option<List<FeatureId>>, OutOfMemory>
    ensures value { IfOk result (λ stops. stops ≡ option_and_then stops_read (only_value (values_of (codes "stops") query.now))) }
    ensures some { IfOk result (λ stops. IfSome stops (λ ids. 1 ≤ length ids)) }
    ensures few { IfOk result (λ stops. IfSome stops (λ ids. length ids ≤ 8)) }
    ensures memory { OnErr result (0 < length query.now) }
{
    if query.is_empty() {
        return Ok(None);
    }
    match seek(alloc, query, "stops")? {
        Sought::Once(text) => read_stops(alloc, &*text),
        Sought::Absent => Ok(None),
        Sought::Several => Ok(None),
    }
}

fn tour_asked(alloc: Global, query: &[u8]) -> Result<Option<Ask>, OutOfMemory>
    ensures value { IfOk result (λ ask. ask ≡ tour_asked query.now) }
    ensures memory { OnErr result (0 < length query.now) }
{
    let Some(from) = end_of(alloc, query, "from")? else {
        return Ok(None);
    };
    let Some(to) = end_of(alloc, query, "to")? else {
        return Ok(None);
    };
    let Some(stops) = stops_of(alloc, query)? else {
        return Ok(None);
    };
    let Some(profile) = profile_of(alloc, query)? else {
        return Ok(None);
    };
    Ok(Some(Ask::Tour(TourQuery::new(from, to, stops, profile))))
}

// The category of which the nearest are asked for.
#[tactic(auto, using(crate::proofs::ValueLemmas::no_values))]
fn category_of(alloc: Global, query: &[u8]) -> Result<Option<Text>, OutOfMemory>
    ensures value { IfOk result (λ category. category ≡ option_and_then category_read (only_value (values_of (codes "category") query.now))) }
    ensures memory { OnErr result (0 < length query.now) }
{
    if query.is_empty() {
        return Ok(None);
    }
    match seek(alloc, query, "category")? {
        Sought::Once(text) => {
            if is_category(&*text) {
                Ok(Some(Text::from_string(text.into_owned(alloc)?)))
            } else {
                Ok(None)
            }
        }
        Sought::Absent => Ok(None),
        Sought::Several => Ok(None),
    }
}

// How many of the nearest are asked for at most; one where nothing is said.
fn limit_of(alloc: Global, query: &[u8]) -> Result<Option<u8>, OutOfMemory>
    ensures value { IfOk result (λ limit. limit ≡ value_or 1 limit_read (values_of (codes "limit") query.now)) }
    ensures some { IfOk result (λ limit. IfSome limit (λ most. 1 ≤ most)) }
    ensures few { IfOk result (λ limit. IfSome limit (λ most. most ≤ 10)) }
    ensures memory { OnErr result (0 < length query.now) }
{
    match seek(alloc, query, "limit")? {
        Sought::Absent => Ok(Some(1)),
        Sought::Once(text) => Ok(read_limit((&*text).as_bytes())),
        Sought::Several => Ok(None),
    }
}

fn nearest_asked(alloc: Global, query: &[u8]) -> Result<Option<Ask>, OutOfMemory>
    ensures value { IfOk result (λ ask. ask ≡ nearest_asked query.now) }
    ensures memory { OnErr result (0 < length query.now) }
{
    let Some(from) = end_of(alloc, query, "from")? else {
        return Ok(None);
    };
    let Some(category) = category_of(alloc, query)? else {
        return Ok(None);
    };
    let Some(profile) = profile_of(alloc, query)? else {
        return Ok(None);
    };
    let Some(limit) = limit_of(alloc, query)? else {
        return Ok(None);
    };
    let Some(certificate) = certificate_of(alloc, query)? else {
        return Ok(None);
    };
    Ok(Some(Ask::Nearest(NearQuery::new(from, category, profile, limit, certificate))))
}

// The identifier in the text of a place's path.
fn place_in(text: &str) -> &[u8]
    ensures { result.now ≡ place_in text.now }
{
    let bytes = text.as_bytes();
    &bytes[bytes.len().min(10)..]
}

fn place_asked(text: &str) -> Option<Ask>
    ensures { result ≡ ask_of Path.Place text.now [] }
{
    let id = FeatureId::read(place_in(text))?;
    Some(Ask::Place(id))
}

fn ask_of(alloc: Global, path: Path, text: &str, query: &[u8]) -> Result<Option<Ask>, OutOfMemory>
    ensures value { IfOk result (λ ask. ask ≡ ask_of path text.now query.now) }
    ensures memory { OnErr result (0 < length query.now) }
{
    match path {
        Path::Version => Ok(Some(Ask::Version)),
        Path::Places => Ok(Some(Ask::Places)),
        Path::Closures => Ok(Some(Ask::Closures)),
        Path::Place => Ok(place_asked(text)),
        Path::Route => route_asked(alloc, query),
        Path::Tour => tour_asked(alloc, query),
        Path::Nearest => nearest_asked(alloc, query),
        Path::Publish => Ok(None),
    }
}

fn query_of(
    alloc: Global,
    path: Path,
    text: &str,
    query: &[u8],
) -> Result<Option<Query>, OutOfMemory>
    ensures value { IfOk result (λ asked. asked ≡ query_of path text.now query.now) }
    ensures memory { OnErr result (0 < length query.now) }
{
    let Some(what) = ask_of(alloc, path, text, query)? else {
        return Ok(None);
    };
    let Some(since) = since_of(alloc, query)? else {
        return Ok(None);
    };
    Ok(Some(Query { since, what }))
}

/// The question that a path's text and a query ask of a path, or its refusal.
pub(crate) fn asked(
    alloc: Global,
    path: Path,
    text: &str,
    query: &[u8],
) -> Result<Message, OutOfMemory>
    ensures value { IfOk result (λ message. message ≡ asked (query_of path text.now query.now)) }
    ensures memory { OnErr result (0 < length query.now) }
{
    match query_of(alloc, path, text, query)? {
        Some(query) => Ok(Message::Ask(query)),
        None => Ok(Message::Refused(Refusal::BadQuery)),
    }
}
