//! The stops of a tour.

ghost use Rattle.std.specs.Prelude.{◌≡◌, ◌≤◌, nat_lt, not, IfOk, IfSome, length, map};
ghost use Rattle.venue_wire.specs.Queries.{comma_parts, identifiers_read, stops_read};

use std::alloc::{AllocError, Global};
use venue_types::{FeatureId, List, OutOfMemory};

// How many stops a tour has at most.
const MOST_STOPS: usize = 8;

// Whether a text has few enough parts between its commas.
#[tactic(auto, using(crate::proofs::StopLemmas::few_parts))]
fn has_few_parts(text: &[u8]) -> bool
    ensures { result ≡ not (nat_lt 8 (length (comma_parts text.now))) }
{
    text.iter().filter(|byte| **byte == b',').count() < MOST_STOPS
}

// The parts of a text between its commas.
fn comma_parts(alloc: Global, text: &str) -> Result<Vec<&str>, AllocError>
    ensures { IfOk result (λ parts. map (λ part. part.now) parts.items ≡ comma_parts text.now) }
{
    text.split(',').collect(alloc)
}

// The identifiers of these texts, if each is one.
fn read_identifiers(alloc: Global, texts: &[&str]) -> Result<Option<List<FeatureId>>, OutOfMemory>
    ensures { IfOk result (λ ids. ids ≡ identifiers_read (map (λ text. text.now) texts.now)) }
{
    let mut ids = List::new(alloc);
    for text in texts {
        let Some(id) = FeatureId::read(text.as_bytes()) else {
            return Ok(None);
        };
        ids.push(id)?;
    }
    Ok(Some(ids))
}

/// The stops that a text names, one to eight identifiers with a comma between each two, if it does. Where it has more parts, none is read.
pub(crate) fn read_stops(alloc: Global, text: &str) -> Result<Option<List<FeatureId>>, OutOfMemory>
    ensures value { IfOk result (λ stops. stops ≡ stops_read text.now) }
    ensures some { IfOk result (λ stops. IfSome stops (λ ids. 1 ≤ length ids)) }
    ensures few { IfOk result (λ stops. IfSome stops (λ ids. length ids ≤ 8)) }
{
    if !has_few_parts(text.as_bytes()) {
        return Ok(None);
    }
    let parts = comma_parts(alloc, text)?;
    read_identifiers(alloc, &parts)
}
