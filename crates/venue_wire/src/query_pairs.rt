//! What stands in a query under a key.

ghost use Rattle.std.specs.Prelude.{◌≡◌, ◌∷◌, ◌++◌, [], List, ℕ, ◌<◌, length, IfOk, OnErr, bytes_eq};
ghost use Rattle.form_urlencoded.specs.Form.{raw_pairs};
ghost use Rattle.venue_wire.specs.Finding.{AreTexts, raw_values};
ghost use Rattle.venue_wire.specs.Queries.{text_of, values_of};
ghost use Rattle.wire_frames.specs.Outcomes.{AreValues};

use form_urlencoded::{decode, raw_pairs};
use std::alloc::{AllocError, Global};
use std::borrow::CowStr;
use wire_frames::Named;

/// The texts of the values of a key, borrowed where nothing is encoded.
#[derive(Drop)]
pub(crate) enum Sought<'q> {
    Absent,
    Once(CowStr<'q, Global>),
    Several,
}

// The values found, and one more.
fn with<'q>(found: Named<'q>, value: &'q [u8]) -> Named<'q>
    ensures { (values : List (List ℕ)) → AreValues found.entry values → AreValues result (values ++ value.now ∷ []) }
{
    match found {
        Named::Absent => Named::Once(value),
        _ => Named::Several,
    }
}

// Whether a name of a query stands for this key.
fn is_named(alloc: Global, raw: &[u8], key: &str) -> Result<bool, AllocError>
    ensures { IfOk result (λ same. same ≡ bytes_eq (text_of raw.now) key.now) }
{
    let text = decode(alloc, raw)?;
    Ok(&*text == key)
}

// The values of a key, as they stand in the query.
fn find_values<'q>(alloc: Global, query: &'q [u8], key: &str) -> Result<Named<'q>, AllocError>
    ensures { IfOk result (λ found. AreValues found (raw_values key.now (raw_pairs query.now))) }
{
    let mut found = Named::Absent;
    for (raw, value) in raw_pairs(query) {
        if is_named(alloc, raw, key)? {
            found = with(found, value);
        }
    }
    Ok(found)
}

/// The texts of the values of a key. An empty query takes no memory.
#[tactic(auto, using(crate::proofs::ValueLemmas::no_values))]
pub(crate) fn seek<'q>(alloc: Global, query: &'q [u8], key: &str) -> Result<Sought<'q>, AllocError>
    ensures texts { IfOk result (λ sought. AreTexts sought (values_of key.now query.now)) }
    ensures memory { OnErr result (0 < length query.now) }
{
    if query.is_empty() {
        return Ok(Sought::Absent);
    }
    match find_values(alloc, query, key)? {
        Named::Absent => Ok(Sought::Absent),
        Named::Once(value) => {
            let text = decode(alloc, value)?;
            Ok(Sought::Once(text))
        }
        Named::Several => Ok(Sought::Several),
    }
}
