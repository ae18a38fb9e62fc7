//! Objects of texts, as names are.

ghost use Rattle.std.specs.Prelude.{◌≡◌, ◌<◌, suc, ◌∷◌, ℕ, List, length, drop, true, if◌then◌else◌, not, map, IfOk, OnOk};
ghost use Rattle.std.specs.List.{list_all};
ghost use Rattle.std.specs.Str.{bytes_eq};
ghost use Rattle.exact_json.specs.Json.{object as json_object};
ghost use Rattle.exact_json.specs.View.{pair_view, members_view, object_view};
ghost use Rattle.imdf_schema.specs.Values.{is_text as text_is, has_texts};
ghost use Rattle.imdf_schema.specs.Names.{has_name};

use crate::values::is_text;
use exact_json::{Members, Pair};
use std::alloc::Global;
use std::collections::BTreeSet;
use venue_types::OutOfMemory;

// Whether each value is a text.
fn are_texts(pairs: &[Pair]) -> bool
    ensures { result ≡ list_all (λ pair. text_is pair.1) (map pair_view pairs.now) }
{
    for pair in pairs {
        if !is_text(Some(&pair.value)) {
            return false;
        }
    }
    true
}

// Puts a name in, and says whether it is new.
fn is_new<'a>(names: &mut BTreeSet<&'a [u8]>, name: &'a [u8]) -> Result<bool, OutOfMemory>
    ensures new { IfOk result (λ new. new ≡ not (has_name names.old name.now)) }
    ensures names { OnOk result ((other : List ℕ) → has_name names.new other ≡ (if bytes_eq name.now other then true else has_name names.old other)) }
{
    Ok(names.insert(name)?)
}

// One of the pairs.
fn pair_at<'a, 'b>(pairs: &'b [Pair<'a>], i: usize) -> &'b Pair<'a>
    requires { i < length pairs.now }
    ensures { drop i pairs.now ≡ result.now ∷ drop (suc i) pairs.now }
{
    &pairs[i]
}

// Whether the last value of each name is a text.
fn last_are_texts(alloc: Global, pairs: &[Pair]) -> Result<bool, OutOfMemory>
    ensures { IfOk result (λ all. all ≡ has_texts (json_object (members_view pairs.now))) }
{
    let mut names = BTreeSet::new(alloc);
    let mut left = pairs.len();
    while left > 0 {
        left -= 1;
        let pair = pair_at(pairs, left);
        if is_new(&mut names, pair.name.bytes())? && !is_text(Some(&pair.value)) {
            return Ok(false);
        }
    }
    Ok(true)
}

/// Whether what counts of each name, its last value, is a text. It takes n log n steps for n members, and memory only
/// where some value is no text.
pub(crate) fn all_texts(alloc: Global, members: &Members) -> Result<bool, OutOfMemory>
    ensures { IfOk result (λ all. all ≡ has_texts (json_object (object_view members.now))) }
{
    let pairs = members.as_slice();
    if are_texts(pairs) {
        return Ok(true);
    }
    last_are_texts(alloc, pairs)
}
