//! Words of the format, and what stands for some facts of a row.

ghost use Rattle.std.specs.Prelude.{◌≡◌, codes};
ghost use Rattle.exact_json.specs.Json.{text};
ghost use Rattle.json_text.specs.Compact.{compact};
ghost use Rattle.imdf_write.specs.Values.{if_so, word_list, door_of, type_numbered, passage_word, direction_word};

use venue_types::{File, Kind};

/// The feature type of a file's number, empty where there is no such file.
pub(crate) fn type_text(number: u8) -> &'static [u8]
    ensures { result.now ≡ type_numbered number }
{
    match File::from_number(number) {
        Some(file) => file.type_name(),
        None => b"",
    }
}

/// The access to an opening: out of service, or null.
pub(crate) fn access_control(out: bool) -> &'static [u8]
    ensures { result.now ≡ compact (word_list out (codes "outofservice")) }
{
    if out { b"[\"outofservice\"]" } else { b"null" }
}

/// Whom an opening is marked for: wheelchairs, or null.
pub(crate) fn accessibility(marked: bool) -> &'static [u8]
    ensures { result.now ≡ compact (word_list marked (codes "wheelchair")) }
{
    if marked { b"[\"wheelchair\"]" } else { b"null" }
}

/// An opening's door, or null.
pub(crate) fn door(revolving: bool, turnstile: bool) -> &'static [u8]
    ensures { result.now ≡ compact (door_of revolving turnstile) }
{
    if revolving {
        b"{\"type\":\"revolving\"}"
    } else if turnstile {
        b"{\"type\":\"turnstile\"}"
    } else {
        b"null"
    }
}

/// The restriction of a unit, or null.
pub(crate) fn restriction(restricted: bool) -> &'static [u8]
    ensures { result.now ≡ compact (if_so restricted (text (codes "restricted"))) }
{
    if restricted {
        b"\"restricted\""
    } else {
        b"null"
    }
}

/// The category of a relationship.
pub(crate) fn passage(kind: Option<Kind>) -> &'static [u8]
    ensures { result.now ≡ compact (text (passage_word kind)) }
{
    match kind {
        None => b"\"none\"",
        Some(Kind::Floor) => b"\"floor\"",
        Some(Kind::Elevator) => b"\"elevator\"",
        Some(Kind::Escalator) => b"\"escalator\"",
        Some(Kind::Movingwalkway) => b"\"movingwalkway\"",
        Some(Kind::Ramp) => b"\"ramp\"",
        Some(Kind::Stairs) => b"\"stairs\"",
        Some(Kind::Traversal) => b"\"traversal\"",
    }
}

/// The direction of a relationship.
pub(crate) fn direction(directed: bool) -> &'static [u8]
    ensures { result.now ≡ compact (text (direction_word directed)) }
{
    if directed {
        b"\"directed\""
    } else {
        b"\"undirected\""
    }
}
