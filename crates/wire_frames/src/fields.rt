//! What the fields of a head say of its message.

ghost use Rattle.std.specs.Prelude.{◌≡◌, ◌<◌, ◌↔◌, ℕ, List, [], ◌∷◌, ◌++◌, IsTrue, codes, length, map};
ghost use Rattle.http1.specs.Fields.{is_named, known_fields, values_named};
ghost use Rattle.httparse.specs.Borrowed.{header_parts};
ghost use Rattle.wire_frames.specs.Fields.{body_length, lists_close, read_length};
ghost use Rattle.wire_frames.specs.Outcomes.{AreValues};

use http1::fields::KnownFields;
use httparse::Header;

/// The values of the fields of one name.
#[derive(Clone, Copy, Debug)]
pub enum Named<'b> {
    Absent,
    Once(&'b [u8]),
    Several,
}

impl<'b> Named<'b> {
    fn with(self, value: &'b [u8]) -> Named<'b>
        ensures { (values : List (List ℕ)) → AreValues self.entry values
            → AreValues result (values ++ value.now ∷ []) }
    {
        match self {
            Named::Absent => Named::Once(value),
            _ => Named::Several,
        }
    }
}

#[tactic(auto, unfolding(http1::specs::Text::eq_ignore_case))]
fn is_named(header: &Header<'_>, name: &str) -> bool
    ensures { result ≡ is_named name.now (header_parts header.now) }
{
    header.name.eq_ignore_ascii_case(name)
}

/// The values of the fields of this name, whose case doesn't count.
pub(crate) fn find_named<'b>(headers: &[Header<'b>], name: &str) -> Named<'b>
    ensures { AreValues result (values_named name.now (map header_parts headers.now)) }
{
    let mut found = Named::Absent;
    for header in headers {
        if is_named(header, name) {
            found = found.with(header.value);
        }
    }
    found
}

fn read_length(value: &[u8]) -> Option<u64>
    ensures { result ≡ read_length value.now }
{
    if value.is_empty() || value.len() > 19 {
        return None;
    }
    let mut number: u64 = 0;
    for byte in value {
        if !byte.is_ascii_digit() {
            return None;
        }
        number = number * 10 + u64::from(*byte - b'0');
    }
    Some(number)
}

/// The length of the body, where the fields give one.
pub(crate) fn body_length(headers: &[Header<'_>]) -> Option<u64>
    ensures { result ≡ body_length (map header_parts headers.now) }
{
    match find_named(headers, "content-length") {
        Named::Absent => Some(0),
        Named::Once(value) => read_length(value),
        Named::Several => None,
    }
}

pub(crate) fn has_one_host(headers: &[Header<'_>]) -> bool
    ensures { IsTrue result ↔ (length (values_named (codes "host") (map header_parts headers.now)) ≡ 1) }
{
    matches!(find_named(headers, "host"), Named::Once(_))
}

pub(crate) fn has_coding(headers: &[Header<'_>]) -> bool
    ensures { IsTrue result
        ↔ (0 < length (values_named (codes "transfer-encoding") (map header_parts headers.now))) }
{
    !matches!(find_named(headers, "transfer-encoding"), Named::Absent)
}

fn known_fields(headers: &[Header<'_>]) -> KnownFields
    ensures { result ≡ known_fields (map header_parts headers.now) }
{
    let mut known = KnownFields::new();
    for header in headers {
        known.add(header.name.as_bytes(), header.value);
    }
    known
}

#[tactic(auto, unfolding(http1::specs::Fields::known_fields))]
pub(crate) fn lists_close(headers: &[Header<'_>]) -> bool
    ensures { result ≡ lists_close (map header_parts headers.now) }
{
    known_fields(headers).close
}
