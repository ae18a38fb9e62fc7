//! Passing over a value without recursion and without building anything, however deep it nests.

ghost use Rattle.std.specs.Prelude.{◌≡◌, ◌≤◌, ℕ, List, true, false, length, IfSome, IfOk, option_map};
ghost use Rattle.exact_json.specs.Kinds.{KindAt};
ghost use Rattle.exact_json.specs.Number.{head};
ghost use Rattle.exact_json.specs.Reading.{scalar_at, name_at};
ghost use Rattle.exact_json.specs.Scanning.{Scanning, Enters, Leaves, IsShorter, Scans, rest_of, element_value};

use crate::fault::JsonFault;
use crate::kinds::{Kind, Kinds};
use crate::number::{after, byte_at};
use crate::text::pass_text;
use crate::values::{read_token, skip_spaces};
use std::alloc::Global;

fn pass_scalar(text: &[u8]) -> Option<&[u8]>
    ensures value { option_map (λ r. r.now) result ≡ rest_of (scalar_at text.now) }
    ensures within { IfSome result (λ r. length r.now ≤ length text.now) }
{
    if byte_at(text, 0) == b'"' {
        pass_text(after(text, 1))
    } else {
        match read_token(text) {
            Some((_, rest)) => Some(rest),
            None => None,
        }
    }
}

#[tactic(auto, unfolding(crate::specs::Reading::name_at))]
fn pass_name(text: &[u8]) -> Option<&[u8]>
    ensures value { option_map (λ r. r.now) result ≡ rest_of (name_at text.now) }
    ensures within { IfSome result (λ r. length r.now ≤ length text.now) }
{
    if byte_at(text, 0) != b'"' {
        return None;
    }
    let rest = pass_text(after(text, 1))?;
    let mark = skip_spaces(rest);
    if byte_at(mark, 0) == b':' {
        Some(after(mark, 1))
    } else {
        None
    }
}

// The kind of the bracket in front, if one opens there.
fn kind_at(text: &[u8]) -> Option<Kind>
    ensures { KindAt (head text.now) result }
{
    match byte_at(text, 0) {
        b'[' => Some(Kind::List),
        b'{' => Some(Kind::Object),
        _ => None,
    }
}

// The value of the element in front.
fn element_value(text: &[u8], kind: Kind) -> Option<&[u8]>
    ensures value { option_map (λ r. r.now) result ≡ element_value kind text.now }
    ensures within { IfSome result (λ r. length r.now ≤ length text.now) }
{
    let start = skip_spaces(text);
    match kind {
        Kind::List => Some(start),
        Kind::Object => {
            let rest = pass_name(start)?;
            Some(skip_spaces(rest))
        }
    }
}

// Passes over the value in front down to the first in it that holds no other: a scalar, or an empty list or object.
fn enter<'a>(kinds: &mut Kinds, text: &'a [u8]) -> Result<&'a [u8], JsonFault>
    ensures passed { (all : List ℕ) → Scanning all kinds.old true text.now → Enters all kinds.new result }
    ensures within { IfOk result (λ r. length r.now ≤ length text.now) }
{
    let mut rest = text;
    loop {
        let Some(kind) = kind_at(rest) else {
            return pass_scalar(rest).ok_or(JsonFault::Text);
        };
        let inside = skip_spaces(after(rest, 1));
        if byte_at(inside, 0) == kind.closing() {
            return Ok(after(inside, 1));
        }
        let Some(start) = element_value(inside, kind) else {
            return Err(JsonFault::Text);
        };
        kinds.open(kind)?;
        rest = start;
    }
}

// What is to come behind a value.
enum Behind<'a> {
    /// Another element.
    Element(&'a [u8]),
    /// What follows all that was open.
    End(&'a [u8]),
}

// Passes over the closing brackets behind a value, up to a comma and the value behind that.
fn leave<'a>(kinds: &mut Kinds, text: &'a [u8]) -> Result<Behind<'a>, JsonFault>
    ensures passed { (all : List ℕ) → Scanning all kinds.old false text.now → Leaves all kinds.new result }
    ensures within { IfOk result (IsShorter text.now) }
{
    let mut rest = text;
    loop {
        let Some(kind) = kinds.innermost() else {
            return Ok(Behind::End(rest));
        };
        let mark = skip_spaces(rest);
        let byte = byte_at(mark, 0);
        if byte == b',' {
            let Some(start) = element_value(after(mark, 1), kind) else {
                return Err(JsonFault::Text);
            };
            return Ok(Behind::Element(start));
        }
        if byte != kind.closing() {
            return Err(JsonFault::Text);
        }
        rest = after(mark, 1);
        kinds.close();
    }
}

/// What follows the value in front. It takes memory for the kinds of the brackets that are open.
pub(crate) fn scan<'a>(alloc: Global, text: &'a [u8]) -> Result<&'a [u8], JsonFault>
    ensures { Scans text.now result }
{
    let mut kinds = Kinds::new(alloc);
    let mut rest = text;
    loop {
        let behind = enter(&mut kinds, rest)?;
        match leave(&mut kinds, behind)? {
            Behind::Element(start) => rest = start,
            Behind::End(end) => return Ok(end),
        }
    }
}
