//! A whole text.

ghost use Rattle.std.specs.Prelude.{◌≡◌, ◌≤◌, ◌<◌, ℕ, List, None, Err, IfOk, length};
ghost use Rattle.exact_json.specs.Json.{Json, depth, IsNarrow, HasTexts};
ghost use Rattle.exact_json.specs.View.{tree_view};
ghost use Rattle.exact_json.specs.Slices.{texts_of, AreTextsOf};
ghost use Rattle.exact_json.specs.Grammar.{IsSpace, IsJson, Starts, Answers, Misread, bare};
ghost use Rattle.exact_json.specs.Reading.{value};
ghost use Rattle.exact_json.specs.Scanning.{Reads};

use crate::arena::Arena;
use crate::fault::JsonFault;
use crate::number::after;
use crate::scan::scan;
use crate::tree::Tree;
use crate::unclosed::Unclosed;
use crate::values::{read_value, skip_spaces};
use std::alloc::Global;

// How deep lists and objects may nest.
const MAX_DEPTH: usize = 64;

// Why a text is refused whose value nests too deep, if it is one.
fn deep_fault(alloc: Global, start: &[u8]) -> JsonFault
    requires { value 64 start.now ≡ None }
    ensures only { (j : Json) → (z : List ℕ) → IsSpace z → Reads start.now j z → Misread j result }
    ensures deep { result ≡ JsonFault.Deep → (j : Json) × Starts start.now j × (64 < depth j) }
{
    match scan(alloc, start) {
        Ok(behind) => {
            if skip_spaces(behind).is_empty() {
                JsonFault::Deep
            } else {
                JsonFault::Text
            }
        }
        Err(e) => e,
    }
}

fn read_start<'a>(arena: &'a Arena, start: &'a [u8]) -> Result<Tree<'a>, JsonFault>
    ensures only { (j : Json) → (z : List ℕ) → IsSpace z → Reads start.now j z → Answers j result }
    ensures found { IfOk result (λ t. Starts start.now (tree_view t) × (depth (tree_view t) ≤ 64)) }
    ensures slices { IfOk result (λ t. AreTextsOf (texts_of t) start.now) }
    ensures deep { result ≡ Err JsonFault.Deep → (j : Json) × Starts start.now j × (64 < depth j) }
{
    let mut unclosed = Unclosed::new(arena.alloc());
    match read_value(arena, &mut unclosed, start, MAX_DEPTH) {
        Ok((tree, rest)) => {
            if skip_spaces(rest).is_empty() {
                Ok(tree)
            } else {
                Err(JsonFault::Text)
            }
        }
        Err(JsonFault::Deep) => Err(deep_fault(arena.alloc(), start)),
        Err(JsonFault::Text) => Err(JsonFault::Text),
        Err(JsonFault::OutOfMemory) => Err(JsonFault::OutOfMemory),
    }
}

// Without one byte order mark in front.
fn bare(bytes: &[u8]) -> &[u8]
    ensures { result.now ≡ bare bytes.now }
{
    if bytes.starts_with(b"\xef\xbb\xbf") {
        after(bytes, 3)
    } else {
        bytes
    }
}

/// The value of a JSON text (RFC 8259). A byte order mark in front is skipped once.
///
/// A list or an object that nests deeper than 64 is refused as `Deep`, if the text is JSON.
/// Not proved, but by the form of the code: it takes time in proportion to the bytes, and what is kept of a list or an
/// object has no room to spare in its arena, in which all of a tree lies but the texts without escapes.
/// No recursion is deeper than the limit: the functions that call themselves (`read_value` and those that it calls)
/// require `depth ≤ 64`, are proved to end by a measure of `depth`, and pass one less behind each open bracket.
pub fn read<'a>(arena: &'a Arena, bytes: &'a [u8]) -> Result<Tree<'a>, JsonFault>
    // What is read is what the bytes spell.
    ensures ok { IfOk result
        (λ t. IsJson bytes.now (tree_view t) × (depth (tree_view t) ≤ 64)) }
    // A text is refused as `Text` only where it has no value, of any depth.
    ensures text { result ≡ Err JsonFault.Text → (j : Json) → ¬ (IsJson bytes.now j) }
    ensures deep { result ≡ Err JsonFault.Deep
        → (j : Json) × IsJson bytes.now j × (64 < depth j) }
    // What the bytes spell is read, unless it nests too deep or memory runs out.
    ensures only { (j : Json) → IsJson bytes.now j → Answers j result }
    // What the layers above count on.
    ensures narrow { IfOk result (λ t. IsNarrow (length bytes.now) (tree_view t)) }
    ensures texts { IfOk result (λ t. HasTexts (tree_view t)) }
    // Its texts, names too, are those of the strings in the bytes, in order, and one without an escape is a slice.
    ensures slices { IfOk result (λ t. AreTextsOf (texts_of t) bytes.now) }
{
    let text = bare(bytes);
    if std::str::from_utf8(text).is_err() {
        return Err(JsonFault::Text);
    }
    read_start(arena, skip_spaces(text))
}
