//! The value with which a text begins, and what follows it.

ghost use Rattle.std.specs.Prelude.{◌≡◌, ◌≤◌, ◌<◌, [], ◌∷◌, length, map, IfOk, IfSome, OnOk, option_map};
ghost use Rattle.exact_json.specs.Number.{ends_value};
ghost use Rattle.exact_json.specs.View.{tree_view, text_view, pair_view};
ghost use Rattle.exact_json.specs.Slices.{texts_of, items_texts, pair_texts, members_texts, AreTextsBefore};
ghost use Rattle.exact_json.specs.Unclosed.{Keeps};
ghost use Rattle.exact_json.specs.Reading.{Gives, Finds, skip, elements_at, value, scalar_at, token_at, number_at, name_at, pair_at, literal};

use crate::arena::Arena;
use crate::fault::JsonFault;
use crate::number::{after, after_number, byte_at};
use crate::text::read_text;
use crate::tree::{JsonText, Pair, Tree, array, record, string};
use crate::unclosed::Unclosed;

pub(crate) fn skip_spaces(text: &[u8]) -> &[u8]
    ensures value { result.now ≡ skip text.now }
    ensures within { length result.now ≤ length text.now }
{
    let mut i = 0;
    while i < text.len()
        && (text[i] == b' ' || text[i] == b'\t' || text[i] == b'\n' || text[i] == b'\r')
    {
        i += 1;
    }
    after(text, i)
}

fn ends_value(c: u8) -> bool
    ensures { result ≡ ends_value c }
{
    let space = (c == b' ') | (c == b'\t') | (c == b'\n') | (c == b'\r');
    space | (c == b',') | (c == b']') | (c == b'}')
}

#[inline(always)]
#[tactic(auto, unfolding(crate::specs::Reading::number_at))]
fn read_number(text: &[u8]) -> Option<(&[u8], &[u8])>
    ensures value { option_map (λ r. (r.0.now, r.1.now)) result ≡ number_at text.now }
    ensures within { IfSome result (λ r. length r.1.now ≤ length text.now) }
{
    let rest = after_number(text)?;
    if ends_value(byte_at(rest, 0)) {
        Some((text.split_at(text.len() - rest.len()).0, rest))
    } else {
        None
    }
}

#[inline(never)]
fn read_literal<'a>(text: &'a [u8], name: &[u8], tree: Tree<'a>) -> Option<(Tree<'a>, &'a [u8])>
    ensures value { option_map (λ r. (tree_view r.0, r.1.now)) result
        ≡ literal name.now (tree_view tree.entry) text.now }
    ensures texts { IfSome result (λ r. texts_of r.0 ≡ texts_of tree.entry) }
    ensures within { IfSome result (λ r. length r.1.now ≤ length text.now) }
{
    if text.starts_with(name) {
        Some((tree, after(text, name.len())))
    } else {
        None
    }
}

/// A literal or a number in front.
#[inline(always)]
pub(crate) fn read_token(text: &[u8]) -> Option<(Tree<'_>, &[u8])>
    ensures value { option_map (λ r. (tree_view r.0, r.1.now)) result ≡ token_at text.now }
    ensures texts { IfSome result (λ r. texts_of r.0 ≡ []) }
    ensures within { IfSome result (λ r. length r.1.now ≤ length text.now) }
{
    match byte_at(text, 0) {
        b'n' => read_literal(text, b"null", Tree::Null),
        b't' => read_literal(text, b"true", Tree::Bool(true)),
        b'f' => read_literal(text, b"false", Tree::Bool(false)),
        _ => match read_number(text) {
            Some((token, rest)) => Some((Tree::Number(token), rest)),
            None => None,
        },
    }
}

// A value that is no list and no object.
#[inline(always)]
fn read_scalar<'a>(arena: &'a Arena, text: &'a [u8]) -> Result<(Tree<'a>, &'a [u8]), JsonFault>
    ensures value { Finds (λ r. (tree_view r.0, r.1.now)) (scalar_at text.now) result }
    ensures slices { IfOk result (λ r. AreTextsBefore (texts_of r.0) text.now r.1.now) }
    ensures within { IfOk result (λ r. length r.1.now ≤ length text.now) }
{
    if byte_at(text, 0) == b'"' {
        let (bytes, rest) = read_text(arena, after(text, 1))?;
        return Ok((string(bytes), rest));
    }
    match read_token(text) {
        Some((tree, rest)) => Ok((tree, rest)),
        None => Err(JsonFault::Text),
    }
}

// A name and its colon.
#[tactic(auto, unfolding(crate::specs::Reading::name_at))]
fn read_name<'a>(arena: &'a Arena, text: &'a [u8]) -> Result<(JsonText<'a>, &'a [u8]), JsonFault>
    ensures value { Finds (λ r. (text_view r.0, r.1.now)) (name_at text.now) result }
    ensures slices { IfOk result (λ r. AreTextsBefore (r.0 ∷ []) text.now r.1.now) }
    ensures within { IfOk result (λ r. length r.1.now ≤ length text.now) }
{
    if byte_at(text, 0) != b'"' {
        return Err(JsonFault::Text);
    }
    let (name, rest) = read_text(arena, after(text, 1))?;
    let mark = skip_spaces(rest);
    if byte_at(mark, 0) == b':' {
        Ok((name, after(mark, 1)))
    } else {
        Err(JsonFault::Text)
    }
}

/// One value, with lists and objects nested no deeper than `depth`, by which the recursion is measured.
#[cycle(read)]
#[inline(always)]
pub(crate) fn read_value<'a>(
    arena: &'a Arena,
    unclosed: &mut Unclosed<'a>,
    text: &'a [u8],
    depth: usize,
) -> Result<(Tree<'a>, &'a [u8]), JsonFault>
    requires { depth ≤ 64 }
    ensures value { Gives (λ r. (tree_view r.0, r.1.now)) depth (λ d. value d text.now) result }
    ensures slices { IfOk result (λ r. AreTextsBefore (texts_of r.0) text.now r.1.now) }
    ensures within { IfOk result (λ r. length r.1.now ≤ length text.now) }
    ensures kept { OnOk result (Keeps unclosed.old unclosed.new) }
{
    match byte_at(text, 0) {
        b'[' => {
            if depth == 0 {
                return Err(JsonFault::Deep);
            }
            let (list, rest) = read_items(arena, unclosed, after(text, 1), depth - 1)?;
            Ok((array(list), rest))
        }
        b'{' => {
            if depth == 0 {
                return Err(JsonFault::Deep);
            }
            let (pairs, rest) = read_members(arena, unclosed, after(text, 1), depth - 1)?;
            Ok((record(pairs), rest))
        }
        _ => read_scalar(arena, text),
    }
}

// The items behind an opening bracket, and what follows the closing one.
#[cycle(read)]
#[inline(never)]
fn read_items<'a>(
    arena: &'a Arena,
    unclosed: &mut Unclosed<'a>,
    text: &'a [u8],
    depth: usize,
) -> Result<(&'a [Tree<'a>], &'a [u8]), JsonFault>
    requires { depth ≤ 64 }
    ensures value { Gives (λ r. (map tree_view r.0.now, r.1.now)) depth
        (λ d. elements_at 93 (value d) text.now) result }
    ensures slices { IfOk result (λ r. AreTextsBefore (items_texts r.0.now) text.now r.1.now) }
    ensures within { IfOk result (λ r. length r.1.now ≤ length text.now) }
    ensures kept { OnOk result (Keeps unclosed.old unclosed.new) }
{
    let mut rest = skip_spaces(text);
    if byte_at(rest, 0) == b']' {
        return Ok((&[], after(rest, 1)));
    }
    let start = unclosed.trees.len();
    loop {
        let (tree, behind) = read_value(arena, unclosed, skip_spaces(rest), depth)?;
        unclosed.trees.push(tree)?;
        let mark = skip_spaces(behind);
        match byte_at(mark, 0) {
            b',' => rest = after(mark, 1),
            b']' => {
                let items = arena.close(&mut unclosed.trees, start)?;
                return Ok((items, after(mark, 1)));
            }
            _ => return Err(JsonFault::Text),
        }
    }
}

// A name, its colon and a value.
#[cycle(read)]
#[inline(always)]
fn read_pair<'a>(
    arena: &'a Arena,
    unclosed: &mut Unclosed<'a>,
    text: &'a [u8],
    depth: usize,
) -> Result<(Pair<'a>, &'a [u8]), JsonFault>
    requires { depth ≤ 64 }
    ensures value { Gives (λ r. (pair_view r.0, r.1.now)) depth
        (λ d. pair_at (value d) text.now) result }
    ensures slices { IfOk result (λ r. AreTextsBefore (pair_texts r.0) text.now r.1.now) }
    ensures within { IfOk result (λ r. length r.1.now ≤ length text.now) }
    ensures kept { OnOk result (Keeps unclosed.old unclosed.new) }
{
    let (name, rest) = read_name(arena, text)?;
    let (value, behind) = read_value(arena, unclosed, skip_spaces(rest), depth)?;
    Ok((Pair { name, value }, behind))
}

// The pairs behind an opening bracket, and what follows the closing one.
#[cycle(read)]
#[inline(never)]
fn read_members<'a>(
    arena: &'a Arena,
    unclosed: &mut Unclosed<'a>,
    text: &'a [u8],
    depth: usize,
) -> Result<(&'a [Pair<'a>], &'a [u8]), JsonFault>
    requires { depth ≤ 64 }
    ensures value { Gives (λ r. (map pair_view r.0.now, r.1.now)) depth
        (λ d. elements_at 125 (pair_at (value d)) text.now) result }
    ensures slices { IfOk result (λ r. AreTextsBefore (members_texts r.0.now) text.now r.1.now) }
    ensures within { IfOk result (λ r. length r.1.now ≤ length text.now) }
    ensures kept { OnOk result (Keeps unclosed.old unclosed.new) }
{
    let mut rest = skip_spaces(text);
    if byte_at(rest, 0) == b'}' {
        return Ok((&[], after(rest, 1)));
    }
    let start = unclosed.pairs.len();
    loop {
        let (pair, behind) = read_pair(arena, unclosed, skip_spaces(rest), depth)?;
        unclosed.pairs.push(pair)?;
        let mark = skip_spaces(behind);
        match byte_at(mark, 0) {
            b',' => rest = after(mark, 1),
            b'}' => {
                let pairs = arena.close(&mut unclosed.pairs, start)?;
                return Ok((pairs, after(mark, 1)));
            }
            _ => return Err(JsonFault::Text),
        }
    }
}
