//! Strings (RFC 8259, section 7), from after the opening quote on.

ghost use Rattle.std.specs.Prelude.{◌≡◌, ◌≢◌, ◌+◌, ◌≤◌, ◌<◌, ◌++◌, [], ◌∷◌, true, drop, length, option_map, IfOk, IfSome, OnOk, SomeIff, encode_utf8};
ghost use Rattle.std.specs.List.{prefix_len};
ghost use Rattle.std.specs.Char.{digit_value};
ghost use Rattle.exact_json.specs.Strings.{short_escape, is_low};
ghost use Rattle.exact_json.specs.StringReading.{code_unit, low_next, unit_escape, after_high, escape, text_at, is_plain};
ghost use Rattle.exact_json.specs.Reading.{Finds};
ghost use Rattle.exact_json.specs.View.{text_view};
ghost use Rattle.exact_json.specs.Slices.{AreTextsBefore};
ghost use Rattle.exact_json.specs.Scanning.{rest_of};

use crate::arena::Arena;
use crate::fault::JsonFault;
use crate::number::{after, byte_at};
use crate::tree::JsonText;
use std::alloc::{AllocError, Global};

// What is written for half of a surrogate pair alone.
const REPLACEMENT: char = '\u{fffd}';

// A byte that stands for itself.
#[inline(always)]
fn is_plain(byte: u8) -> bool
    ensures { result ≡ is_plain byte }
{
    (byte != b'"') & (byte != b'\\') & (byte >= 0x20)
}

// Eight bytes stand in front, each for itself.
#[inline(always)]
fn are_eight_plain(text: &[u8]) -> bool
    ensures { result ≡ true → (8 ≤ length text.now)
        × (prefix_len is_plain text.now ≡ 8 + prefix_len is_plain (drop 8 text.now)) }
{
    match text {
        [a, b, c, d, e, f, g, h, ..] => {
            let first = is_plain(*a) & is_plain(*b) & is_plain(*c) & is_plain(*d);
            first & is_plain(*e) & is_plain(*f) & is_plain(*g) & is_plain(*h)
        }
        _ => false,
    }
}

// How many bytes in front stand for themselves.
fn plain_len(text: &[u8]) -> usize
    ensures value { result ≡ prefix_len is_plain text.now }
    ensures within { result ≤ length text.now }
{
    let mut i = 0;
    while are_eight_plain(after(text, i)) {
        i += 8;
    }
    while i < text.len() && is_plain(text[i]) {
        i += 1;
    }
    i
}

// The value of a hexadecimal digit.
fn hex_value(byte: u8) -> Option<u32>
    ensures { SomeIff result (digit_value byte < 16) (digit_value byte) }
{
    (byte as char).to_digit(16)
}

// The code unit of four hexadecimal digits in front.
#[tactic(auto, unfolding(crate::specs::StringReading::code_unit))]
fn code_unit(text: &[u8]) -> Option<u32>
    ensures value { result ≡ code_unit text.now }
    ensures bounds { IfSome result (λ u. (u < 65536) × (4 ≤ length text.now)) }
{
    match text {
        [a, b, c, d, ..] => {
            let (a, b) = (hex_value(*a)?, hex_value(*b)?);
            let (c, d) = (hex_value(*c)?, hex_value(*d)?);
            Some(a * 4096 + b * 256 + c * 16 + d)
        }
        _ => None,
    }
}

#[tactic(auto, unfolding(crate::specs::Strings::short_escape))]
fn short_escape(letter: u8) -> Option<char>
    ensures value { result ≡ short_escape letter }
    ensures some { IfSome result (λ _. letter ≢ 32) }
{
    match letter {
        b't' => Some('\t'),
        b'n' => Some('\n'),
        b'r' => Some('\r'),
        b'b' => Some('\u{8}'),
        b'f' => Some('\u{c}'),
        b'/' => Some('/'),
        b'"' => Some('"'),
        b'\\' => Some('\\'),
        _ => None,
    }
}

// The low surrogate whose escape stands in front, if one does.
fn low_next(text: &[u8]) -> Option<u32>
    ensures value { result ≡ low_next text.now }
    ensures bounds { IfSome result (λ u. (u < 57344) × (56320 ≤ u) × (6 ≤ length text.now)) }
{
    if (byte_at(text, 0) == b'\\') & (byte_at(text, 1) == b'u') {
        let low = code_unit(after(text, 2))?;
        if (0xdc00 <= low) & (low < 0xe000) {
            Some(low)
        } else {
            None
        }
    } else {
        None
    }
}

// The character of a code unit whose digits stand in front, and in how many bytes behind the backslash it is spelled.
fn unit_escape(text: &[u8], unit: u32) -> (char, usize)
    requires { (unit < 65536) × (4 ≤ length text.now) }
    ensures value { result ≡ unit_escape text.now unit }
    ensures within { (1 ≤ result.1) × (result.1 ≤ length text.now + 1) }
{
    if (0xd800 <= unit) & (unit < 0xdc00) {
        match low_next(after(text, 4)) {
            Some(low) => {
                let code = 0x10000 + (unit - 0xd800) * 1024 + (low - 0xdc00);
                (char::from_u32(code).unwrap_or(REPLACEMENT), 11)
            }
            None => (REPLACEMENT, 5),
        }
    } else {
        (char::from_u32(unit).unwrap_or(REPLACEMENT), 5)
    }
}

// The character that the text behind a backslash stands for, and in how many bytes.
#[tactic(auto, unfolding(crate::specs::StringReading::escape))]
fn escape(text: &[u8]) -> Option<(char, usize)>
    ensures value { result ≡ escape text.now }
    ensures within { IfSome result (λ e. (1 ≤ e.1) × (e.1 ≤ length text.now)) }
{
    let first = byte_at(text, 0);
    if first == b'u' {
        let digits = after(text, 1);
        let unit = code_unit(digits)?;
        Some(unit_escape(digits, unit))
    } else {
        let character = short_escape(first)?;
        Some((character, 1))
    }
}

/// What follows the closing quote.
pub(crate) fn pass_text(text: &[u8]) -> Option<&[u8]>
    ensures value { option_map (λ r. r.now) result ≡ rest_of (text_at 0 text.now) }
    ensures within { IfSome result (λ r. length r.now ≤ length text.now) }
{
    let mut rest = text;
    loop {
        let stop = after(rest, plain_len(rest));
        match byte_at(stop, 0) {
            b'"' => return Some(after(stop, 1)),
            b'\\' => {
                let code = after(stop, 1);
                let Some((_, count)) = escape(code) else {
                    return None;
                };
                rest = after(code, count);
            }
            _ => return None,
        }
    }
}

fn append(made: &mut Vec<u8>, c: char) -> Result<(), AllocError>
    ensures { OnOk result (made.new.items ≡ made.old.items ++ encode_utf8 c) }
{
    let mut buffer = [0; 4];
    made.extend_from_slice(c.encode_utf8(&mut buffer).as_bytes())
}

// The text up to the closing quote, with its escapes replaced, and what follows that.
#[inline(never)]
fn unescape<'a>(alloc: Global, text: &'a [u8]) -> Result<(Vec<u8>, &'a [u8]), JsonFault>
    ensures value { Finds (λ r. (r.0.items, r.1.now)) (text_at 0 text.now) result }
    ensures within { IfOk result (λ r. length r.1.now ≤ length text.now) }
{
    let mut made = Vec::new(alloc);
    let mut rest = text;
    loop {
        let count = plain_len(rest);
        made.extend_from_slice(rest.split_at(count).0)?;
        let stop = after(rest, count);
        match byte_at(stop, 0) {
            b'"' => return Ok((made, after(stop, 1))),
            b'\\' => {
                let code = after(stop, 1);
                let Some((c, len)) = escape(code) else {
                    return Err(JsonFault::Text);
                };
                append(&mut made, c)?;
                rest = after(code, len);
            }
            _ => return Err(JsonFault::Text),
        }
    }
}

/// The text up to the closing quote, and what follows that. A text without escapes is not copied.
#[inline(always)]
pub(crate) fn read_text<'a>(
    arena: &'a Arena,
    text: &'a [u8],
) -> Result<(JsonText<'a>, &'a [u8]), JsonFault>
    ensures value { Finds (λ r. (text_view r.0, r.1.now)) (text_at 0 text.now) result }
    ensures slices { IfOk result (λ r. AreTextsBefore (r.0 ∷ []) (34 ∷ text.now) r.1.now) }
    ensures within { IfOk result (λ r. length r.1.now ≤ length text.now) }
{
    let count = plain_len(text);
    let stop = after(text, count);
    if byte_at(stop, 0) == b'"' {
        Ok((JsonText::Plain(text.split_at(count).0), after(stop, 1)))
    } else {
        let (made, rest) = unescape(arena.alloc(), text)?;
        Ok((JsonText::Made(arena.keep(made.as_slice())?), rest))
    }
}
