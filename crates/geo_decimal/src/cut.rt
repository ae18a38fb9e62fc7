//! The cutting of a token into parts.

ghost use Rattle.std.specs.Prelude.{◌≡◌, ◌≢◌, ◌==◌, ◌++◌, false, IfSome, IfNone, slice_index, position};
ghost use Rattle.std.specs.Option.{option_copied, option_map, option_to_list};
ghost use Rattle.geo_decimal.specs.Number.{IsSign, minus_text, fraction_text, exponent_text, spelling};
ghost use Rattle.geo_decimal.specs.Cutting.{number_of, exponent_of, is_mark, HasNone, IsCut, IsCutExponent};

use crate::parts::{Exponent, Parts};

impl<'a> Parts<'a> {
    /// Cuts a token at its signs, its first `e` and the first point before it.
    pub(crate) fn cut(token: &'a [u8]) -> Self
        ensures text { spelling (number_of result) ≡ token.now }
        ensures cut { IsCut (number_of result) }
    {
        let (minus, unsigned) = cut_minus(token);
        let (front, exponent) = cut_exponent(unsigned);
        let (whole, fraction) = cut_fraction(front);
        Parts {
            minus,
            whole,
            fraction,
            exponent,
        }
    }
}

fn cut_minus(token: &[u8]) -> (bool, &[u8])
    ensures text { minus_text result.0 ++ result.1.now ≡ token.now }
    ensures minus { result.0 ≡ false → slice_index token.now 0 ≢ 45 }
{
    match token {
        [b'-', rest @ ..] => (true, rest),
        _ => (false, token),
    }
}

fn cut_exponent(text: &[u8]) -> (&[u8], Option<Exponent<'_>>)
    ensures text { result.0.now ++ exponent_text (option_map exponent_of result.1) ≡ text.now }
    ensures front { HasNone is_mark result.0.now }
    ensures exponent { IfSome (option_map exponent_of result.1) IsCutExponent }
{
    match mark_place(text) {
        Some(at) => (&text[..at], Some(cut_sign(text[at], &text[at + 1..]))),
        None => (text, None),
    }
}

fn cut_fraction(text: &[u8]) -> (&[u8], Option<&[u8]>)
    ensures text { result.0.now ++ fraction_text (option_copied result.1) ≡ text.now }
    ensures front { HasNone (λ c. c == 46) result.0.now }
{
    match point_place(text) {
        Some(at) => (&text[..at], Some(&text[at + 1..])),
        None => (text, None),
    }
}

fn cut_sign(mark: u8, text: &[u8]) -> Exponent<'_>
    ensures mark { result.mark ≡ mark }
    ensures text { option_to_list result.sign ++ result.digits.now ≡ text.now }
    ensures sign { IfSome result.sign IsSign }
    ensures unsigned { IfNone result.sign ((slice_index result.digits.now 0 ≢ 45) × (slice_index result.digits.now 0 ≢ 43)) }
{
    match text {
        [sign @ (b'-' | b'+'), digits @ ..] => Exponent {
            mark,
            sign: Some(*sign),
            digits,
        },
        _ => Exponent {
            mark,
            sign: None,
            digits: text,
        },
    }
}

fn mark_place(text: &[u8]) -> Option<usize>
    ensures { result ≡ position is_mark text.now }
{
    text.iter().position(|byte| *byte == b'e' || *byte == b'E')
}

fn point_place(text: &[u8]) -> Option<usize>
    ensures { result ≡ position (λ c. c == 46) text.now }
{
    text.iter().position(|byte| *byte == b'.')
}
