//! Whether parts are those of a number (RFC 8259, section 6).

ghost use Rattle.std.specs.Prelude.{◌≡◌, IsTrue, ◌↔◌, IfSome};
ghost use Rattle.std.specs.Char.{is_ascii_digit};
ghost use Rattle.std.specs.List.{list_all};
ghost use Rattle.std.specs.Option.{option_copied, option_map};
ghost use Rattle.std.specs.Str.Parse.{IsNumeral};
ghost use Rattle.geo_decimal.specs.Number.{IsWhole, IsExponent, IsWellFormed};
ghost use Rattle.geo_decimal.specs.Cutting.{number_of, exponent_of, IsCut, IsCutExponent};

use crate::parts::{Exponent, Parts};

impl Parts<'_> {
    /// Whether each part is as the grammar asks.
    pub(crate) fn is_well_formed(&self) -> bool
        requires { IsCut (number_of self.now) }
        ensures { IsTrue result ↔ IsWellFormed (number_of self.now) }
    {
        is_whole(self.whole) && is_fraction(self.fraction) && is_exponent(self.exponent)
    }
}

fn is_whole(text: &[u8]) -> bool
    ensures { IsTrue result ↔ IsWhole text.now }
{
    match text {
        [] => false,
        [first, rest @ ..] => {
            if *first == b'0' {
                rest.is_empty()
            } else {
                are_digits(text)
            }
        }
    }
}

fn is_fraction(text: Option<&[u8]>) -> bool
    ensures { IsTrue result ↔ IfSome (option_copied text.entry) (IsNumeral 10) }
{
    match text {
        Some(text) => is_numeral(text),
        None => true,
    }
}

fn is_exponent(exponent: Option<Exponent<'_>>) -> bool
    requires { IfSome (option_map exponent_of exponent) IsCutExponent }
    ensures { IsTrue result ↔ IfSome (option_map exponent_of exponent.entry) IsExponent }
{
    match exponent {
        Some(exponent) => is_numeral(exponent.digits),
        None => true,
    }
}

fn is_numeral(text: &[u8]) -> bool
    ensures { IsTrue result ↔ IsNumeral 10 text.now }
{
    !text.is_empty() && are_digits(text)
}

fn are_digits(text: &[u8]) -> bool
    ensures { result ≡ list_all is_ascii_digit text.now }
{
    text.iter().all(|byte| byte.is_ascii_digit())
}
