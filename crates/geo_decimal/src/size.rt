//! The size of a number in billionths.

ghost use Rattle.std.specs.Prelude.{◌≡◌, ℕ, ◌+◌, ◌-◌, ◌^◌, ◌<◌, ◌≤◌, min, length, IfSome, IfNone, MatchOption};
ghost use Rattle.std.specs.Option.{option_map};
ghost use Rattle.geo_decimal.specs.Number.{IsExponent, IsWellFormed};
ghost use Rattle.geo_decimal.specs.Value.{fraction_digits, exponent_up, exponent_down, IsSize};
ghost use Rattle.geo_decimal.specs.Cutting.{number_of, exponent_of};

use crate::digits::{LIMIT, capped_value, rounded};
use crate::parts::{Exponent, Parts};

impl<'a> Parts<'a> {
    /// The number without its sign, in billionths and rounded, if it is not past the limit.
    pub(crate) fn size(&self) -> Option<u64>
        requires well_formed { IsWellFormed (number_of self.now) }
        requires short { length self.now.whole.now + length (fraction_digits (number_of self.now)) < 2 ^ 63 }
        ensures found { IfSome result (λ q. IsSize (number_of self.now) q × q ≤ LIMIT) }
        ensures none { IfNone result ((q : ℕ) × IsSize (number_of self.now) q × LIMIT < q) }
    {
        match kept_digits(self.whole.len(), self.exponent) {
            Some(kept) => rounded(self.whole, self.fraction_digits(), kept),
            None => Some(0),
        }
    }

    fn fraction_digits(&self) -> &'a [u8]
        ensures { result.now ≡ fraction_digits (number_of self.now) }
    {
        match self.fraction {
            Some(digits) => digits,
            None => &[],
        }
    }
}

// How many digits, from the first on, stand at or above the billionths. `None` where a place is left even before the first.
fn kept_digits(whole_len: usize, exponent: Option<Exponent<'_>>) -> Option<usize>
    requires exponent { IfSome (option_map exponent_of exponent) IsExponent }
    requires whole_len { whole_len < 2 ^ 63 }
    ensures { let up = exponent_up (option_map exponent_of exponent.entry) in
        let down = exponent_down (option_map exponent_of exponent.entry) in
        let kept = whole_len + 9 + up - down in
        MatchOption result (whole_len + 9 < down) (λ k. (down ≤ whole_len + 9) × (k ≡ min kept usize.MAX)) }
{
    let before = whole_len + 9;
    match exponent {
        Some(exponent) => {
            let tens = capped_value(exponent.digits);
            if exponent.sign == Some(b'-') {
                before.checked_sub(tens)
            } else {
                Some(before.saturating_add(tens))
            }
        }
        None => Some(before),
    }
}
