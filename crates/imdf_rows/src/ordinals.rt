//! The ordinal of a level.

ghost use Rattle.std.specs.Prelude.{◌≡◌, ◌≢◌, ℤ, pos, ◌*ℤ◌, IfSome, IfNone};
ghost use Rattle.std.specs.Option.{option_copied};
ghost use Rattle.exact_json.specs.Json.{token};
ghost use Rattle.geo_decimal.specs.Value.{IsWithin};
ghost use Rattle.imdf_schema.specs.Values.{seen};
ghost use Rattle.imdf_rows.specs.Fields.{IsWhole, IsOrdinal};

use exact_json::Tree;
use geo_decimal::{nano, one_value_law};

// How many billionths make one.
const UNIT: i64 = 1_000_000_000;

// The whole number of which these are the billionths.
fn whole(nano: i64) -> Option<i16>
    requires { IsWithin nano }
    ensures some { IfSome result (λ n. nano ≡ n *ℤ pos 1000000000) }
    ensures none { IfNone result ((n : ℤ) → nano ≢ n *ℤ pos 1000000000) }
{
    if nano % UNIT == 0 {
        Some((nano / UNIT) as i16)
    } else {
        None
    }
}

// The ordinal that a number's token stands for.
fn token_ordinal(token: &[u8]) -> Option<i16>
    ensures some { IfSome result (IsWhole token.now) }
    ensures none { IfNone result ((n : ℤ) → ¬ IsWhole token.now n) }
{
    one_value_law();
    match nano(token) {
        Ok(nano) => whole(nano),
        Err(_) => None,
    }
}

fn token_of<'a>(value: Option<&'a Tree>) -> Option<&'a [u8]>
    ensures { option_copied result ≡ token (seen value.entry) }
{
    value?.as_number()
}

/// The ordinal that it is: the number, rounded to billionths, is a whole one from -180 to 180, however it is written
/// (`1.0`, `10e-1`, `1.0000000001`).
pub fn ordinal(value: Option<&Tree>) -> Option<i16>
    ensures some { IfSome result (IsOrdinal (seen value.entry)) }
    ensures none { IfNone result ((n : ℤ) → ¬ IsOrdinal (seen value.entry) n) }
{
    match token_of(value) {
        Some(token) => token_ordinal(token),
        None => None,
    }
}

/// The ordinal, 0 where it is none.
pub(crate) fn ordinal_field(value: Option<&Tree>) -> i16
    ensures some { (n : ℤ) → IsOrdinal (seen value.entry) n → result ≡ n }
    ensures none { ((n : ℤ) → ¬ IsOrdinal (seen value.entry) n) → result ≡ pos 0 }
{
    one_value_law();
    match ordinal(value) {
        Some(n) => n,
        None => 0,
    }
}
