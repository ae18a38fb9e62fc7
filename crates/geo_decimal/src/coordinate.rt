//! The reading of a coordinate.

ghost use Rattle.std.specs.Prelude.{◌≡◌, IfOk, IsErrOf, ◌↔◌, ◌≤◌, ℤ};
ghost use Rattle.geo_decimal.specs.Number.{IsNumber};
ghost use Rattle.geo_decimal.specs.Value.{IsNano, IsWithin, signed};

use crate::digits::LIMIT;
use crate::fault::NumberFault;
use crate::parts::Parts;

/// The value of a JSON number in billionths, rounded to the nearest, ties away from zero: of degrees, nanodegrees.
///
/// Exponents of any length are read. It takes no memory, and its time grows with the token's length alone.
pub fn nano(token: &[u8]) -> Result<i64, NumberFault>
    ensures value { IfOk result (λ n. IsNano token.now n × IsWithin n) }
    ensures form { IsErrOf result NumberFault.Form ↔ ¬ IsNumber token.now }
    ensures size { IsErrOf result NumberFault.Size ↔ ((n : ℤ) × IsNano token.now n × (¬ IsWithin n)) }
{
    let parts = Parts::cut(token);
    if !parts.is_well_formed() {
        return Err(NumberFault::Form);
    }
    match parts.size() {
        Some(size) => Ok(with_sign(parts.minus, size)),
        None => Err(NumberFault::Size),
    }
}

fn with_sign(minus: bool, size: u64) -> i64
    requires { size ≤ LIMIT }
    ensures { result ≡ signed minus size }
{
    if minus { -(size as i64) } else { size as i64 }
}
