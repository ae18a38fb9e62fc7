//! Laws of a number's value.

ghost use Rattle.geo_decimal.specs.Laws.{RoundedIsNearest, HasValue, HasOneValue};
ghost use Rattle.geo_decimal.specs.Text.{ReadsBack};

/// The two cases of the definition of a value's size are one: the nearest whole number, ties away from zero.
pub fn rounding_law()
    ensures { RoundedIsNearest }
{}

/// Every number has a value.
pub fn value_law()
    ensures { HasValue }
{}

/// No token has two values.
pub fn one_value_law()
    ensures { HasOneValue }
{}

/// A number of nanodegrees that is written with its sign, its whole degrees, a point and nine digits has its own value:
/// with `one_value_law` and the clauses of `nano`, it is read back.
pub fn reads_back_law()
    ensures { ReadsBack }
{}
