//! Shapes made ready for many questions, row by row.

ghost use Rattle.std.specs.Prelude.{IfOk, map};
ghost use Rattle.contain_rules.specs.Banding.{AreCloseShapes, AreBanded};

use feature_rows::HasShape;
use plane_trees::Bands;
use std::alloc::Global;
use venue_types::OutOfMemory;

/// The rows' shapes made ready, in their order.
pub(crate) fn bands_of<'a, R: HasShape>(
    alloc: Global,
    rows: &'a [R],
) -> Result<Vec<Bands<'a>>, OutOfMemory>
    requires { AreCloseShapes (map R.shape_of rows.now) }
    ensures { IfOk result (λ list. AreBanded (map R.shape_of rows.now) list.items) }
{
    let mut list = Vec::new(alloc);
    for row in rows {
        list.push(Bands::of(alloc, row.shape())?)?;
    }
    Ok(list)
}
