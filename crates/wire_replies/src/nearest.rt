//! The body that tells the nearest amenities of a category.

ghost use Rattle.std.specs.Prelude.{OnOk};
ghost use Rattle.wire_replies.specs.Bodies.{nearest_data};
ghost use Rattle.wire_replies.specs.Tokens.{Adds, data_tokens};

use crate::written::{Written, begin, end, member, member_where_there};
use json::Writer;
use std::alloc::{AllocError, Global};
use venue_types::{NearRow, NearTold};

impl Written for NearRow {
    ghost use Rattle.wire_replies.specs.Bodies.{near_row_data};

    ghost shown = { near_row_data };

    fn write_to(&self, alloc: Global, out: &mut Writer) -> Result<(), AllocError> {
        begin(out)?;
        member(alloc, out, "amenity", &self.id)?;
        member(alloc, out, "cost", &self.cost)?;
        member(alloc, out, "steps", &self.steps)?;
        end(out)
    }
}

pub(crate) fn write_nearest(
    alloc: Global,
    out: &mut Writer,
    told: &NearTold,
) -> Result<(), AllocError>
    ensures { OnOk result (Adds (data_tokens (nearest_data told.now)) out.old out.new) }
{
    begin(out)?;
    member(alloc, out, "category", &told.category)?;
    member(alloc, out, "from", &told.from)?;
    member(alloc, out, "places", &told.places)?;
    member_where_there(alloc, out, "potentials", &told.potentials)?;
    member(alloc, out, "profile", &told.profile)?;
    member_where_there(alloc, out, "reached", &told.reached)?;
    member(alloc, out, "start", &told.start)?;
    member(alloc, out, "version", &told.number)?;
    end(out)
}
