//! The bodies that tell a tour, or that there is none.

ghost use Rattle.std.specs.Prelude.{OnOk};
ghost use Rattle.wire_replies.specs.Bodies.{tour_data, no_tour_data};
ghost use Rattle.wire_replies.specs.Tokens.{Adds, data_tokens};

use crate::written::{begin, end, member};
use json::Writer;
use std::alloc::{AllocError, Global};
use venue_types::{NoTourTold, TourTold};

pub(crate) fn write_tour(alloc: Global, out: &mut Writer, told: &TourTold) -> Result<(), AllocError>
    ensures { OnOk result (Adds (data_tokens (tour_data told.now)) out.old out.new) }
{
    begin(out)?;
    member(alloc, out, "cost", &told.cost)?;
    member(alloc, out, "from", &told.from)?;
    member(alloc, out, "legs", &told.legs)?;
    member(alloc, out, "order", &told.order)?;
    member(alloc, out, "profile", &told.profile)?;
    member(alloc, out, "result", &"tour")?;
    member(alloc, out, "to", &told.to)?;
    member(alloc, out, "version", &told.number)?;
    end(out)
}

pub(crate) fn write_no_tour(
    alloc: Global,
    out: &mut Writer,
    told: &NoTourTold,
) -> Result<(), AllocError>
    ensures { OnOk result (Adds (data_tokens (no_tour_data told.now)) out.old out.new) }
{
    begin(out)?;
    member(alloc, out, "from", &told.from)?;
    member(alloc, out, "profile", &told.profile)?;
    member(alloc, out, "result", &"none")?;
    member(alloc, out, "stops", &told.stops)?;
    member(alloc, out, "to", &told.to)?;
    member(alloc, out, "version", &told.number)?;
    end(out)
}
