//! The bodies that tell a walk, or that there is none.

ghost use Rattle.std.specs.Prelude.{OnOk};
ghost use Rattle.wire_replies.specs.Bodies.{route_data, no_route_data};
ghost use Rattle.wire_replies.specs.Tokens.{Adds, data_tokens};

use crate::written::{begin, end, member, member_where_there};
use json::Writer;
use std::alloc::{AllocError, Global};
use venue_types::{FeatureId, List, Mark, NodeName, StepRow, Text};

/// What was asked, and of which version.
#[derive(Clone, Copy)]
pub(crate) struct Asked<'r> {
    pub(crate) version: u32,
    pub(crate) from: FeatureId,
    pub(crate) to: FeatureId,
    pub(crate) profile: &'r Text,
}

pub(crate) fn write_route(
    alloc: Global,
    out: &mut Writer,
    asked: &Asked<'_>,
    start: FeatureId,
    cost: u64,
    steps: &List<StepRow>,
    potentials: &Option<List<Mark>>,
) -> Result<(), AllocError>
    ensures { OnOk result (Adds (data_tokens (route_data asked.now.version asked.now.from asked.now.to
        asked.now.profile.now start cost steps.now potentials.now)) out.old out.new) }
{
    begin(out)?;
    member(alloc, out, "cost", &cost)?;
    member(alloc, out, "from", &asked.from)?;
    member_where_there(alloc, out, "potentials", potentials)?;
    member(alloc, out, "profile", asked.profile)?;
    member(alloc, out, "result", &"route")?;
    member(alloc, out, "start", &start)?;
    member(alloc, out, "steps", steps)?;
    member(alloc, out, "to", &asked.to)?;
    member(alloc, out, "version", &asked.version)?;
    end(out)
}

pub(crate) fn write_no_route(
    alloc: Global,
    out: &mut Writer,
    asked: &Asked<'_>,
    reached: &Option<List<NodeName>>,
) -> Result<(), AllocError>
    ensures { OnOk result (Adds (data_tokens (no_route_data asked.now.version asked.now.from asked.now.to
        asked.now.profile.now reached.now)) out.old out.new) }
{
    begin(out)?;
    member(alloc, out, "from", &asked.from)?;
    member(alloc, out, "profile", asked.profile)?;
    member_where_there(alloc, out, "reached", reached)?;
    member(alloc, out, "result", &"none")?;
    member(alloc, out, "to", &asked.to)?;
    member(alloc, out, "version", &asked.version)?;
    end(out)
}
