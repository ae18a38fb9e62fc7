//! The rows of lists: steps, potentials, nodes, legs, closed features, places and findings.

ghost use Rattle.std.specs.Prelude.{OnOk};
ghost use Rattle.wire_replies.specs.Bodies.{closed_for_data, corner_data};
ghost use Rattle.wire_replies.specs.Tokens.{Adds, data_tokens};

use crate::labels::Name;
use crate::words::{FileNumber, RuleNumber};
use crate::written::{Written, begin, end, member, member_where_there};
use json::Writer;
use std::alloc::{AllocError, Global};
use venue_types::{
    ClosedRow, FeatureId, Finding, Leg, List, Mark, NodeName, PlaceRow, StepRow, Text,
};

impl Written for StepRow {
    ghost use Rattle.wire_replies.specs.Bodies.{step_data};

    ghost shown = { step_data };

    fn write_to(&self, alloc: Global, out: &mut Writer) -> Result<(), AllocError> {
        begin(out)?;
        member_where_there(alloc, out, "corner", &self.corner)?;
        member(alloc, out, "cost", &self.cost)?;
        member(alloc, out, "kind", &self.kind)?;
        member(alloc, out, "to", &self.to)?;
        member(alloc, out, "via", &self.via)?;
        end(out)
    }
}

impl Written for Mark {
    ghost use Rattle.wire_replies.specs.Bodies.{mark_data};

    ghost shown = { mark_data };

    fn write_to(&self, alloc: Global, out: &mut Writer) -> Result<(), AllocError> {
        begin(out)?;
        member_where_there(alloc, out, "corner", &self.corner)?;
        member(alloc, out, "node", &self.node)?;
        member(alloc, out, "value", &self.value)?;
        end(out)
    }
}

// Writes a corner by its number and its unit.
fn write_corner(
    alloc: Global,
    out: &mut Writer,
    corner: u32,
    id: FeatureId,
) -> Result<(), AllocError>
    ensures { OnOk result (Adds (data_tokens (corner_data corner id)) out.old out.new) }
{
    begin(out)?;
    member(alloc, out, "corner", &corner)?;
    member(alloc, out, "node", &id)?;
    end(out)
}

impl Written for NodeName {
    ghost use Rattle.wire_replies.specs.Bodies.{node_data};

    ghost shown = { node_data };

    fn write_to(&self, alloc: Global, out: &mut Writer) -> Result<(), AllocError> {
        match self.corner {
            None => self.id.write_to(alloc, out),
            Some(corner) => write_corner(alloc, out, corner, self.id),
        }
    }
}

impl Written for Leg {
    ghost use Rattle.wire_replies.specs.Bodies.{leg_data};

    ghost shown = { leg_data };

    fn write_to(&self, alloc: Global, out: &mut Writer) -> Result<(), AllocError> {
        begin(out)?;
        member(alloc, out, "cost", &self.cost)?;
        member(alloc, out, "steps", &self.steps)?;
        end(out)
    }
}

// Writes a feature with the names of the profiles for which it is closed.
fn write_closed_for(
    alloc: Global,
    out: &mut Writer,
    id: FeatureId,
    names: &List<Text>,
) -> Result<(), AllocError>
    ensures { OnOk result (Adds (data_tokens (closed_for_data id names.now)) out.old out.new) }
{
    begin(out)?;
    member(alloc, out, "feature", &id)?;
    member(alloc, out, "profiles", names)?;
    end(out)
}

impl Written for ClosedRow {
    ghost use Rattle.wire_replies.specs.Bodies.{closed_data};

    ghost shown = { closed_data };

    fn write_to(&self, alloc: Global, out: &mut Writer) -> Result<(), AllocError> {
        match &self.profiles {
            None => self.id.write_to(alloc, out),
            Some(names) => write_closed_for(alloc, out, self.id, names),
        }
    }
}

impl Written for Finding {
    ghost use Rattle.wire_replies.specs.Bodies.{finding_data};

    ghost shown = { finding_data };

    fn write_to(&self, alloc: Global, out: &mut Writer) -> Result<(), AllocError> {
        begin(out)?;
        member(alloc, out, "file", &FileNumber(self.file))?;
        member(alloc, out, "index", &self.index)?;
        member(alloc, out, "member", &self.member)?;
        member(alloc, out, "rule", &RuleNumber(self.rule))?;
        end(out)
    }
}

impl Written for PlaceRow {
    ghost use Rattle.wire_replies.specs.Bodies.{row_data};

    ghost shown = { row_data };

    fn write_to(&self, alloc: Global, out: &mut Writer) -> Result<(), AllocError> {
        begin(out)?;
        member(alloc, out, "id", &self.id)?;
        member(alloc, out, "kind", &self.class)?;
        member(alloc, out, "name", &Name(&self.name))?;
        member(alloc, out, "ordinal", &self.ordinal)?;
        end(out)
    }
}
