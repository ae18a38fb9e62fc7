//! The body of each reply.

ghost use Rattle.std.specs.Prelude.{◌≡◌, OnOk, take};
ghost use Rattle.wire_replies.specs.Bodies as bodies;
ghost use Rattle.wire_replies.specs.Tokens.{Adds, data_tokens};

use crate::labels::Name;
use crate::written::{Written, begin, end, member, member_where_there, write_items};
use json::Writer;
use std::alloc::{AllocError, Global};
use venue_types::{
    ClosureDone, ClosuresTold, FeatureId, Finding, List, PlaceRow, PlaceTold, Report, Which,
};

// How many findings are told at most.
const SHOWN: usize = 500;

/// A refusal that is told by its name alone.
pub(crate) fn write_error(alloc: Global, out: &mut Writer, name: &str) -> Result<(), AllocError>
    ensures { OnOk result (Adds (data_tokens (bodies.error_data name.now)) out.old out.new) }
{
    begin(out)?;
    member(alloc, out, "error", &name)?;
    end(out)
}

pub(crate) fn write_version(
    alloc: Global,
    out: &mut Writer,
    version: u32,
    closed: u32,
    places: u32,
) -> Result<(), AllocError>
    ensures { OnOk result (Adds (data_tokens (bodies.version_data version closed places)) out.old out.new) }
{
    begin(out)?;
    member(alloc, out, "closed", &closed)?;
    member(alloc, out, "places", &places)?;
    member(alloc, out, "version", &version)?;
    end(out)
}

pub(crate) fn write_places(
    alloc: Global,
    out: &mut Writer,
    version: u32,
    rows: &List<PlaceRow>,
) -> Result<(), AllocError>
    ensures { OnOk result (Adds (data_tokens (bodies.places_data version rows.now)) out.old out.new) }
{
    begin(out)?;
    member(alloc, out, "places", rows)?;
    member(alloc, out, "version", &version)?;
    end(out)
}

pub(crate) fn write_place(
    alloc: Global,
    out: &mut Writer,
    told: &PlaceTold,
) -> Result<(), AllocError>
    ensures { OnOk result (Adds (data_tokens (bodies.place_data told.now)) out.old out.new) }
{
    begin(out)?;
    member(alloc, out, "closed", &told.closed)?;
    member(alloc, out, "id", &told.row.id)?;
    member(alloc, out, "kind", &told.row.class)?;
    member(alloc, out, "name", &Name(&told.row.name))?;
    member(alloc, out, "ordinal", &told.row.ordinal)?;
    member_where_there(alloc, out, "profiles", &told.profiles)?;
    member(alloc, out, "version", &told.number)?;
    end(out)
}

pub(crate) fn write_closures(
    alloc: Global,
    out: &mut Writer,
    told: &ClosuresTold,
) -> Result<(), AllocError>
    ensures { OnOk result (Adds (data_tokens (bodies.closures_data told.now)) out.old out.new) }
{
    begin(out)?;
    member(alloc, out, "closures", &told.closed)?;
    member(alloc, out, "version", &told.number)?;
    end(out)
}

pub(crate) fn write_closure(
    alloc: Global,
    out: &mut Writer,
    done: &ClosureDone,
) -> Result<(), AllocError>
    ensures { OnOk result (Adds (data_tokens (bodies.closure_data done.now)) out.old out.new) }
{
    begin(out)?;
    member(alloc, out, "changed", &done.changed)?;
    member(alloc, out, "closed", &done.closed)?;
    member(alloc, out, "feature", &done.feature)?;
    member_where_there(alloc, out, "profiles", &done.profiles)?;
    member(alloc, out, "version", &done.number)?;
    end(out)
}

pub(crate) fn write_published(
    alloc: Global,
    out: &mut Writer,
    version: u32,
    dropped: &List<FeatureId>,
) -> Result<(), AllocError>
    ensures { OnOk result (Adds (data_tokens (bodies.published_data version dropped.now)) out.old out.new) }
{
    begin(out)?;
    member(alloc, out, "dropped", dropped)?;
    member(alloc, out, "version", &version)?;
    end(out)
}

pub(crate) fn write_ahead(
    alloc: Global,
    out: &mut Writer,
    since: u32,
    version: u32,
) -> Result<(), AllocError>
    ensures { OnOk result (Adds (data_tokens (bodies.ahead_data since version)) out.old out.new) }
{
    begin(out)?;
    member(alloc, out, "error", &"version_ahead")?;
    member(alloc, out, "since", &since)?;
    member(alloc, out, "version", &version)?;
    end(out)
}

pub(crate) fn write_no_place(
    alloc: Global,
    out: &mut Writer,
    which: Which,
) -> Result<(), AllocError>
    ensures { OnOk result (Adds (data_tokens (bodies.no_place_data which)) out.old out.new) }
{
    begin(out)?;
    member(alloc, out, "error", &"no_such_place")?;
    member(alloc, out, "which", &which)?;
    end(out)
}

// As many of the first findings as are told.
fn first_findings(findings: &[Finding]) -> &[Finding]
    ensures { result.now ≡ take 500 findings.now }
{
    &findings[..SHOWN.min(findings.len())]
}

// The findings of a report that are told.
#[derive(Clone, Copy)]
struct Told<'r>(&'r List<Finding>);

impl Written for Told<'_> {
    ghost use Rattle.std.specs.Prelude.{take};
    ghost use Rattle.wire_replies.specs.Bodies.{list_data, finding_data};

    ghost shown = { λ told. list_data finding_data (take 500 told.0.now) };

    fn write_to(&self, alloc: Global, out: &mut Writer) -> Result<(), AllocError> {
        write_items(alloc, out, first_findings(self.0.as_slice()))
    }
}

pub(crate) fn write_rejected(
    alloc: Global,
    out: &mut Writer,
    report: &Report,
) -> Result<(), AllocError>
    ensures { OnOk result (Adds (data_tokens (bodies.rejected_data report.now)) out.old out.new) }
{
    begin(out)?;
    member(alloc, out, "error", &"rejected")?;
    member(alloc, out, "findings", &Told(&report.first))?;
    member(alloc, out, "total", &report.total)?;
    end(out)
}

pub(crate) fn write_full(alloc: Global, out: &mut Writer, version: u32) -> Result<(), AllocError>
    ensures { OnOk result (Adds (data_tokens (bodies.full_data version)) out.old out.new) }
{
    begin(out)?;
    member(alloc, out, "error", &"history_full")?;
    member(alloc, out, "version", &version)?;
    end(out)
}
