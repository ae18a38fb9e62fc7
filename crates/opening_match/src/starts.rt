//! Where openings begin, in two orders.

ghost use Rattle.std.specs.Prelude.{IfOk};
ghost use Rattle.opening_match.specs.Entries.{HaveVertices};
ghost use Rattle.opening_match.specs.Starts.{AreStarts};

use crate::entries::{Entry, sorted_entries};
use crate::trees::{Tree, tree_of};
use std::alloc::Global;
use venue_types::{OpeningRow, OutOfMemory};

/// Where openings begin: on each level from west to east, and as a tree.
#[derive(Drop)]
pub(crate) struct Starts {
    pub entries: Vec<Entry>,
    pub tree: Tree,
}

/// Where these openings begin. Takes n log n time.
pub(crate) fn starts_of(alloc: Global, openings: &[OpeningRow]) -> Result<Starts, OutOfMemory>
    requires { HaveVertices openings.now }
    ensures { IfOk result (λ starts. AreStarts openings.now starts) }
{
    let entries = sorted_entries(alloc, openings)?;
    let tree = tree_of(alloc, entries.as_slice())?;
    Ok(Starts { entries, tree })
}
