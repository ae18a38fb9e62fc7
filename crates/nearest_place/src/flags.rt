//! The targets, as a search asks for them.

ghost use Rattle.std.specs.Prelude.{◌<◌, All, IfOk};
ghost use Rattle.nearest_place.specs.Entries.{AreFlags};

use std::alloc::Global;
use venue_types::OutOfMemory;

/// A flag for each of so many nodes, set for the targets.
pub(crate) fn flags_of(alloc: Global, nodes: u32, targets: &[u32]) -> Result<Vec<bool>, OutOfMemory>
    requires { All (λ n. n < nodes) targets.now }
    ensures { IfOk result (λ flags. AreFlags targets.now flags.items) }
{
    let mut flags = vec![in alloc; false; nodes as usize]?;
    for node in targets {
        flags[*node as usize] = true;
    }
    Ok(flags)
}
