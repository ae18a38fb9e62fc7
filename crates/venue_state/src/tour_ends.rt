//! The nodes to which ways are sought.

ghost use Rattle.std.specs.Prelude.{◌≡◌, ◌<◌, ◌≤◌, length, All, IfOk};
ghost use Rattle.venue_state.specs.Touring.{AreFlagsOf, IsCountOf};

use std::alloc::Global;
use venue_types::OutOfMemory;

/// How many different nodes there are among these.
pub(crate) fn count_of(alloc: Global, nodes: &[u32]) -> Result<u32, OutOfMemory>
    requires { length nodes.now ≤ 9 }
    ensures { IfOk result (IsCountOf nodes.now) }
{
    let mut different = Vec::from_slice(alloc, nodes)?;
    different.sort_unstable();
    different.dedup();
    Ok(different.len() as u32)
}

/// A flag for each node of a graph with so many, by its number: whether it is one of these.
pub(crate) fn flags_of(alloc: Global, all: u32, nodes: &[u32]) -> Result<Vec<bool>, OutOfMemory>
    requires { All (λ n. n < all) nodes.now }
    ensures { IfOk result (λ flags. AreFlagsOf nodes.now flags.items) }
{
    let mut flags = vec![in alloc; false; all as usize]?;
    for node in nodes {
        flags[*node as usize] = true;
    }
    Ok(flags)
}
