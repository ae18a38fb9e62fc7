//! The links by relationships, by their start.

ghost use Rattle.std.specs.Prelude.{◌≡◌, ◌<◌, ◌≤◌, ◌∷◌, ◌++◌, [], IfOk, OnOk, All, length, replicate, slice_index_or, slice_set, vec_len};
ghost use Rattle.venue_types.specs.declared.link.Link.{Link as ALink};
ghost use Rattle.link_graph.specs.Making.{AreLeaving};

use std::alloc::Global;
use venue_types::{Link, List, OutOfMemory};

// So many empty lists.
fn empty_lists(alloc: Global, count: u32) -> Result<Vec<List<u32>>, OutOfMemory>
    ensures { IfOk result (λ lists. lists.items ≡ replicate count []) }
{
    let mut lists = Vec::with_capacity(alloc, count as usize)?;
    for _ in 0..count {
        lists.push(List::new(alloc))?;
    }
    Ok(lists)
}

// Adds the number at the end of the list of the node.
fn add_at(lists: &mut Vec<List<u32>>, node: u32, number: u32) -> Result<(), OutOfMemory>
    requires { node < vec_len lists.old }
    ensures { OnOk result (lists.new.items ≡ slice_set lists.old.items node (slice_index_or lists.old.items node [] ++ number ∷ [])) }
{
    lists[node as usize].push(number)?;
    Ok(())
}

/// For each of so many nodes the numbers of those of the links that start there, rising.
pub(crate) fn leaving_of(
    alloc: Global,
    count: u32,
    links: &[Link],
) -> Result<Vec<List<u32>>, OutOfMemory>
    requires few { length links.now ≤ 12800000 }
    requires within { All (λ (link : ALink). link.from < count) links.now }
    ensures { IfOk result (λ leaving. AreLeaving links.now count leaving.items) }
{
    let mut leaving = empty_lists(alloc, count)?;
    for (k, link) in links.iter().enumerate() {
        add_at(&mut leaving, link.from, k as u32)?;
    }
    Ok(leaving)
}
