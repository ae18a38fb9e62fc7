//! The targets of which a cost is known, the nearest first.

ghost use Rattle.std.specs.Prelude.{◌≡◌, ◌++◌, IfOk, IsPermutation, IsSorted, OnOk, filter_map, option_to_list};
ghost use Rattle.std.specs.List.Sorted.{IsStrictlyIncreasing};
ghost use Rattle.route_search.specs.Reaches.{cost_of};
ghost use Rattle.nearest_place.specs.Entries.{AreFirstEntries, entry_at, entry_cmp};

use route_search::Reach;
use std::alloc::Global;
use venue_types::OutOfMemory;

/// A node, and the least cost of a walk to it. Entries are in the order of costs, then of nodes.
#[derive(Clone, Copy, Debug, PartialEq, Eq, PartialOrd, Ord)]
pub(crate) struct Entry {
    pub cost: u64,
    pub node: u32,
}

// The entry of a node, where its cost is known.
#[tactic(auto, unfolding(crate::specs::Entries::entry_at))]
fn entry_of(reach: &Reach, node: u32) -> Option<Entry>
    ensures { result ≡ entry_at (cost_of reach.now) node }
{
    match reach.cost(node) {
        Some(cost) => Some(Entry { cost, node }),
        None => None,
    }
}

// Adds the entry, if there is one.
fn add(entries: &mut Vec<Entry>, entry: Option<Entry>) -> Result<(), OutOfMemory>
    ensures { OnOk result (entries.new.items ≡ entries.old.items ++ option_to_list entry) }
{
    if let Some(entry) = entry {
        entries.push(entry)?;
    }
    Ok(())
}

// The entries of the targets, in their order.
fn entries_of(alloc: Global, reach: &Reach, targets: &[u32]) -> Result<Vec<Entry>, OutOfMemory>
    ensures { IfOk result (λ entries. entries.items ≡ filter_map (entry_at (cost_of reach.now)) targets.now) }
{
    let mut entries = Vec::new(alloc);
    for node in targets {
        add(&mut entries, entry_of(reach, *node))?;
    }
    Ok(entries)
}

// The same, by cost, then by node. Takes n log n time.
fn sort(entries: &mut Vec<Entry>)
    ensures same { IsPermutation entries.old.items entries.new.items }
    ensures sorted { IsSorted entry_cmp entries.new.items }
{
    entries.sort_unstable();
}

/// The entries of the nearest targets, up to the limit. Takes n log n time for n targets.
pub(crate) fn first_entries(
    alloc: Global,
    reach: &Reach,
    targets: &[u32],
    limit: u8,
) -> Result<Vec<Entry>, OutOfMemory>
    requires { IsStrictlyIncreasing targets.now }
    ensures { IfOk result (λ entries. AreFirstEntries (cost_of reach.now) targets.now limit entries.items) }
{
    let mut entries = entries_of(alloc, reach, targets)?;
    sort(&mut entries);
    entries.truncate(limit as usize);
    Ok(entries)
}
