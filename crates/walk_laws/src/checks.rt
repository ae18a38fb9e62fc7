//! The two steps of checking a certificate or a cut at a link.

ghost use Rattle.std.specs.Prelude.{◌≤◌, ◌+◌, ◌↔◌, IsTrue, Contains};
ghost use Rattle.std.specs.List.Sorted.{IsStrictlyIncreasing};

/// Whether the potential at a link's end is above that at its start by no more than the link costs.
pub fn rises_within(start: u64, end: u64, cost: u32) -> bool
    ensures { IsTrue result ↔ (end ≤ start + cost) }
{
    end.saturating_sub(start) <= u64::from(cost)
}

/// Whether a node is among nodes that ascend. The time is logarithmic.
pub fn has_node(nodes: &[u32], node: u32) -> bool
    requires { IsStrictlyIncreasing nodes.now }
    ensures { IsTrue result ↔ Contains nodes.now node }
{
    nodes.binary_search(&node).is_ok()
}
