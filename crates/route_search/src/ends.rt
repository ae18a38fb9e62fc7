//! The ends of a search.

ghost use Rattle.std.specs.Prelude.{◌≡◌, ◌==◌, ℕ, Bool, false, slice_index_or};

/// Which nodes a search is for.
pub trait Ends {
    ghost ends: { Self → ℕ → Bool };

    /// Whether the node is one of them.
    fn is_end(&self, node: u32) -> bool
        ensures { result ≡ ends self.now node };
}

/// One node.
#[derive(Clone, Copy, Debug)]
pub struct OneEnd {
    pub node: u32,
}

impl Ends for OneEnd {
    ghost ends = { λ one n. n == one.node };

    fn is_end(&self, node: u32) -> bool {
        node == self.node
    }
}

/// The nodes that are flagged, an item for each node by its number; a number without an item is no end.
#[derive(Clone, Copy, Debug)]
pub struct FlaggedEnds<'a> {
    pub flags: &'a [bool],
}

impl<'a> Ends for FlaggedEnds<'a> {
    ghost ends = { λ flagged n. slice_index_or flagged.flags.now n false };

    fn is_end(&self, node: u32) -> bool {
        match self.flags.get(node as usize) {
            Some(flag) => *flag,
            None => false,
        }
    }
}
