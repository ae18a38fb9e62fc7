//! What is read of lists and objects whose closing brackets are still to come.

ghost use Rattle.std.specs.Prelude.{◌≡◌, []};

use crate::tree::{Pair, Tree};
use std::alloc::Global;

/// The items of all lists that are open and the pairs of all objects that are, the outermost's first.
///
/// A list takes its items off when it closes, so that what it keeps has no room to spare.
#[derive(Drop)]
pub(crate) struct Unclosed<'a> {
    pub(crate) trees: Vec<Tree<'a>>,
    pub(crate) pairs: Vec<Pair<'a>>,
}

impl<'a> Unclosed<'a> {
    pub(crate) fn new(alloc: Global) -> Unclosed<'a>
        ensures trees { result.trees.items ≡ [] }
        ensures pairs { result.pairs.items ≡ [] }
    {
        Unclosed {
            trees: Vec::new(alloc),
            pairs: Vec::new(alloc),
        }
    }
}
