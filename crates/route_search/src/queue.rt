//! Entering and leaving the frontier.

ghost use Rattle.std.specs.Prelude.{◌≡◌, ℕ, ◌<◌, IfOk, OnOk, IfSome, IfNone};
ghost use Rattle.route_search.specs.Waiting.{Waits, waiting, IsPushed, IsPopped};

use crate::frontier::Frontier;
use std::alloc::{AllocError, Global};
use std::cmp::Reverse;
use std::collections::BinaryHeap;

impl Frontier {
    pub(crate) fn new(alloc: Global) -> Frontier
        ensures empty { (c n : ℕ) → Waits result c n → ⊥ }
        ensures len { waiting result ≡ 0 }
    {
        Frontier {
            heap: BinaryHeap::new(alloc),
        }
    }

    pub(crate) fn push(&mut self, cost: u64, node: u32) -> Result<(), AllocError>
        ensures { OnOk result (IsPushed self.old self.new cost node) }
    {
        self.heap.push(Reverse((cost, node)))?;
        Ok(())
    }

    pub(crate) fn pop(&mut self) -> Option<(u64, u32)>
        ensures found { IfSome result (λ x. IsPopped self.old self.new x.0 x.1) }
        ensures none { IfNone result ((c n : ℕ) → Waits self.old c n → ⊥) }
    {
        let waiting = self.heap.as_slice();
        if waiting.is_empty() {
            return None;
        }
        match self.heap.pop() {
            Some(least) => Some(least.0),
            None => None,
        }
    }
}
