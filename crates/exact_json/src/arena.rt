//! The memory that a tree lies in.

ghost use Rattle.std.specs.Prelude.{◌≡◌, ◌≤◌, length, take, drop, vec_len, IfOk, OnOk};

use bumpalo::Bump;
use std::alloc::{AllocError, Global};

/// Memory for the lists, the objects and the made texts of trees, which are let go together with it.
#[derive(Drop)]
pub struct Arena {
    alloc: Global,
    bump: Bump,
}

impl Arena {
    /// An arena with nothing in it. It takes its first memory for the first list, object or text.
    pub fn new(alloc: Global) -> Arena {
        Arena {
            alloc,
            bump: Bump::new(alloc),
        }
    }

    /// For what is let go before a tree is.
    pub(crate) fn alloc(&self) -> Global {
        self.alloc
    }

    /// A copy of what stands on a stack from `start` on, which is taken off the stack.
    pub(crate) fn close<'a, T: Copy>(
        &'a self,
        stack: &mut Vec<T>,
        start: usize,
    ) -> Result<&'a [T], AllocError>
        requires { start ≤ vec_len stack.old }
        ensures taken { IfOk result (λ taken. taken.now ≡ drop start stack.old.items) }
        ensures kept { OnOk result (stack.new.items ≡ take start stack.old.items) }
    {
        let taken = self.bump.try_alloc_slice_copy(&stack[start..])?;
        stack.truncate(start);
        Ok(taken)
    }

    /// A copy of a text.
    pub(crate) fn keep(&self, text: &[u8]) -> Result<&[u8], AllocError>
        ensures { IfOk result (λ kept. kept.now ≡ text.now) }
    {
        Ok(self.bump.try_alloc_slice_copy(text)?)
    }
}
