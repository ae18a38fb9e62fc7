//! Lists that lie in one vector.

ghost use Rattle.std.specs.Prelude.{◌≡◌, ◌<◌, [], ◌∷◌, ◌++◌, length, slice_get, slice_index_or, Some, OnOk};

use std::alloc::Global;
use std::marker::Model;
use venue_types::OutOfMemory;

// Where a list starts, and where it ends.
#[derive(Clone, Copy, Debug, PartialEq, Eq)]
struct Span {
    start: usize,
    end: usize,
}

/// Lists in one vector, one after another, and where each starts and ends.
#[derive(Drop)]
pub(crate) struct Lists<T> {
    items: Vec<T>,
    spans: Vec<Span>,
}

impl<T> Model for Lists<T> {
    ghost use Rattle.std.specs.Prelude.{List, map};
    ghost use Rattle.venue_nodes.specs.Spans.{within, AreSpans};

    ghost Value = { List (List T) };

    ghost view = { λ a. map (within a.items.items) a.spans.items };

    ghost invariant = { λ a. AreSpans a.items.items a.spans.items };
}

impl<T> Lists<T> {
    /// No lists, which takes no memory.
    pub(crate) fn new(alloc: Global) -> Lists<T>
        ensures { result ≡ [] }
    {
        Lists {
            items: Vec::new(alloc),
            spans: Vec::new(alloc),
        }
    }

    /// How many lists there are.
    pub(crate) fn len(&self) -> usize
        ensures { result ≡ length self.now }
    {
        self.spans.len()
    }

    /// The list of this number, from 0.
    pub(crate) fn list(&self, k: usize) -> &[T]
        requires { k < length self.now }
        ensures { slice_get self.now k ≡ Some result.now }
    {
        let span = self.spans[k];
        &self.items[span.start..span.end]
    }

    /// The list of this number, or an empty one.
    pub(crate) fn list_or_empty(&self, k: usize) -> &[T]
        ensures { result.now ≡ slice_index_or self.now k [] }
    {
        if k < self.len() { self.list(k) } else { &[] }
    }
}

impl<T: Copy + Drop> Lists<T> {
    /// Adds a list behind the others.
    pub(crate) fn add(&mut self, list: &[T]) -> Result<(), OutOfMemory>
        ensures { OnOk result (self.new ≡ self.old ++ list.now ∷ []) }
    {
        let start = self.items.len();
        self.items.extend_from_slice(list)?;
        let end = self.items.len();
        self.spans.push(Span { start, end })?;
        Ok(())
    }
}
