//! The identifiers of features, as an index.

ghost use Rattle.std.specs.Prelude.{◌≡◌, ℕ, ◌==◌, ◌||◌, ◌&&◌, not, IfOk, OnOk, false};
ghost use Rattle.std.specs.Ordering.{nat_cmp};
ghost use Rattle.std.specs.BTreeSet.{contains};
ghost use Rattle.imdf_refs.specs.Index.{pair_cmp, has_id, has_typed};

use std::alloc::Global;
use std::collections::BTreeSet;
use venue_types::{FeatureId, OutOfMemory};

/// The identifiers of features, alone and with the number of a feature's file.
#[derive(Drop)]
pub(crate) struct Known {
    ids: BTreeSet<u128>,
    typed: BTreeSet<(u128, u8)>,
}

impl Known {
    /// No identifiers.
    pub(crate) fn new(alloc: Global) -> Known
        ensures ids { (q : ℕ) → contains nat_cmp result.ids q ≡ false }
        ensures typed { (q f : ℕ) → contains pair_cmp result.typed (q, f) ≡ false }
    {
        Known {
            ids: BTreeSet::new(alloc),
            typed: BTreeSet::new(alloc),
        }
    }

    /// Adds the identifier of a feature of the file of this number, and tells whether no feature before it had it.
    ///
    /// It takes log n time.
    pub(crate) fn insert(&mut self, id: FeatureId, file: u8) -> Result<bool, OutOfMemory>
        ensures fresh { IfOk result (λ fresh. fresh ≡ not (has_id self.old id)) }
        ensures ids { OnOk result ((q : ℕ) → contains nat_cmp self.new.ids q ≡ (contains nat_cmp self.old.ids q || (id.0 == q))) }
        ensures typed { OnOk result ((q f : ℕ) → contains pair_cmp self.new.typed (q, f) ≡ (contains pair_cmp self.old.typed (q, f) || ((id.0 == q) && (file == f)))) }
    {
        let fresh = self.ids.insert(id.0)?;
        self.typed.insert((id.0, file))?;
        Ok(fresh)
    }

    /// Whether a feature has the identifier. It takes log n time.
    pub(crate) fn has(&self, id: FeatureId) -> bool
        ensures { result ≡ has_id self.now id }
    {
        self.ids.contains(&id.0)
    }

    /// Whether a feature of the file of this number has it. It takes log n time.
    pub(crate) fn has_typed(&self, id: FeatureId, file: Option<u8>) -> bool
        ensures { result ≡ has_typed self.now id file }
    {
        match file {
            Some(number) => self.typed.contains(&(id.0, number)),
            None => false,
        }
    }
}
