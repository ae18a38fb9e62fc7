//! Identifiers by their numbers.

ghost use Rattle.std.specs.Prelude.{◌≤◌, length};
ghost use Rattle.venue_nodes.specs.Numbering.{HasFew};

use feature_rows::Index;
use std::alloc::Global;
use venue_types::{FeatureId, OutOfMemory};

/// The numbers of identifiers in a list, from 0.
#[derive(Drop)]
pub(crate) struct Numbers {
    index: Index,
    ghost few: { HasFew index },
}

impl Numbers {
    ghost use Rattle.std.specs.Prelude.{◌≡◌, IfOk};
    ghost use Rattle.venue_types.specs.declared.feature_id.FeatureId.{FeatureId as AnId};
    ghost use Rattle.venue_nodes.specs.Numbering.{number_among};
    ghost use Rattle.venue_nodes.specs.Views.{number_of};

    /// Of these identifiers. Where one stands more than once, its first place counts. Takes n log n time.
    pub(crate) fn of(alloc: Global, ids: &[FeatureId]) -> Result<Numbers, OutOfMemory>
        requires { length ids.now ≤ 400000 }
        ensures { IfOk result (λ numbers. (id : AnId) → number_of numbers id ≡ number_among ids.now id) }
    {
        let index = Index::of(alloc, ids)?;
        Ok(Numbers { index })
    }

    /// The number of this identifier, if it is there. Takes log n time.
    #[tactic(auto, unfolding(crate::specs::Views::number_of))]
    pub(crate) fn find(&self, id: FeatureId) -> Option<u32>
        ensures { result ≡ number_of self.now id }
    {
        let place = self.index.place_of(id)?;
        Some(place as u32)
    }
}
