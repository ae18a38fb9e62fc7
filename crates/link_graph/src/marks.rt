//! What is closed, and for whom.

ghost use Rattle.std.specs.Prelude.{◌≡◌, ◌↔◌, ℕ, ◌<◌, List, [], IsTrue, Some, Contains, length, slice_get, slice_set, slice_index_or};
ghost use Rattle.venue_types.specs.declared.feature_id.FeatureId.{FeatureId};
ghost use Rattle.venue_types.specs.declared.profile_set.ProfileSet.{ProfileSet as Set};
ghost use Rattle.venue_types.specs.ProfileSets.{has, nobody};
ghost use Rattle.link_graph.specs.Graphs.{network};
ghost use Rattle.link_graph.specs.Marking.{AreMarksOf, marked};
ghost use Rattle.link_graph.specs.Networks.{Network};

use crate::graph::Graph;
use std::alloc::Global;
use std::marker::Model;
use venue_types::{OutOfMemory, ProfileSet};

/// For whom each of the features that can be closed is marked as closed: a set of profiles for each, by its number.
#[derive(Drop)]
pub struct Marks {
    sets: Vec<ProfileSet>,
}

impl Model for Marks {
    ghost use Rattle.std.specs.Prelude.{List};
    ghost use Rattle.venue_types.specs.declared.profile_set.ProfileSet.{ProfileSet};

    ghost Value = { List ProfileSet };

    ghost view = { λ a. a.sets.items };
}

impl Marks {
    ghost use Rattle.std.specs.Prelude.{IfOk, List};

    /// Nothing is marked for anybody. Takes two bytes a feature.
    #[tactic(auto, unfolding(crate::specs::Marking::marked))]
    pub fn none(alloc: Global, graph: &Graph) -> Result<Marks, OutOfMemory>
        ensures marks { IfOk result (λ marks. AreMarksOf (network graph.now) marks) }
        ensures nobody { IfOk result (λ marks. (k : ℕ) → slice_index_or marks k nobody ≡ nobody) }
        ensures none { IfOk result (λ marks. (profile : ℕ) → marked (network graph.now) marks profile ≡ []) }
    {
        let sets = vec![in alloc; ProfileSet::nobody(); graph.closables() as usize]?;
        Ok(Marks { sets })
    }

    /// Equal marks of their own.
    pub fn copy(&self, alloc: Global) -> Result<Marks, OutOfMemory>
        ensures { IfOk result (λ copy. copy ≡ self.now) }
    {
        let mut sets = Vec::new(alloc);
        sets.extend_from_slice(&self.sets)?;
        Ok(Marks { sets })
    }

    /// Marks the feature of this number as closed for these profiles and for nobody else.
    pub fn mark(&mut self, k: u32, profiles: ProfileSet)
        requires { k < length self.old }
        ensures { self.new ≡ slice_set self.old k profiles }
    {
        self.sets[k as usize] = profiles;
    }

    /// For whom the feature of this number is marked as closed.
    pub fn profiles(&self, k: u32) -> ProfileSet
        requires { k < length self.now }
        ensures { result ≡ slice_index_or self.now k nobody }
    {
        self.sets[k as usize]
    }

    /// Whether the feature of this number is marked as closed for the profile of this number.
    pub fn is_marked(&self, k: u32, profile: u8) -> bool
        requires number { k < length self.now }
        requires profile { profile < 16 }
        ensures { result ≡ has profile (slice_index_or self.now k nobody) }
    {
        self.profiles(k).has(profile)
    }
}

/// What is marked for a profile are the features at whose numbers a set stands that has it.
pub fn marked_law()
    ensures { (given : Network) (marks : List Set) (profile : ℕ) (id : FeatureId) → Contains (marked given marks profile) id
        ↔ (k : ℕ) × (slice_get given.closables k ≡ Some id) × IsTrue (has profile (slice_index_or marks k nobody)) }
{}
