//! Sets of profiles.

ghost use Rattle.std.specs.Prelude.{◌≡◌, ◌↔◌, ℕ, ◌<◌, ◌≤◌, ◌^◌, IsTrue, ◌||◌, ◌&&◌, not, nat_eq, nat_lt};
ghost use Rattle.venue_types.specs.declared.profile_set.ProfileSet.{ProfileSet as Set};
ghost use Rattle.venue_types.specs.ProfileSets.{has, nobody, all_of, joined, without, is_empty, has_all_of, has_any_of, is_within};

/// A set of profiles of a venue's settings: bit k stands for profile number k, of 0 to 15.
#[derive(Clone, Copy, Debug, PartialEq, Eq)]
pub struct ProfileSet(pub u16);

impl ProfileSet {
    /// No profile.
    pub fn nobody() -> ProfileSet
        ensures { result ≡ nobody }
    {
        ProfileSet(0)
    }

    /// All profiles of settings that have so many.
    pub fn of_all(count: u32) -> ProfileSet
        requires { count ≤ 16 }
        ensures { result ≡ all_of count }
    {
        ProfileSet(((1_u32 << count) - 1) as u16)
    }

    /// This set and the profile of this number.
    pub fn with(self, k: u8) -> ProfileSet
        requires { k < 16 }
        ensures { (i : ℕ) → IsTrue (has i result) ↔ IsTrue (has i self || nat_eq i k) }
    {
        ProfileSet(self.0 | 1 << k)
    }

    /// Whether the profile of this number is in the set.
    #[tactic(auto, unfolding(crate::specs::ProfileSets::has))]
    pub fn has(self, k: u8) -> bool
        requires { k < 16 }
        ensures { result ≡ has k self }
    {
        self.0 >> k & 1 == 1
    }

    /// The profiles of both sets.
    #[tactic(auto, unfolding(crate::specs::ProfileSets::joined))]
    pub fn joined(self, other: ProfileSet) -> ProfileSet
        ensures { result ≡ joined self other }
    {
        ProfileSet(self.0 | other.0)
    }

    /// The profiles of this set that the other lacks.
    #[tactic(auto, unfolding(crate::specs::ProfileSets::without))]
    pub fn without(self, other: ProfileSet) -> ProfileSet
        ensures { result ≡ without self other }
    {
        ProfileSet(self.0 ^ (self.0 & other.0))
    }

    #[tactic(auto, unfolding(crate::specs::ProfileSets::is_empty))]
    pub fn is_empty(self) -> bool
        ensures { result ≡ is_empty self }
    {
        self.0 == 0
    }

    /// Whether each profile of the other set is in this one.
    #[tactic(auto, unfolding(crate::specs::ProfileSets::has_all_of))]
    pub fn has_all_of(self, other: ProfileSet) -> bool
        ensures { result ≡ has_all_of self other }
    {
        self.0 & other.0 == other.0
    }

    /// Whether a profile of the other set is in this one.
    #[tactic(auto, unfolding(crate::specs::ProfileSets::has_any_of))]
    pub fn has_any_of(self, other: ProfileSet) -> bool
        ensures { result ≡ has_any_of self other }
    {
        self.0 & other.0 != 0
    }

    /// Whether settings that have so many profiles have each of this set.
    pub fn within(self, count: u32) -> bool
        requires { count ≤ 16 }
        ensures { result ≡ is_within count self }
    {
        u32::from(self.0) < 1_u32 << count
    }
}

/// What the words on sets say of each profile.
pub fn profile_set_law()
    ensures nobody { (set : Set) → IsTrue (is_empty set) ↔ ((k : ℕ) → ¬ IsTrue (has k set)) }
    ensures all { (count k : ℕ) → has k (all_of count) ≡ nat_lt k count }
    ensures joined { (set other : Set) (k : ℕ) → has k (joined set other) ≡ (has k set || has k other) }
    ensures without { (set other : Set) (k : ℕ) → has k (without set other) ≡ (has k set && not (has k other)) }
    ensures all_of { (set other : Set) → IsTrue (has_all_of set other) ↔ ((k : ℕ) → IsTrue (has k other) → IsTrue (has k set)) }
    ensures none_of { (set other : Set) → (¬ IsTrue (has_any_of set other)) ↔ ((k : ℕ) → IsTrue (has k other) → ¬ IsTrue (has k set)) }
    ensures within { (count k : ℕ) (set : Set) → IsTrue (is_within count set) → IsTrue (has k set) → k < count }
    ensures same { (set other : Set) → ((k : ℕ) → has k set ≡ has k other) → set ≡ other }
{}
