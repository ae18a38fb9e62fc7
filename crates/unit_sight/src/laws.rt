//! What it means that members are joined, for any members, any test of sight and any lengths.

ghost use Rattle.std.specs.Prelude.{◌≡◌, ℕ, ◌<◌, ◌≤◌, Bool, true, false, not, ◌&&◌, ◌==◌, List, length, get_or, Contains, Some, None, option_map, Any, ◌↔◌, ◌⊎◌};
ghost use Rattle.std.specs.List.Sorted.{IsStrictlyIncreasing};
ghost use Rattle.unit_sight.specs.Joined.{is_blind, are_blind, host_of, is_joined};
ghost use Rattle.unit_sight.specs.Tables.{places};

/// Where sight between two is the same both ways, so is being joined.
pub fn joined_turn_law()
    ensures { (sees : ℕ → ℕ → Bool) (far : ℕ → ℕ → ℕ) (members : List ℕ) (a b : ℕ) → sees a b ≡ sees b a → is_joined sees far members a b ≡ is_joined sees far members b a }
{}

/// Where there are two different members, each member is joined to some other member.
pub fn joined_some_law()
    ensures { (sees : ℕ → ℕ → Bool) (far : ℕ → ℕ → ℕ) (members : List ℕ) (a c d : ℕ) → Contains members c → Contains members d → ¬ (c ≡ d) → Any (λ b. is_joined sees far members a b ≡ true) members }
{}

/// Where some member isn't blind, each blind member has a host, which is a member that isn't blind, and is joined to that one member alone.
pub fn guest_law()
    ensures hosted { (sees : ℕ → ℕ → Bool) (far : ℕ → ℕ → ℕ) (members : List ℕ) (a c : ℕ) → Contains members c → is_blind sees members c ≡ false → Any (λ b. host_of sees far members a ≡ Some b) members }
    ensures host { (sees : ℕ → ℕ → Bool) (far : ℕ → ℕ → ℕ) (members : List ℕ) (a b : ℕ) → host_of sees far members a ≡ Some b → Contains members b × (is_blind sees members b ≡ false) }
    ensures alone { (sees : ℕ → ℕ → Bool) (far : ℕ → ℕ → ℕ) (members : List ℕ) (a b c : ℕ) → Contains members c → is_blind sees members c ≡ false → is_blind sees members a ≡ true → Contains members b → (is_joined sees far members a b ≡ true) ↔ (host_of sees far members a ≡ Some b) }
{}

/// A host is the first of the members that aren't blind, by length and then by number; there is none only where all are blind.
pub fn host_law()
    ensures first { (sees : ℕ → ℕ → Bool) (far : ℕ → ℕ → ℕ) (members : List ℕ) (a b : ℕ) → (host_of sees far members a ≡ Some b)
        ↔ (Contains members b × (is_blind sees members b ≡ false) × ((c : ℕ) → Contains members c → is_blind sees members c ≡ false → (far a b < far a c) ⊎ ((far a b ≡ far a c) × (b ≤ c)))) }
    ensures none { (sees : ℕ → ℕ → Bool) (far : ℕ → ℕ → ℕ) (members : List ℕ) (a : ℕ) → (host_of sees far members a ≡ None) ↔ (are_blind sees members ≡ true) }
{}

/// Of two members of which none is blind, exactly those are joined that see each other.
pub fn sighted_law()
    ensures { (sees : ℕ → ℕ → Bool) (far : ℕ → ℕ → ℕ) (members : List ℕ) (a b : ℕ) → Contains members a → is_blind sees members a ≡ false → is_blind sees members b ≡ false
        → is_joined sees far members a b ≡ (not (a == b) && sees a b) }
{}

/// Where all members see all others, and where none sees another, any two members are joined, and none is joined to itself.
pub fn whole_law()
    ensures seeing { (sees : ℕ → ℕ → Bool) (far : ℕ → ℕ → ℕ) (members : List ℕ) (a b : ℕ) → ((c d : ℕ) → Contains members c → Contains members d → ¬ (c ≡ d) → sees c d ≡ true) → Contains members a → Contains members b → is_joined sees far members a b ≡ not (a == b) }
    ensures blind { (sees : ℕ → ℕ → Bool) (far : ℕ → ℕ → ℕ) (members : List ℕ) (a b : ℕ) → are_blind sees members ≡ true → is_joined sees far members a b ≡ not (a == b) }
{}

/// Where the members rise, who is joined by place is joined by member, and the hosts by place are the hosts by member.
pub fn places_law()
    ensures joined { (sees : ℕ → ℕ → Bool) (far : ℕ → ℕ → ℕ) (members : List ℕ) (i j : ℕ) → IsStrictlyIncreasing members → i < length members → j < length members
        → is_joined (λ k l. sees (get_or members k 0) (get_or members l 0)) (λ k l. far (get_or members k 0) (get_or members l 0)) (places (length members)) i j
        ≡ is_joined sees far members (get_or members i 0) (get_or members j 0) }
    ensures host { (sees : ℕ → ℕ → Bool) (far : ℕ → ℕ → ℕ) (members : List ℕ) (i : ℕ) → IsStrictlyIncreasing members
        → option_map (λ k. get_or members k 0) (host_of (λ k l. sees (get_or members k 0) (get_or members l 0)) (λ k l. far (get_or members k 0) (get_or members l 0)) (places (length members)) i)
        ≡ host_of sees far members (get_or members i 0) }
{}
