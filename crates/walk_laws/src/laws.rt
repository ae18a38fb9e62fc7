//! What a certificate and a cut mean, for the links of whatever layer.

ghost use Rattle.std.specs.Prelude.{◌≡◌, ◌≢◌, ◌↔◌, ◌≤◌, ℕ, ◌+◌, ◌++◌, List, Contains, Option, Some, None, Result, MatchResult, length, map, slice_index_or};
ghost use Rattle.std.specs.List.Sorted.{IsSearchInRange, IsBinarySearchResult};
ghost use Rattle.std.specs.Ordering.{nat_cmp};
ghost use Rattle.walk_laws.specs.Views.{LinkView, PotentialView, StandsFor};
ghost use Rattle.walk_laws.specs.Walks.{IsWalk, walk_cost, CostsAtLeast, HasWalk, HasNoWalk, IsLeast};
ghost use Rattle.walk_laws.specs.Certificates.{potential, Ascends, IsCertificate, IsCut};
ghost use Rattle.walk_laws.specs.Reaches.{lesser, AreBelow, HasCost, IsReach, IsWithin};

/// A family of links: what is read of a link, and which links are those of what they belong to, as a table or a version.
pub trait LinkFamily {
    ghost Link: { Type 0 };

    ghost Ground: { Type 0 };

    ghost view: { LinkView Link };

    ghost has: { Ground → Link → Type 0 };
}

/// A kind of potentials: what is read of one.
pub trait PotentialKind {
    ghost Potential: { Type 0 };

    ghost view: { PotentialView Potential };
}

/// Where there is a certificate, no walk costs less.
pub fn certificate_law<F: LinkFamily>()
    ensures { (whole : F.Ground) (a b cost : ℕ) (potential_of : ℕ → ℕ)
        → IsCertificate F.view (F.has whole) a b cost potential_of → CostsAtLeast F.view (F.has whole) a b cost }
{}

/// A walk of the cost of a certificate is a least one, and all least walks cost the same.
pub fn least_law<F: LinkFamily>()
    ensures least { (whole : F.Ground) (a b cost : ℕ) (potential_of : ℕ → ℕ) (walk : List F.Link)
        → IsCertificate F.view (F.has whole) a b cost potential_of → IsWalk F.view (F.has whole) a b walk → walk_cost F.view walk ≡ cost
        → IsLeast F.view (F.has whole) a b walk cost }
    ensures one_cost { (whole : F.Ground) (a b cost cost' : ℕ) (walk walk' : List F.Link)
        → IsLeast F.view (F.has whole) a b walk cost → IsLeast F.view (F.has whole) a b walk' cost' → cost ≡ cost' }
{}

/// Where there is a cut, there is no walk.
pub fn cut_law<F: LinkFamily>()
    ensures { (whole : F.Ground) (a b : ℕ) (reached : List ℕ) → IsCut F.view (F.has whole) a b reached → HasNoWalk F.view (F.has whole) a b }
{}

/// Walks join and part, their costs add up, and links lead from a node to one end at most.
pub fn walk_law<F: LinkFamily>()
    ensures joined { (whole : F.Ground) (a b c : ℕ) (front back : List F.Link)
        → IsWalk F.view (F.has whole) a b front → IsWalk F.view (F.has whole) b c back → IsWalk F.view (F.has whole) a c (front ++ back) }
    ensures parted { (whole : F.Ground) (a c : ℕ) (front back : List F.Link) → IsWalk F.view (F.has whole) a c (front ++ back)
        → (b : ℕ) × IsWalk F.view (F.has whole) a b front × IsWalk F.view (F.has whole) b c back }
    ensures added { (front back : List F.Link) → walk_cost F.view (front ++ back) ≡ walk_cost F.view front + walk_cost F.view back }
    ensures one_end { (whole : F.Ground) (a b c : ℕ) (walk : List F.Link)
        → IsWalk F.view (F.has whole) a b walk → IsWalk F.view (F.has whole) a c walk → b ≡ c }
{}

/// What holds of all walks over the links of one family holds of those over links that stand for them.
pub fn stand_in_law<F: LinkFamily, G: LinkFamily>()
    ensures least { (whole : F.Ground) (other_whole : G.Ground) (other : F.Link → G.Link) (a b cost : ℕ)
        → StandsFor F.view (F.has whole) G.view (G.has other_whole) other
        → CostsAtLeast G.view (G.has other_whole) a b cost → CostsAtLeast F.view (F.has whole) a b cost }
    ensures none { (whole : F.Ground) (other_whole : G.Ground) (other : F.Link → G.Link) (a b : ℕ)
        → StandsFor F.view (F.has whole) G.view (G.has other_whole) other
        → HasNoWalk G.view (G.has other_whole) a b → HasNoWalk F.view (F.has whole) a b }
{}

/// Where the nodes of a list ascend, a node has one potential: its own value, or the cost of the answer where it is not
/// listed. So a binary search by node finds it.
pub fn potential_law<P: PotentialKind>()
    ensures listed { (cost : ℕ) (listed : List P.Potential) (p : P.Potential)
        → Ascends P.view listed → Contains listed p → potential P.view cost listed (P.view.node p) ≡ P.view.value p }
    ensures unlisted { (cost node : ℕ) (listed : List P.Potential)
        → ((p : P.Potential) → Contains listed p → P.view.node p ≢ node) → potential P.view cost listed node ≡ cost }
    ensures searched { (cost node : ℕ) (listed : List P.Potential) (found : Result ℕ ℕ)
        → Ascends P.view listed → IsSearchInRange found (length listed) → IsBinarySearchResult (λ p. nat_cmp (P.view.node p) node) listed found
        → MatchResult found (λ place. (d : P.Potential) → potential P.view cost listed node ≡ P.view.value (slice_index_or listed place d))
        (λ place. potential P.view cost listed node ≡ cost) }
{}

/// What a search knows at its end means of walks: each cost is a least one; what has none costs at least the bound, or can't be reached
/// where there is no bound; and up to a limit within the bound, costs are a certificate for each node that costs no more.
pub fn reach_law<F: LinkFamily>()
    ensures has_least { (whole : F.Ground) (from n cost : ℕ) (bound : Option ℕ) (cost_of : ℕ → Option ℕ)
        → IsReach F.view (F.has whole) from bound cost_of → cost_of n ≡ Some cost → (walk : List F.Link) × IsLeast F.view (F.has whole) from n walk cost }
    ensures least { (whole : F.Ground) (from n cost : ℕ) (bound : Option ℕ) (cost_of : ℕ → Option ℕ) (walk : List F.Link)
        → IsReach F.view (F.has whole) from bound cost_of → cost_of n ≡ Some cost → IsWalk F.view (F.has whole) from n walk → walk_cost F.view walk ≡ cost
        → IsLeast F.view (F.has whole) from n walk cost }
    ensures beyond { (whole : F.Ground) (from n bound : ℕ) (cost_of : ℕ → Option ℕ)
        → IsReach F.view (F.has whole) from (Some bound) cost_of → cost_of n ≡ None → CostsAtLeast F.view (F.has whole) from n bound }
    ensures reached { (whole : F.Ground) (from n : ℕ) (cost_of : ℕ → Option ℕ)
        → IsReach F.view (F.has whole) from None cost_of → HasCost cost_of n ↔ HasWalk F.view (F.has whole) from n }
    ensures cut { (whole : F.Ground) (from n : ℕ) (cost_of : ℕ → Option ℕ) (reached : List ℕ)
        → IsReach F.view (F.has whole) from None cost_of → ((m : ℕ) → Contains reached m ↔ HasCost cost_of m) → cost_of n ≡ None
        → IsCut F.view (F.has whole) from n reached }
    ensures certificate { (whole : F.Ground) (from n cost limit : ℕ) (bound : Option ℕ) (cost_of : ℕ → Option ℕ)
        → IsReach F.view (F.has whole) from bound cost_of → IsWithin bound limit → cost_of n ≡ Some cost → cost ≤ limit
        → IsCertificate F.view (F.has whole) from n cost (λ m. lesser limit (cost_of m)) }
{}

/// Where the costs below a limit are listed as potentials, a node's potential is the lesser of the limit and its cost; so the list is a
/// certificate too.
pub fn below_law<F: LinkFamily, P: PotentialKind>()
    ensures lesser { (cost_of : ℕ → Option ℕ) (limit n : ℕ) (listed : List P.Potential)
        → AreBelow P.view cost_of limit listed → potential P.view limit listed n ≡ lesser limit (cost_of n) }
    ensures certificate { (whole : F.Ground) (from n cost limit : ℕ) (bound : Option ℕ) (cost_of : ℕ → Option ℕ) (listed : List P.Potential)
        → IsReach F.view (F.has whole) from bound cost_of → IsWithin bound limit → AreBelow P.view cost_of limit listed → cost_of n ≡ Some cost → cost ≤ limit
        → IsCertificate F.view (F.has whole) from n cost (potential P.view limit listed) }
{}
