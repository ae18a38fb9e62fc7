//! Each call once, and the two steps at values that were worked out by hand.

ghost use Rattle.std.specs.Prelude.{ℕ, List, Contains};
ghost use Rattle.walk_laws.specs.Certificates.{IsCut};
ghost use Rattle.walk_laws.specs.Walks.{HasNoWalk};

use walk_laws::{
    LinkFamily, PotentialKind, below_law, certificate_law, cut_law, has_node, least_law,
    potential_law, reach_law, rises_within, stand_in_law, walk_law,
};

// Links as a start, an end and a cost, those of a list.
struct Triples;

impl LinkFamily for Triples {
    ghost Link = { ℕ × ℕ × ℕ };

    ghost Ground = { List (ℕ × ℕ × ℕ) };

    ghost view = { record { from = λ link. link.0; to = λ link. link.1; cost = λ link. link.2 } };

    ghost has = { Contains };
}

// Potentials as a node and a value.
struct Pairs;

impl PotentialKind for Pairs {
    ghost Potential = { ℕ × ℕ };

    ghost view = { record { node = λ p. p.0; value = λ p. p.1 } };
}

// The law of cuts, for these links.
fn cut_of_triples()
    ensures { (links : List (ℕ × ℕ × ℕ)) (a b : ℕ) (reached : List ℕ) → IsCut ⟦<Triples as LinkFamily>⟧.view (Contains links) a b reached
        → HasNoWalk ⟦<Triples as LinkFamily>⟧.view (Contains links) a b }
{
    cut_law::<Triples>();
}

#[test]
fn laws_and_steps(rt: HostRuntime) {
    certificate_law::<Triples>();
    least_law::<Triples>();
    cut_of_triples();
    walk_law::<Triples>();
    stand_in_law::<Triples, Triples>();
    potential_law::<Pairs>();
    reach_law::<Triples>();
    below_law::<Triples, Pairs>();
    for (start, end, cost, within) in [
        (0, 0, 0, true),
        (633, 833, 200, true),
        (633, 834, 200, false),
        (900, 0, 0, true),
        (18_446_744_073_709_551_615, 5, 7, true),
        (0, 18_446_744_073_709_551_615, 4_294_967_295, false),
    ] {
        assert!(rt; rises_within(start, end, cost) == within);
    }
    let nodes = [2, 5, 4_294_967_295];
    for (node, found) in [
        (0, false),
        (2, true),
        (3, false),
        (5, true),
        (4_294_967_295, true),
    ] {
        assert!(rt; has_node(&nodes, node) == found);
    }
    assert!(rt; !has_node(&[], 0));
}
