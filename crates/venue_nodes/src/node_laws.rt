//! What holds of nodes, and of what can be closed, in a folder in which the earlier phases find nothing.

ghost use Rattle.std.specs.Prelude.{◌≡◌, ℕ, ◌≤◌, ◌<◌, length, Some, Contains, slice_get};
ghost use Rattle.venue_types.specs.declared.feature_id.FeatureId.{FeatureId};
ghost use Rattle.venue_types.specs.declared.features.Features.{Features};
ghost use Rattle.venue_types.specs.declared.link.Node.{Node};
ghost use Rattle.venue_types.specs.declared.settings.Inside.TheVariants.{Straight};
ghost use Rattle.venue_types.specs.declared.settings.Settings.{Settings};
ghost use Rattle.feature_rows.specs.Figures.{judged_positions};
ghost use Rattle.feature_rows.specs.Rows.{HaveOwnIds};
ghost use Rattle.feature_rows.specs.Sound.{AreSound};
ghost use Rattle.plane_exact.specs.Figure.{AllClose};
ghost use Rattle.plane_exact.specs.Plane.{IsCloseDoubled};
ghost use Rattle.std.specs.List.{position_from};
ghost use Rattle.venue_nodes.specs.Identity.{is_same};
ghost use Rattle.venue_nodes.specs.Limits.{HasManyNodes};
ghost use Rattle.venue_nodes.specs.Nodes.{place_nodes, nodes, node_number, place_of, closables};
ghost use Rattle.venue_nodes.specs.Numbering.{number_among};

/// Any two nodes are close, where all judged positions are.
pub fn spot_law()
    ensures { (features : Features) (settings : Settings) (a b : Node) → AreSound features → AllClose (judged_positions features) → Contains (nodes features settings) a → Contains (nodes features settings) b → IsCloseDoubled a.spot b.spot }
{}

/// There are few places, not many nodes, few where one walks straight or no limit is passed, and few features that can be closed.
pub fn few_law()
    ensures places { (features : Features) → AreSound features → length (place_nodes features) ≤ 400000 }
    ensures nodes { (features : Features) (settings : Settings) → AreSound features → length (nodes features settings) ≤ 1100000 }
    ensures straight { (features : Features) (settings : Settings) → AreSound features → settings.inside ≡ Straight → length (nodes features settings) ≤ 400000 }
    ensures clear { (features : Features) (settings : Settings) → AreSound features → ¬ HasManyNodes features settings → length (nodes features settings) ≤ 400000 }
    ensures closables { (features : Features) → AreSound features → length (closables features) ≤ 400000 }
{}

/// The place of an identifier is the first node that has it, though a corner has that of its unit.
pub fn first_law()
    ensures { (features : Features) (settings : Settings) (id : FeatureId) → position_from (λ (node : Node). is_same node.id id) 0 (nodes features settings) ≡ node_number features id }
{}

/// The number of a place is that of a node. What can be closed has the number at which its identifier stands, and no other
/// where identifiers are its own.
pub fn number_law()
    ensures place { (features : Features) (settings : Settings) (id : FeatureId) (n : ℕ) → place_of features id ≡ Some n → n < length (nodes features settings) }
    ensures closable { (features : Features) (id : FeatureId) (k : ℕ) → number_among (closables features) id ≡ Some k → slice_get (closables features) k ≡ Some id }
    ensures own { (features : Features) (id : FeatureId) (k : ℕ) → HaveOwnIds features → slice_get (closables features) k ≡ Some id → number_among (closables features) id ≡ Some k }
{}
