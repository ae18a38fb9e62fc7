//! What the definitions on identifiers and positions of rows mean.

ghost use Rattle.std.specs.Prelude.{◌≡◌, ◌≢◌, ℕ, ◌<◌, ◌∷◌, ◌↔◌, List, map, length, Some, None, Contains, slice_get};
ghost use Rattle.venue_types.specs.declared.feature_id.FeatureId.{FeatureId};
ghost use Rattle.venue_types.specs.declared.features.Features.{Features};
ghost use Rattle.venue_types.specs.declared.features.AmenityRow.{AmenityRow};
ghost use Rattle.venue_types.specs.declared.features.AnchorRow.{AnchorRow};
ghost use Rattle.venue_types.specs.declared.features.LevelRow.{LevelRow};
ghost use Rattle.venue_types.specs.declared.features.OpeningRow.{OpeningRow};
ghost use Rattle.venue_types.specs.declared.features.UnitRow.{UnitRow};
ghost use Rattle.venue_types.specs.declared.point.Point.{Point};
ghost use Rattle.venue_types.specs.declared.folder_file.File.{File};
ghost use Rattle.plane_exact.specs.Figure.{AllClose, vertices};
ghost use Rattle.feature_rows.specs.declared.index.Index.{Index};
ghost use Rattle.feature_rows.specs.Rows.{ids_of, HaveOwnIds};
ghost use Rattle.feature_rows.specs.Named.{IsLevel, IsUnit};
ghost use Rattle.feature_rows.specs.Figures.{judged_positions};
ghost use Rattle.feature_rows.specs.Indexes.{AreOnce, IsIndex, IsOnlyRow, place_of};

use crate::has_id::HasId;

/// Where no two features have the same identifier, each stands in its file once.
pub fn once_law()
    ensures { (features : Features) (file : File) → HaveOwnIds features → AreOnce (ids_of file features) }
{}

/// An index of identifiers that stand once each has exactly their places, and any index lacks exactly those that stand nowhere.
pub fn index_law()
    ensures place { (ids : List FeatureId) (index : Index) (id : FeatureId) (k : ℕ) → AreOnce ids → IsIndex ids index → (place_of index id ≡ Some k) ↔ (slice_get ids k ≡ Some id) }
    ensures none { (ids : List FeatureId) (index : Index) (id : FeatureId) → IsIndex ids index → (place_of index id ≡ None) ↔ (¬ Contains ids id) }
{}

/// At the place that an index has stands the row of the identifier, and where it has none there is no such row.
pub fn row_law<R: HasId>()
    ensures within { (rows : List R) (index : Index) (id : FeatureId) (k : ℕ) → IsIndex (map R.id_of rows) index → place_of index id ≡ Some k → k < length rows }
    ensures only { (rows : List R) (index : Index) (id : FeatureId) (k : ℕ) (row : R) → AreOnce (map R.id_of rows) → IsIndex (map R.id_of rows) index → place_of index id ≡ Some k → slice_get rows k ≡ Some row → IsOnlyRow R.id_of rows id row }
    ensures none { (rows : List R) (index : Index) (id : FeatureId) (row : R) → IsIndex (map R.id_of rows) index → place_of index id ≡ None → Contains rows row → R.id_of row ≢ id }
{}

/// A unit's vertex is close to a level and to a unit, where all judged positions are close.
pub fn unit_vertex_law()
    ensures level { (features : Features) (unit : UnitRow) (p : Point) (id : FeatureId) (level : LevelRow) → AllClose (judged_positions features) → Contains features.units unit → Contains (vertices unit.shape) p → IsLevel features id level → AllClose (p ∷ vertices level.shape) }
    ensures unit { (features : Features) (unit : UnitRow) (p : Point) (id : FeatureId) (other : UnitRow) → AllClose (judged_positions features) → Contains features.units unit → Contains (vertices unit.shape) p → IsUnit features id other → AllClose (p ∷ vertices other.shape) }
{}

/// So is an anchor's point.
pub fn anchor_point_law()
    ensures level { (features : Features) (anchor : AnchorRow) (id : FeatureId) (level : LevelRow) → AllClose (judged_positions features) → Contains features.anchors anchor → IsLevel features id level → AllClose (anchor.point ∷ vertices level.shape) }
    ensures unit { (features : Features) (anchor : AnchorRow) (id : FeatureId) (unit : UnitRow) → AllClose (judged_positions features) → Contains features.anchors anchor → IsUnit features id unit → AllClose (anchor.point ∷ vertices unit.shape) }
{}

/// So is an amenity's point.
pub fn amenity_point_law()
    ensures level { (features : Features) (amenity : AmenityRow) (id : FeatureId) (level : LevelRow) → AllClose (judged_positions features) → Contains features.amenities amenity → IsLevel features id level → AllClose (amenity.point ∷ vertices level.shape) }
    ensures unit { (features : Features) (amenity : AmenityRow) (id : FeatureId) (unit : UnitRow) → AllClose (judged_positions features) → Contains features.amenities amenity → IsUnit features id unit → AllClose (amenity.point ∷ vertices unit.shape) }
{}

/// So is each point of an opening.
pub fn opening_point_law()
    ensures level { (features : Features) (opening : OpeningRow) (p : Point) (id : FeatureId) (level : LevelRow) → AllClose (judged_positions features) → Contains features.openings opening → Contains opening.line.points p → IsLevel features id level → AllClose (p ∷ vertices level.shape) }
    ensures unit { (features : Features) (opening : OpeningRow) (p : Point) (id : FeatureId) (unit : UnitRow) → AllClose (judged_positions features) → Contains features.openings opening → Contains opening.line.points p → IsUnit features id unit → AllClose (p ∷ vertices unit.shape) }
{}
