//! What is read of a folder that was written in its fixed form.

ghost use Rattle.std.specs.Prelude.{◌≡◌, ◌≢◌, ◌↔◌, length, List, Option, Some, Bool, not, IsTrue, IfSome, All, codes};
ghost use Rattle.exact_json.specs.Json.{text};
ghost use Rattle.geo_shapes.specs.Geometry.{HasPoint, HasLine, HasShape};
ghost use Rattle.venue_types.specs.declared.feature_id.FeatureId.{FeatureId};
ghost use Rattle.venue_types.specs.declared.features.Label.{Label};
ghost use Rattle.venue_types.specs.declared.features.LevelRow.{LevelRow};
ghost use Rattle.venue_types.specs.declared.features.PlainRow.{PlainRow};
ghost use Rattle.venue_types.specs.declared.features.AmenityRow.{AmenityRow};
ghost use Rattle.venue_types.specs.declared.features.AnchorRow.{AnchorRow};
ghost use Rattle.venue_types.specs.declared.features.BuildingRow.{BuildingRow};
ghost use Rattle.venue_types.specs.declared.features.DetailRow.{DetailRow};
ghost use Rattle.venue_types.specs.declared.features.FixtureRow.{FixtureRow};
ghost use Rattle.venue_types.specs.declared.features.FootprintRow.{FootprintRow};
ghost use Rattle.venue_types.specs.declared.features.KioskRow.{KioskRow};
ghost use Rattle.venue_types.specs.declared.features.OccupantRow.{OccupantRow};
ghost use Rattle.venue_types.specs.declared.features.OpeningRow.{OpeningRow};
ghost use Rattle.venue_types.specs.declared.features.RelationshipRow.{RelationshipRow};
ghost use Rattle.venue_types.specs.declared.features.UnitRow.{UnitRow};
ghost use Rattle.venue_types.specs.declared.features.VenueRow.{VenueRow};
ghost use Rattle.venue_types.specs.declared.features.Ref.{Ref};
ghost use Rattle.venue_types.specs.declared.finding.Note.{Note};
ghost use Rattle.venue_types.specs.declared.folder_file.File.{File};
ghost use Rattle.venue_types.specs.declared.files.Files.{Files};
ghost use Rattle.venue_types.specs.declared.kind.Kind.{Kind};
ghost use Rattle.venue_types.specs.declared.kind.Kind.TheVariants as kind;
ghost use Rattle.venue_types.specs.declared.point.Line.{Line};
ghost use Rattle.venue_types.specs.declared.point.Point.{Point};
ghost use Rattle.venue_types.specs.declared.point.Shape.{Shape};
ghost use Rattle.imdf_schema.specs.declared.rules.NoteKind.TheVariants as noted;
ghost use Rattle.imdf_schema.specs.Rules.{note_number};
ghost use Rattle.imdf_schema.specs.Values.{id_of, is_null, is_word};
ghost use Rattle.imdf_rows.specs.Fields.{ids_field, labels_field, lists_word, door_is, passage_field, ref_of, refs_field, IsDisplay, IsOrdinal};
ghost use Rattle.imdf_rows.specs.Rows.{IsPlainRow, IsAmenityRow, IsAnchorRow, IsBuildingRow, IsDetailRow, IsFixtureRow, IsFootprintRow, IsKioskRow, IsLevelRow, IsOccupantRow, IsOpeningRow, IsRelationshipRow, IsUnitRow, IsVenueRow};
ghost use Rattle.imdf_read.specs.Noted.{IsNoted};
ghost use Rattle.imdf_read.specs.Ordinals.{IsInRange};
ghost use Rattle.imdf_read.specs.Sound.{IsOnEarth};
ghost use Rattle.imdf_write.specs.Values.{list_value, or_null, if_so, id_value, ordinal_value, point_value, line_value, shape_value, name_value, word_list, door_of, passage_word, direction_word, reference_value};
ghost use Rattle.imdf_write.specs.Folder.{canonical};
ghost use Rattle.imdf_write.specs.Rows.{plain_feature, amenity_feature, anchor_feature, building_feature, detail_feature, fixture_feature, footprint_feature, kiosk_feature, level_feature, occupant_feature, opening_feature, relationship_feature, unit_feature, venue_feature};
ghost use Rattle.imdf_rows.specs.Folder.{AreFeatures};
ghost use Rattle.writing_law.specs.Written.{FitsFeatures, written, IsWithinLimit, FindsNothing};
ghost use Rattle.venue_types.specs.declared.features.Features.{Features};
ghost use Rattle.writing_law.specs.Fit.{FitsId, FitsRef, FitsName, FitsLine, FitsShape, FitsPlain, FitsAmenity, FitsAnchor, FitsBuilding, FitsDetail, FitsFixture, FitsFootprint, FitsKiosk, FitsLevel, FitsOccupant, FitsOpening, FitsRelationship, FitsUnit, FitsVenue};

use exact_json::laws::one_json_law;
use geo_shapes::{one_point_law, same_numbers_law};
use imdf_read::{one_reading_law, ordinals_law, sound_reading_law};
use imdf_rows::{doors_law, passages_law};
use imdf_write::compact_law;

/// Each field of a row is what is read of the value by which the fixed form writes it.
pub fn field_law()
    ensures id { (id : FeatureId) → FitsId id → id_of (id_value id) ≡ Some id }
    ensures id_or_none { (id : Option FeatureId) → IfSome id FitsId → id_of (or_null id_value id) ≡ id }
    ensures ids { (ids : List FeatureId) → All FitsId ids → ids_field (list_value id_value ids) ≡ ids }
    ensures name { (labels : List Label) → FitsName labels → labels_field (name_value labels) ≡ labels }
    ensures point { (point : Point) → IsOnEarth point → HasPoint (point_value point) point }
    ensures line { (line : Line) → FitsLine line → HasLine (line_value line) line }
    ensures shape { (shape : Shape) → FitsShape shape → HasShape (shape_value shape) shape }
    ensures display { (point : Option Point) → IfSome point IsOnEarth → IsDisplay (or_null point_value point) point }
    ensures marked { (holds : Bool) → lists_word (word_list holds (codes "wheelchair")) (codes "wheelchair") ≡ holds }
    ensures out { (holds : Bool) → lists_word (word_list holds (codes "outofservice")) (codes "outofservice") ≡ holds }
    ensures revolving { (revolving turnstile : Bool) → door_is (door_of revolving turnstile) (codes "revolving") ≡ revolving }
    ensures turnstile { (revolving turnstile : Bool) → ¬ (IsTrue revolving × IsTrue turnstile) → door_is (door_of revolving turnstile) (codes "turnstile") ≡ turnstile }
    ensures passage { (passage : Option Kind) → passage ≢ Some kind.Floor → passage_field (text (passage_word passage)) ≡ passage }
    ensures direction { (directed : Bool) → is_word (text (direction_word directed)) (codes "directed") ≡ directed }
    ensures restricted { (restricted : Bool) → not (is_null (if_so restricted (text (codes "restricted")))) ≡ restricted }
    ensures ordinal { (row : LevelRow) → IsInRange row → IsOrdinal (ordinal_value row.ordinal) row.ordinal }
    ensures reference { (r : Option Ref) → IfSome r FitsRef → ref_of (or_null reference_value r) ≡ r }
    ensures references { (rs : List Ref) → All FitsRef rs → refs_field (list_value reference_value rs) ≡ rs }
{}

/// Each row is what is read of the feature by which the fixed form writes it, whatever its file.
pub fn row_law()
    ensures plain { (f : File) (row : PlainRow) → FitsPlain row → IsPlainRow (plain_feature f row) row }
    ensures amenity { (f : File) (row : AmenityRow) → FitsAmenity row → IsAmenityRow (amenity_feature f row) row }
    ensures anchor { (f : File) (row : AnchorRow) → FitsAnchor row → IsAnchorRow (anchor_feature f row) row }
    ensures building { (f : File) (row : BuildingRow) → FitsBuilding row → IsBuildingRow (building_feature f row) row }
    ensures detail { (f : File) (row : DetailRow) → FitsDetail row → IsDetailRow (detail_feature f row) row }
    ensures fixture { (f : File) (row : FixtureRow) → FitsFixture row → IsFixtureRow (fixture_feature f row) row }
    ensures footprint { (f : File) (row : FootprintRow) → FitsFootprint row → IsFootprintRow (footprint_feature f row) row }
    ensures kiosk { (f : File) (row : KioskRow) → FitsKiosk row → IsKioskRow (kiosk_feature f row) row }
    ensures level { (f : File) (row : LevelRow) → FitsLevel row → IsLevelRow (level_feature f row) row }
    ensures occupant { (f : File) (row : OccupantRow) → FitsOccupant row → IsOccupantRow (occupant_feature f row) row }
    ensures opening { (f : File) (row : OpeningRow) → FitsOpening row → IsOpeningRow (opening_feature f row) row }
    ensures relationship { (f : File) (row : RelationshipRow) → FitsRelationship row → IsRelationshipRow (relationship_feature f row) row }
    ensures unit { (f : File) (row : UnitRow) → FitsUnit row → IsUnitRow (unit_feature f row) row }
    ensures venue { (f : File) (row : VenueRow) → FitsVenue row → IsVenueRow (venue_feature f row) row }
{}

/// What was written is read back: where the rows keep what they are to keep, and no file of the fixed form has more bytes
/// than are read, its rows are theirs.
pub fn file_law()
    ensures { (features : Features) → FitsFeatures features → IsWithinLimit features → AreFeatures (written features) features }
{
    compact_law();
    same_numbers_law();
}

/// The first phase finds nothing in what was written, where the rows keep what they are to keep, and no file of the fixed
/// form has more bytes than are read.
pub fn rule_law()
    ensures { (features : Features) → FitsFeatures features → IsWithinLimit features → FindsNothing (written features) }
{
    compact_law();
    one_json_law();
    one_point_law();
    same_numbers_law();
}

/// The rows of a folder in which the first phase finds nothing keep what they are to keep.
pub fn fit_law()
    ensures { (files : Files) (features : Features) → length files.slots ≡ 17 → AreFeatures files features → FindsNothing files → FitsFeatures features }
{
    sound_reading_law();
    ordinals_law();
    doors_law();
    passages_law();
}

/// The law of the fixed form. Where the first phase finds nothing in a folder, and no file of the fixed form of its rows has
/// more bytes than are read, it finds nothing in the fixed form, whose rows are the same.
pub fn writer_law()
    ensures nothing { (files : Files) (features : Features) → length files.slots ≡ 17 → AreFeatures files features → FindsNothing files → IsWithinLimit features
        → FindsNothing (written features) }
    ensures same { (files : Files) (features : Features) → length files.slots ≡ 17 → AreFeatures files features → FindsNothing files → IsWithinLimit features
        → AreFeatures (written features) features }
{
    fit_law();
    file_law();
    rule_law();
}

/// The same is noted of the fixed form as of a folder in which the first phase finds nothing, each note at its place, if no
/// file of the fixed form has more bytes than are read; but nothing is noted of the text of a restriction, which rows don't
/// keep.
pub fn notes_law()
    ensures { (files : Files) (features : Features) (x : Note) → length files.slots ≡ 17 → AreFeatures files features → FindsNothing files
        → IsWithinLimit features → (IsNoted (written features) x ↔ (IsNoted files x × (x.note ≢ note_number noted.N5))) }
{
    compact_law();
    one_json_law();
    same_numbers_law();
    fit_law();
    writer_law();
}

/// The fixed form of what is read of the fixed form is the same files.
pub fn canon_again()
    ensures { (files : Files) (features again : Features) → length files.slots ≡ 17 → AreFeatures files features → FindsNothing files → IsWithinLimit features
        → AreFeatures (written features) again → canonical again ≡ canonical features }
{
    writer_law();
    one_reading_law();
}
