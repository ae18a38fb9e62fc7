//! The rows that are written.

ghost use Rattle.std.specs.Prelude.{◌≡◌, ◌∷◌, [], ◌++◌, codes};
ghost use Rattle.exact_json.specs.Json.{Json};
ghost use Rattle.json_text.specs.Drafts.{onto};
ghost use Rattle.json_text.specs.Compact.{compact, quoted};
ghost use Rattle.venue_types.specs.declared.folder_file.File.{File as AFile};
ghost use Rattle.venue_types.specs.FolderFiles.{type_name};
ghost use Rattle.venue_types.specs.Identifier.{identifier_text};
ghost use Rattle.imdf_write.specs.Rows.{plain_feature, amenity_feature, anchor_feature, building_feature, detail_feature, fixture_feature, footprint_feature, kiosk_feature, level_feature, occupant_feature, opening_feature, relationship_feature, unit_feature, venue_feature};

use crate::geometries::{append_line, append_point, append_point_or_null, append_shape};
use crate::names::append_name;
use crate::numbers::append_ordinal;
use crate::values::{Written, append_list, append_or_null, append_text};
use crate::words::{access_control, accessibility, direction, door, passage, restriction};
use json_text::{Draft, append_quoted};
use venue_types::{
    AmenityRow, AnchorRow, BuildingRow, DetailRow, FeatureId, File, FixtureRow, FootprintRow,
    KioskRow, LevelRow, OccupantRow, OpeningRow, PlainRow, RelationshipRow, UnitRow, VenueRow,
};

/// A row that is written as a feature of a file.
pub trait Canonical {
    /// The feature, as a value.
    ghost feature: { AFile → Self → Json };

    /// Adds the feature's text.
    fn append(&self, file: File, out: &mut Draft)
        ensures { out.new ≡ onto out.old (compact (feature file self.now)) };
}

// Begins a feature, whose geometry is next.
fn begin(file: File, out: &mut Draft)
    ensures { out.new ≡ onto out.old (codes "{\"feature_type\":" ++ quoted (type_name file) ++ codes ",\"geometry\":") }
{
    out.append(b"{\"feature_type\":");
    append_quoted(out, file.type_name());
    out.append(b",\"geometry\":");
}

// Adds the identifier, whose properties are next.
fn identify(id: FeatureId, out: &mut Draft)
    ensures { out.new ≡ onto out.old (codes ",\"id\":" ++ quoted (identifier_text id) ++ codes ",\"properties\":{") }
{
    out.append(b",\"id\":");
    id.append(out);
    out.append(b",\"properties\":{");
}

// Ends the properties and the feature.
fn end(out: &mut Draft)
    ensures { out.new ≡ onto out.old (codes "},\"type\":\"Feature\"}") }
{
    out.append(b"},\"type\":\"Feature\"}");
}

impl Canonical for PlainRow {
    ghost feature = { plain_feature };

    fn append(&self, file: File, out: &mut Draft) {
        begin(file, out);
        out.append(b"null");
        identify(self.id, out);
        end(out);
    }
}

impl Canonical for AmenityRow {
    ghost feature = { amenity_feature };

    fn append(&self, file: File, out: &mut Draft) {
        begin(file, out);
        append_point(&self.point, out);
        identify(self.id, out);
        out.append(b"\"address_id\":");
        append_or_null(&self.address, out);
        out.append(b",\"category\":");
        append_text(&self.category, out);
        out.append(b",\"name\":");
        append_name(self.name.as_slice(), out);
        out.append(b",\"unit_ids\":");
        append_list(self.units.as_slice(), out);
        end(out);
    }
}

impl Canonical for AnchorRow {
    ghost feature = { anchor_feature };

    fn append(&self, file: File, out: &mut Draft) {
        begin(file, out);
        append_point(&self.point, out);
        identify(self.id, out);
        out.append(b"\"address_id\":");
        append_or_null(&self.address, out);
        out.append(b",\"unit_id\":");
        self.unit.append(out);
        end(out);
    }
}

impl Canonical for BuildingRow {
    ghost feature = { building_feature };

    fn append(&self, file: File, out: &mut Draft) {
        begin(file, out);
        out.append(b"null");
        identify(self.id, out);
        out.append(b"\"address_id\":");
        append_or_null(&self.address, out);
        end(out);
    }
}

impl Canonical for DetailRow {
    ghost feature = { detail_feature };

    fn append(&self, file: File, out: &mut Draft) {
        begin(file, out);
        out.append(b"null");
        identify(self.id, out);
        out.append(b"\"level_id\":");
        append_or_null(&self.level, out);
        end(out);
    }
}

impl Canonical for FixtureRow {
    ghost feature = { fixture_feature };

    fn append(&self, file: File, out: &mut Draft) {
        begin(file, out);
        append_shape(&self.shape, out);
        identify(self.id, out);
        out.append(b"\"anchor_id\":");
        append_or_null(&self.anchor, out);
        out.append(b",\"level_id\":");
        append_or_null(&self.level, out);
        end(out);
    }
}

impl Canonical for FootprintRow {
    ghost feature = { footprint_feature };

    fn append(&self, file: File, out: &mut Draft) {
        begin(file, out);
        append_shape(&self.shape, out);
        identify(self.id, out);
        out.append(b"\"building_ids\":");
        append_list(self.buildings.as_slice(), out);
        end(out);
    }
}

impl Canonical for KioskRow {
    ghost feature = { kiosk_feature };

    fn append(&self, file: File, out: &mut Draft) {
        begin(file, out);
        out.append(b"null");
        identify(self.id, out);
        out.append(b"\"anchor_id\":");
        append_or_null(&self.anchor, out);
        out.append(b",\"level_id\":");
        append_or_null(&self.level, out);
        end(out);
    }
}

impl Canonical for LevelRow {
    ghost feature = { level_feature };

    fn append(&self, file: File, out: &mut Draft) {
        begin(file, out);
        append_shape(&self.shape, out);
        identify(self.id, out);
        out.append(b"\"address_id\":");
        append_or_null(&self.address, out);
        out.append(b",\"building_ids\":");
        append_list(self.buildings.as_slice(), out);
        out.append(b",\"ordinal\":");
        append_ordinal(&self.ordinal, out);
        end(out);
    }
}

impl Canonical for OccupantRow {
    ghost feature = { occupant_feature };

    fn append(&self, file: File, out: &mut Draft) {
        begin(file, out);
        out.append(b"null");
        identify(self.id, out);
        out.append(b"\"anchor_id\":");
        self.anchor.append(out);
        out.append(b",\"name\":");
        append_name(self.name.as_slice(), out);
        end(out);
    }
}

impl Canonical for OpeningRow {
    ghost feature = { opening_feature };

    fn append(&self, file: File, out: &mut Draft) {
        begin(file, out);
        append_line(&self.line, out);
        identify(self.id, out);
        out.append(b"\"access_control\":");
        out.append(access_control(self.out));
        out.append(b",\"accessibility\":");
        out.append(accessibility(self.marked));
        out.append(b",\"door\":");
        out.append(door(self.revolving, self.turnstile));
        out.append(b",\"level_id\":");
        self.level.append(out);
        end(out);
    }
}

impl Canonical for RelationshipRow {
    ghost feature = { relationship_feature };

    fn append(&self, file: File, out: &mut Draft) {
        begin(file, out);
        out.append(b"null");
        identify(self.id, out);
        out.append(b"\"category\":");
        out.append(passage(self.kind));
        out.append(b",\"destination\":");
        append_or_null(&self.destination, out);
        out.append(b",\"direction\":");
        out.append(direction(self.directed));
        out.append(b",\"intermediary\":");
        append_list(self.between.as_slice(), out);
        out.append(b",\"origin\":");
        append_or_null(&self.origin, out);
        end(out);
    }
}

impl Canonical for UnitRow {
    ghost feature = { unit_feature };

    fn append(&self, file: File, out: &mut Draft) {
        begin(file, out);
        append_shape(&self.shape, out);
        identify(self.id, out);
        out.append(b"\"category\":");
        append_text(&self.category, out);
        out.append(b",\"display_point\":");
        append_point_or_null(&self.display, out);
        out.append(b",\"level_id\":");
        self.level.append(out);
        out.append(b",\"name\":");
        append_name(self.name.as_slice(), out);
        out.append(b",\"restriction\":");
        out.append(restriction(self.restricted));
        end(out);
    }
}

impl Canonical for VenueRow {
    ghost feature = { venue_feature };

    fn append(&self, file: File, out: &mut Draft) {
        begin(file, out);
        append_shape(&self.shape, out);
        identify(self.id, out);
        out.append(b"\"address_id\":");
        append_or_null(&self.address, out);
        end(out);
    }
}
