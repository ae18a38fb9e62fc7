//! The rows of openings and relationships.

use crate::feature_row::FeatureRow;
use crate::fields::{door_is, lists_word, passage_field, ref_of, refs_field};
use crate::figure::{Figure, into_line};
use crate::members::{always_named, id_in};
use exact_json::Tree;
use imdf_schema::{Property, is_word, property, unlisted_property};
use std::alloc::Global;
use venue_types::{OpeningRow, OutOfMemory, RelationshipRow};

impl FeatureRow for OpeningRow {
    ghost use Rattle.venue_types.specs.declared.folder_file.Geometry.TheVariants as kind;
    ghost use Rattle.imdf_rows.specs.Rows.{IsOpeningRow};

    ghost geometry = { kind.Line };

    ghost is_row = { IsOpeningRow };

    fn read_row(alloc: Global, item: &Tree, figure: Figure) -> Result<OpeningRow, OutOfMemory> {
        Ok(OpeningRow {
            id: id_in(item),
            level: always_named(item, Property::LevelId),
            line: into_line(alloc, figure),
            revolving: door_is(property(item, Property::Door), b"revolving"),
            turnstile: door_is(property(item, Property::Door), b"turnstile"),
            marked: lists_word(property(item, Property::Accessibility), b"wheelchair"),
            out: lists_word(property(item, Property::AccessControl), b"outofservice"),
        })
    }
}

impl FeatureRow for RelationshipRow {
    ghost use Rattle.venue_types.specs.declared.folder_file.Geometry.TheVariants as kind;
    ghost use Rattle.imdf_rows.specs.Rows.{IsRelationshipRow};

    ghost geometry = { kind.Unjudged };

    ghost is_row = { IsRelationshipRow };

    fn read_row(
        alloc: Global,
        item: &Tree,
        _figure: Figure,
    ) -> Result<RelationshipRow, OutOfMemory> {
        Ok(RelationshipRow {
            id: id_in(item),
            kind: passage_field(property(item, Property::Category)),
            directed: is_word(unlisted_property(item, b"direction"), b"directed"),
            origin: ref_of(property(item, Property::Origin)),
            between: refs_field(alloc, property(item, Property::Intermediary))?,
            destination: ref_of(property(item, Property::Destination)),
        })
    }
}
