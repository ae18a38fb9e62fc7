//! Numbers, texts, identifiers and the words for them.

ghost use Rattle.std.specs.Prelude.{◌≡◌};
ghost use Rattle.wire_replies.specs.Names.{kind_name, class_name, which_name};

use crate::written::Written;
use check_text::{file_name, rule_name};
use json::Writer;
use std::alloc::{AllocError, Global};
use std::str;
use venue_types::{Class, FeatureId, Kind, Text, Which, identifier_text_law};

impl Written for u32 {
    ghost use Rattle.wire_replies.specs.Bodies.{count};

    ghost shown = { count };

    fn write_to(&self, _alloc: Global, out: &mut Writer) -> Result<(), AllocError> {
        out.u64(u64::from(*self))
    }
}

impl Written for u64 {
    ghost use Rattle.wire_replies.specs.Bodies.{count};

    ghost shown = { count };

    fn write_to(&self, _alloc: Global, out: &mut Writer) -> Result<(), AllocError> {
        out.u64(*self)
    }
}

impl Written for i16 {
    ghost use Rattle.serde_json.specs.Data.{number};
    ghost use Rattle.serde_json.specs.Find.{of_integer};

    ghost shown = { λ value. number (of_integer value) };

    fn write_to(&self, _alloc: Global, out: &mut Writer) -> Result<(), AllocError> {
        out.i64(i64::from(*self))
    }
}

impl Written for bool {
    ghost use Rattle.serde_json.specs.Data.{boolean};

    ghost shown = { boolean };

    fn write_to(&self, _alloc: Global, out: &mut Writer) -> Result<(), AllocError> {
        out.boolean(*self)
    }
}

impl Written for &str {
    ghost use Rattle.serde_json.specs.Data.{string};

    ghost shown = { λ text. string text.now };

    fn write_to(&self, _alloc: Global, out: &mut Writer) -> Result<(), AllocError> {
        out.string(self)
    }
}

impl Written for Text {
    ghost use Rattle.serde_json.specs.Data.{string};

    ghost shown = { string };

    fn write_to(&self, _alloc: Global, out: &mut Writer) -> Result<(), AllocError> {
        out.string(self.as_str())
    }
}

impl Written for String {
    ghost use Rattle.std.specs.Prelude.{string_bytes};
    ghost use Rattle.serde_json.specs.Data.{string};

    ghost shown = { λ text. string (string_bytes text) };

    fn write_to(&self, _alloc: Global, out: &mut Writer) -> Result<(), AllocError> {
        out.string(self.as_str())
    }
}

impl Written for FeatureId {
    ghost use Rattle.wire_replies.specs.Bodies.{id_data};

    ghost shown = { id_data };

    fn write_to(&self, _alloc: Global, out: &mut Writer) -> Result<(), AllocError> {
        identifier_text_law();
        match str::from_utf8(&self.write()) {
            Ok(text) => out.string(text),
            Err(_) => Err(AllocError),
        }
    }
}

// How a step is passed.
fn kind_name(kind: Kind) -> &'static str
    ensures { result.now ≡ kind_name kind }
{
    match kind {
        Kind::Floor => "floor",
        Kind::Elevator => "elevator",
        Kind::Escalator => "escalator",
        Kind::Movingwalkway => "movingwalkway",
        Kind::Ramp => "ramp",
        Kind::Stairs => "stairs",
        Kind::Traversal => "traversal",
    }
}

impl Written for Kind {
    ghost use Rattle.serde_json.specs.Data.{string};
    ghost use Rattle.wire_replies.specs.Names.{kind_name};

    ghost shown = { λ kind. string (kind_name kind) };

    fn write_to(&self, _alloc: Global, out: &mut Writer) -> Result<(), AllocError> {
        out.string(kind_name(*self))
    }
}

// What a node is.
fn class_name(class: Class) -> &'static str
    ensures { result.now ≡ class_name class }
{
    match class {
        Class::Amenity => "amenity",
        Class::Anchor => "anchor",
        Class::Occupant => "occupant",
        Class::Opening => "opening",
        Class::Unit => "unit",
        Class::Corner => "corner",
    }
}

impl Written for Class {
    ghost use Rattle.serde_json.specs.Data.{string};
    ghost use Rattle.wire_replies.specs.Names.{class_name};

    ghost shown = { λ class. string (class_name class) };

    fn write_to(&self, _alloc: Global, out: &mut Writer) -> Result<(), AllocError> {
        out.string(class_name(*self))
    }
}

// The identifier of a question that names no place.
fn which_name(which: Which) -> &'static str
    ensures { result.now ≡ which_name which }
{
    match which {
        Which::From => "from",
        Which::To => "to",
        Which::Id => "id",
        Which::Stop => "stop",
    }
}

impl Written for Which {
    ghost use Rattle.serde_json.specs.Data.{string};
    ghost use Rattle.wire_replies.specs.Names.{which_name};

    ghost shown = { λ which. string (which_name which) };

    fn write_to(&self, _alloc: Global, out: &mut Writer) -> Result<(), AllocError> {
        out.string(which_name(*self))
    }
}

/// A file of a folder, by its number.
#[derive(Clone, Copy)]
pub(crate) struct FileNumber(pub(crate) u8);

impl Written for FileNumber {
    ghost use Rattle.serde_json.specs.Data.{string};
    ghost use Rattle.check_text.specs.Names.{file_name};

    ghost shown = { λ file. string (file_name file.0) };

    fn write_to(&self, _alloc: Global, out: &mut Writer) -> Result<(), AllocError> {
        out.string(file_name(self.0))
    }
}

/// A rule, by its number.
#[derive(Clone, Copy)]
pub(crate) struct RuleNumber(pub(crate) u8);

impl Written for RuleNumber {
    ghost use Rattle.serde_json.specs.Data.{string};
    ghost use Rattle.check_text.specs.Names.{rule_name};

    ghost shown = { λ rule. string (rule_name rule.0) };

    fn write_to(&self, _alloc: Global, out: &mut Writer) -> Result<(), AllocError> {
        out.string(rule_name(self.0))
    }
}
