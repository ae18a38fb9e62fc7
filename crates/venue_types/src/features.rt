//! The features of a folder, a row each, in file order.

ghost use Rattle.std.specs.Prelude.{◌≡◌, IfOk};

use crate::{FeatureId, Kind, Line, List, OutOfMemory, Point, Shape, Text};
use std::alloc::Global;

/// A name in one language.
#[derive(Drop)]
pub struct Label {
    pub tag: Text,
    pub text: Text,
}

impl Label {
    /// An equal label of its own.
    pub fn copy(&self, alloc: Global) -> Result<Label, OutOfMemory>
        ensures { IfOk result (λ copy. copy ≡ self.now) }
    {
        let tag = self.tag.copy(alloc)?;
        let text = self.text.copy(alloc)?;
        Ok(Label { tag, text })
    }
}

/// A reference to a feature of a type, which is the number of the type's file.
#[derive(Clone, Copy, Debug, PartialEq, Eq)]
pub struct Ref {
    pub id: FeatureId,
    pub feature_type: u8,
}

/// A feature of which only the identifier counts.
#[derive(Clone, Copy, Debug, PartialEq, Eq)]
pub struct PlainRow {
    pub id: FeatureId,
}

#[derive(Drop)]
pub struct AmenityRow {
    pub id: FeatureId,
    pub address: Option<FeatureId>,
    pub units: List<FeatureId>,
    pub point: Point,
    pub category: Text,
    /// The reader of rows keeps the tags in ascending order of their bytes, each once; empty where the name is null.
    pub name: List<Label>,
}

#[derive(Clone, Copy, Debug, PartialEq, Eq)]
pub struct AnchorRow {
    pub id: FeatureId,
    pub address: Option<FeatureId>,
    pub unit: FeatureId,
    pub point: Point,
}

#[derive(Clone, Copy, Debug, PartialEq, Eq)]
pub struct BuildingRow {
    pub id: FeatureId,
    pub address: Option<FeatureId>,
}

#[derive(Clone, Copy, Debug, PartialEq, Eq)]
pub struct DetailRow {
    pub id: FeatureId,
    pub level: Option<FeatureId>,
}

#[derive(Drop)]
pub struct FixtureRow {
    pub id: FeatureId,
    pub level: Option<FeatureId>,
    pub anchor: Option<FeatureId>,
    pub shape: Shape,
}

#[derive(Drop)]
pub struct FootprintRow {
    pub id: FeatureId,
    pub buildings: List<FeatureId>,
    pub shape: Shape,
}

#[derive(Clone, Copy, Debug, PartialEq, Eq)]
pub struct KioskRow {
    pub id: FeatureId,
    pub level: Option<FeatureId>,
    pub anchor: Option<FeatureId>,
}

#[derive(Drop)]
pub struct LevelRow {
    pub id: FeatureId,
    pub address: Option<FeatureId>,
    pub buildings: List<FeatureId>,
    pub ordinal: i16,
    pub shape: Shape,
}

#[derive(Drop)]
pub struct OccupantRow {
    pub id: FeatureId,
    pub anchor: FeatureId,
    /// The reader of rows keeps the tags in ascending order of their bytes, each once; empty where the name is null.
    pub name: List<Label>,
}

#[derive(Drop)]
pub struct OpeningRow {
    pub id: FeatureId,
    pub level: FeatureId,
    pub line: Line,
    /// Its door is revolving.
    pub revolving: bool,
    /// Its door is a turnstile.
    pub turnstile: bool,
    /// It is marked for wheelchairs.
    pub marked: bool,
    /// It is out of service.
    pub out: bool,
}

#[derive(Drop)]
pub struct RelationshipRow {
    pub id: FeatureId,
    /// The passage that it makes, if it makes one.
    pub kind: Option<Kind>,
    pub directed: bool,
    pub origin: Option<Ref>,
    pub between: List<Ref>,
    pub destination: Option<Ref>,
}

#[derive(Drop)]
pub struct UnitRow {
    pub id: FeatureId,
    pub level: FeatureId,
    pub shape: Shape,
    pub display: Option<Point>,
    pub category: Text,
    /// It has a restriction, whatever its text.
    pub restricted: bool,
    /// The reader of rows keeps the tags in ascending order of their bytes, each once; empty where the name is null.
    pub name: List<Label>,
}

#[derive(Drop)]
pub struct VenueRow {
    pub id: FeatureId,
    pub address: Option<FeatureId>,
    pub shape: Shape,
}

/// All features of a folder, each list in file order.
#[derive(Drop)]
pub struct Features {
    pub addresses: List<PlainRow>,
    pub amenities: List<AmenityRow>,
    pub anchors: List<AnchorRow>,
    pub buildings: List<BuildingRow>,
    pub details: List<DetailRow>,
    pub fixtures: List<FixtureRow>,
    pub footprints: List<FootprintRow>,
    pub geofences: List<PlainRow>,
    pub kiosks: List<KioskRow>,
    pub levels: List<LevelRow>,
    pub occupants: List<OccupantRow>,
    pub openings: List<OpeningRow>,
    pub relationships: List<RelationshipRow>,
    pub sections: List<PlainRow>,
    pub units: List<UnitRow>,
    pub venues: List<VenueRow>,
}
