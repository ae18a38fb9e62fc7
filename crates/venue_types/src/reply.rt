//! What a question or a change is answered.

use crate::{Class, FeatureId, Kind, Label, List, Report, Text};

/// A place that a visitor can ask for.
#[derive(Drop)]
pub struct PlaceRow {
    pub id: FeatureId,
    pub class: Class,
    /// The ordinal of its level.
    pub ordinal: i16,
    pub name: List<Label>,
}

/// How a reply names a node: by its feature's identifier, and a corner by its unit's and its number among the unit's corners, from 1.
#[derive(Clone, Copy, Debug, PartialEq, Eq)]
pub struct NodeName {
    pub id: FeatureId,
    pub corner: Option<u32>,
}

/// A step of a walk: where it leads, over what, and its cost in centimetres.
#[derive(Clone, Copy, Debug, PartialEq, Eq)]
pub struct StepRow {
    /// Where it leads to a corner of `to`, its number there.
    pub corner: Option<u32>,
    pub to: FeatureId,
    pub via: FeatureId,
    pub cost: u32,
    pub kind: Kind,
}

/// A potential of a certificate, in centimetres.
#[derive(Clone, Copy, Debug, PartialEq, Eq)]
pub struct Mark {
    /// At a corner of `node`, its number there.
    pub corner: Option<u32>,
    pub node: FeatureId,
    pub value: u64,
}

/// Which identifier of a question names no place.
#[derive(Clone, Copy, Debug, PartialEq, Eq)]
pub enum Which {
    From,
    To,
    Id,
    /// The first of the stops that is none.
    Stop,
}

/// A part of a tour, from one of its places to the next: what it costs in centimetres, and its steps.
#[derive(Drop)]
pub struct Leg {
    pub cost: u64,
    pub steps: List<StepRow>,
}

/// A tour as a reply tells it: the stops in an order that costs least, what all of it costs in centimetres, and its legs, one more than the stops.
#[derive(Drop)]
pub struct TourTold {
    pub number: u32,
    pub from: FeatureId,
    pub to: FeatureId,
    pub profile: Text,
    pub order: List<FeatureId>,
    pub cost: u64,
    pub legs: List<Leg>,
}

/// What was asked where no order of the stops can be walked.
#[derive(Drop)]
pub struct NoTourTold {
    pub number: u32,
    pub from: FeatureId,
    pub to: FeatureId,
    pub profile: Text,
    pub stops: List<FeatureId>,
}

/// One of the nearest amenities: what a way to it costs in centimetres, and its steps, none where it is the start.
#[derive(Drop)]
pub struct NearRow {
    pub id: FeatureId,
    pub cost: u64,
    pub steps: List<StepRow>,
}

/// The nearest amenities of a category as a reply tells them, by what the ways to them from the node `start` cost, then by node. Where the
/// certificate was asked for, the potentials are there, and where there are fewer than were asked for the nodes that can be reached.
#[derive(Drop)]
pub struct NearTold {
    pub number: u32,
    pub from: FeatureId,
    pub start: FeatureId,
    pub category: Text,
    pub profile: Text,
    pub places: List<NearRow>,
    pub potentials: Option<List<Mark>>,
    pub reached: Option<List<NodeName>>,
}

/// A place as a reply tells it: whether it is closed for everybody, and where it is closed for some alone, the names of their profiles.
#[derive(Drop)]
pub struct PlaceTold {
    pub number: u32,
    pub row: PlaceRow,
    pub closed: bool,
    pub profiles: Option<List<Text>>,
}

/// A feature that is closed: for everybody, or for the profiles of these names.
#[derive(Drop)]
pub struct ClosedRow {
    pub id: FeatureId,
    pub profiles: Option<List<Text>>,
}

/// What is closed, as a reply tells it.
#[derive(Drop)]
pub struct ClosuresTold {
    pub number: u32,
    pub closed: List<ClosedRow>,
}

/// The feature is closed or open now as asked; `changed` tells whether it was otherwise before. Where profiles were named, their names,
/// each once, in the order of the settings.
#[derive(Drop)]
pub struct ClosureDone {
    pub number: u32,
    pub feature: FeatureId,
    pub closed: bool,
    pub changed: bool,
    pub profiles: Option<List<Text>>,
}

/// The answer to a question or a change; `number` is that of the version at which it is given.
#[derive(Drop)]
pub enum Reply {
    /// How many features are closed, and how many places there are.
    Version {
        number: u32,
        closed: u32,
        places: u32,
    },
    Places {
        number: u32,
        rows: List<PlaceRow>,
    },
    Place(PlaceTold),
    Closures(ClosuresTold),
    /// A cheapest walk, from the node `start`; the potentials are there where they were asked for.
    Route {
        number: u32,
        from: FeatureId,
        to: FeatureId,
        profile: Text,
        start: FeatureId,
        cost: u64,
        steps: List<StepRow>,
        potentials: Option<List<Mark>>,
    },
    /// There is no walk; the nodes that can be reached are there where they were asked for.
    NoRoute {
        number: u32,
        from: FeatureId,
        to: FeatureId,
        profile: Text,
        reached: Option<List<NodeName>>,
    },
    /// A cheapest tour.
    Tour(TourTold),
    /// There is no tour, in whatever order.
    NoTour(NoTourTold),
    /// The nearest amenities of a category; none where none can be reached.
    Nearest(NearTold),
    ClosureDone(ClosureDone),
    /// The folder is published; `dropped` are the closed features that it can't close any more.
    Published {
        number: u32,
        dropped: List<FeatureId>,
    },
    /// The version asked for isn't there yet.
    Ahead {
        since: u32,
        number: u32,
    },
    /// No profile has that name, or one of the names of a closure.
    NoProfile,
    /// The identifier names no place.
    NoPlace(Which),
    /// The identifier names nothing that can be closed.
    NoFeature,
    /// A file of the folder could not be read; the counts of faults before and after.
    FolderFault {
        before: u64,
        after: u64,
    },
    /// The folder breaks rules.
    Rejected(Report),
    /// No further version fits.
    HistoryFull {
        number: u32,
    },
    /// The journal could not keep the change, which isn't made; its counts of failures before and after.
    JournalFault {
        before: u64,
        after: u64,
    },
    OutOfMemory,
}
