//! The identifiers of rows, as lists.

ghost use Rattle.std.specs.Prelude.{◌≡◌, ◌++◌, OnOk, IfOk, map};
ghost use Rattle.venue_types.specs.declared.feature_id.FeatureId.{FeatureId as AnId};
ghost use Rattle.venue_types.specs.declared.features.OccupantRow.{OccupantRow as AnOccupant};
ghost use Rattle.venue_nodes.specs.Nodes.{closables};

use std::alloc::Global;
use venue_types::{
    FeatureId, Features, Node, OccupantRow, OpeningRow, OutOfMemory, RelationshipRow, UnitRow,
};

/// What has an identifier.
pub(crate) trait Identified {
    /// Its identifier.
    ghost id_of: { Self → AnId };

    /// Its identifier.
    fn id(&self) -> FeatureId
        ensures { result ≡ id_of self.now };
}

impl Identified for Node {
    ghost id_of = { λ node. node.id };

    fn id(&self) -> FeatureId {
        self.id
    }
}

impl Identified for OccupantRow {
    ghost id_of = { λ row. row.id };

    fn id(&self) -> FeatureId {
        self.id
    }
}

impl Identified for OpeningRow {
    ghost id_of = { λ row. row.id };

    fn id(&self) -> FeatureId {
        self.id
    }
}

impl Identified for RelationshipRow {
    ghost id_of = { λ row. row.id };

    fn id(&self) -> FeatureId {
        self.id
    }
}

impl Identified for UnitRow {
    ghost id_of = { λ row. row.id };

    fn id(&self) -> FeatureId {
        self.id
    }
}

// Adds the identifiers of these rows.
fn add_ids<R: Identified>(ids: &mut Vec<FeatureId>, rows: &[R]) -> Result<(), OutOfMemory>
    ensures { OnOk result (ids.new.items ≡ ids.old.items ++ map R.id_of rows.now) }
{
    for row in rows {
        ids.push(row.id())?;
    }
    Ok(())
}

/// The identifiers of these rows.
pub(crate) fn ids_of<R: Identified>(
    alloc: Global,
    rows: &[R],
) -> Result<Vec<FeatureId>, OutOfMemory>
    ensures { IfOk result (λ ids. ids.items ≡ map R.id_of rows.now) }
{
    let mut ids = Vec::new(alloc);
    add_ids(&mut ids, rows)?;
    Ok(ids)
}

/// The anchors at which these occupants are.
pub(crate) fn anchors_of(
    alloc: Global,
    occupants: &[OccupantRow],
) -> Result<Vec<FeatureId>, OutOfMemory>
    ensures { IfOk result (λ anchors. anchors.items ≡ map (λ (row : AnOccupant). row.anchor) occupants.now) }
{
    let mut anchors = Vec::new(alloc);
    for occupant in occupants {
        anchors.push(occupant.anchor)?;
    }
    Ok(anchors)
}

/// The features that can be closed, in their order.
pub(crate) fn closables_of(
    alloc: Global,
    features: &Features,
) -> Result<Vec<FeatureId>, OutOfMemory>
    ensures { IfOk result (λ ids. ids.items ≡ closables features.now) }
{
    let mut ids = Vec::new(alloc);
    add_ids(&mut ids, features.openings.as_slice())?;
    add_ids(&mut ids, features.relationships.as_slice())?;
    add_ids(&mut ids, features.units.as_slice())?;
    Ok(ids)
}
