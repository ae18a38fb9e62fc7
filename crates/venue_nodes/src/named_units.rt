//! Which units each node names.

ghost use Rattle.std.specs.Prelude.{◌≡◌, ◌≤◌, ◌∷◌, ◌++◌, [], All, IfOk, OnOk, length, map};
ghost use Rattle.std.specs.Option.{option_to_list, option_copied, option_map};
ghost use Rattle.venue_types.specs.declared.features.AmenityRow.{AmenityRow};
ghost use Rattle.venue_types.specs.declared.features.AnchorRow.{AnchorRow};
ghost use Rattle.venue_types.specs.declared.features.UnitRow.{UnitRow as AUnit};
ghost use Rattle.venue_types.specs.declared.feature_id.FeatureId.{FeatureId};
ghost use Rattle.plane_exact.specs.Figure.{AllNearby, vertices};
ghost use Rattle.venue_nodes.specs.Naming.{AreKnown, corner_names, ids_at, named_by, named_by_corners, numbers, unit_id};

use crate::corner_nodes::corner_number;
use crate::lists::Lists;
use crate::walkables::{Walkables, can_walk};
use std::alloc::Global;
use venue_types::{
    AmenityRow, AnchorRow, FeatureId, Features, Inside, List, OutOfMemory, Touches, UnitRow,
};

/// For each node the numbers of the walkable units that it names: amenities, anchors, openings, units, in file order, then corners.
pub(crate) fn named(
    alloc: Global,
    features: &Features,
    inside: Inside,
    touches: &Touches,
    walkables: &Walkables,
) -> Result<Lists<u32>, OutOfMemory>
    requires known { AreKnown walkables.now }
    requires near { All (λ (row : AUnit). AllNearby (vertices row.shape)) features.now.units }
    requires few_points { All (λ (row : AUnit). length (vertices row.shape) ≤ 1000000) features.now.units }
    ensures { IfOk result (λ lists. lists ≡ map (numbers walkables.now.ids.items) (named_by features.now inside touches.now.rows walkables.now.ids.items)) }
{
    let mut lists = Lists::new(alloc);
    add_amenities(alloc, &mut lists, walkables, features.amenities.as_slice())?;
    add_anchors(alloc, &mut lists, walkables, features.anchors.as_slice())?;
    add_openings(
        alloc,
        &mut lists,
        walkables,
        &features.units,
        touches.rows.as_slice(),
    )?;
    add_units(alloc, &mut lists, walkables)?;
    add_corners(
        alloc,
        &mut lists,
        walkables,
        features.units.as_slice(),
        inside,
    )?;
    Ok(lists)
}

// Adds the numbers of the units that one node names.
fn add(
    alloc: Global,
    lists: &mut Lists<u32>,
    walkables: &Walkables,
    ids: &[FeatureId],
) -> Result<(), OutOfMemory>
    requires { AreKnown walkables.now }
    ensures { OnOk result (lists.new ≡ lists.old ++ numbers walkables.now.ids.items ids.now ∷ []) }
{
    let numbers = walkables.numbers(alloc, ids)?;
    lists.add(&numbers)
}

fn add_amenities(
    alloc: Global,
    lists: &mut Lists<u32>,
    walkables: &Walkables,
    rows: &[AmenityRow],
) -> Result<(), OutOfMemory>
    requires { AreKnown walkables.now }
    ensures { OnOk result (lists.new ≡ lists.old ++ map (λ (row : AmenityRow). numbers walkables.now.ids.items row.units) rows.now) }
{
    for row in rows {
        add(alloc, lists, walkables, row.units.as_slice())?;
    }
    Ok(())
}

fn add_anchors(
    alloc: Global,
    lists: &mut Lists<u32>,
    walkables: &Walkables,
    rows: &[AnchorRow],
) -> Result<(), OutOfMemory>
    requires { AreKnown walkables.now }
    ensures { OnOk result (lists.new ≡ lists.old ++ map (λ (row : AnchorRow). numbers walkables.now.ids.items (row.unit ∷ [])) rows.now) }
{
    for row in rows {
        add(alloc, lists, walkables, &[row.unit])?;
    }
    Ok(())
}

fn add_openings(
    alloc: Global,
    lists: &mut Lists<u32>,
    walkables: &Walkables,
    units: &List<UnitRow>,
    touched: &[List<u32>],
) -> Result<(), OutOfMemory>
    requires { AreKnown walkables.now }
    ensures { OnOk result (lists.new ≡ lists.old ++ map (λ row. numbers walkables.now.ids.items (ids_at units.now row)) touched.now) }
{
    for row in touched {
        let ids = ids_at(alloc, units, row.as_slice())?;
        add(alloc, lists, walkables, &ids)?;
    }
    Ok(())
}

fn add_units(
    alloc: Global,
    lists: &mut Lists<u32>,
    walkables: &Walkables,
) -> Result<(), OutOfMemory>
    requires { AreKnown walkables.now }
    ensures { OnOk result (lists.new ≡ lists.old ++ map (λ (id : FeatureId). numbers walkables.now.ids.items (id ∷ [])) walkables.now.ids.items) }
{
    for id in walkables.ids.as_slice() {
        add(alloc, lists, walkables, &[*id])?;
    }
    Ok(())
}

// Adds for each corner of the units the number of its own.
fn add_corners(
    alloc: Global,
    lists: &mut Lists<u32>,
    walkables: &Walkables,
    units: &[UnitRow],
    inside: Inside,
) -> Result<(), OutOfMemory>
    requires known { AreKnown walkables.now }
    requires near { All (λ (row : AUnit). AllNearby (vertices row.shape)) units.now }
    requires few_points { All (λ (row : AUnit). length (vertices row.shape) ≤ 1000000) units.now }
    ensures { OnOk result (lists.new ≡ lists.old ++ map (numbers walkables.now.ids.items) (named_by_corners inside units.now)) }
{
    for unit in units {
        if can_walk(unit) {
            add_unit_corners(alloc, lists, walkables, unit, inside)?;
        }
    }
    Ok(())
}

// Adds for each corner of one unit its number, which is found once.
fn add_unit_corners(
    alloc: Global,
    lists: &mut Lists<u32>,
    walkables: &Walkables,
    unit: &UnitRow,
    inside: Inside,
) -> Result<(), OutOfMemory>
    requires known { AreKnown walkables.now }
    requires near { AllNearby (vertices unit.now.shape) }
    requires few_points { length (vertices unit.now.shape) ≤ 1000000 }
    ensures { OnOk result (lists.new ≡ lists.old ++ map (numbers walkables.now.ids.items) (corner_names inside unit.now)) }
{
    let count = corner_number(unit, inside);
    if count == 0 {
        return Ok(());
    }
    let numbers = walkables.numbers(alloc, &[unit.id])?;
    for _ in 0..count {
        lists.add(&numbers)?;
    }
    Ok(())
}

// The identifiers of the units of these indexes.
fn ids_at(
    alloc: Global,
    units: &List<UnitRow>,
    indexes: &[u32],
) -> Result<Vec<FeatureId>, OutOfMemory>
    ensures { IfOk result (λ ids. ids.items ≡ ids_at units.now indexes.now) }
{
    let mut ids = Vec::new(alloc);
    for k in indexes {
        add_id(&mut ids, units.get(*k as usize))?;
    }
    Ok(ids)
}

// Adds the unit's identifier, if there is one.
fn add_id(ids: &mut Vec<FeatureId>, unit: Option<&UnitRow>) -> Result<(), OutOfMemory>
    ensures { OnOk result (ids.new.items ≡ ids.old.items ++ option_to_list (option_map unit_id (option_copied unit.entry))) }
{
    if let Some(row) = unit {
        ids.push(row.id)?;
    }
    Ok(())
}
