//! The rows of a table, by the units and the relationships that links go by.

ghost use Rattle.std.specs.Prelude.{◌≡◌, ◌<◌, ◌≤◌, ℕ, List, OnOk, All, Contains, Some, length, slice_get, Bool};
ghost use Rattle.std.specs.List.{flat_map};
ghost use Rattle.link_graph.specs.declared.areas.Area.{Area as AnArea};
ghost use Rattle.link_graph.specs.Areas.{area_links, areas, passages};
ghost use Rattle.link_graph.specs.Graphs.{network};
ghost use Rattle.route_answers.specs.Adding.{Adds, rows_from};
ghost use Rattle.route_answers.specs.Passing.{id_at, link_row, passes_node, rows_of};
ghost use Rattle.route_certificate.specs.Forms.{FitsId};

use crate::ids::way_id;
use crate::passes::{may_cross, may_use, passing, passing_places};
use crate::room::Room;
use link_graph::{Area, Graph, network_parts_law};
use route_certificate::TableLink;
use std::alloc::Global;
use venue_types::{FeatureId, Link, OutOfMemory, Profile};

/// Adds a row for each link across a unit that the profile allows.
pub(crate) fn add_areas(
    alloc: Global,
    graph: &Graph,
    profile: &Profile,
    rows: &mut Vec<TableLink>,
) -> Result<(), OutOfMemory>
    ensures { OnOk result (Adds (length (network graph.now).nodes) rows.old.items rows.new.items (rows_of (network graph.now) profile.now (flat_map (area_links graph.now) (areas graph.now)))) }
{
    for w in 0..graph.areas() {
        add_area(alloc, graph, profile, w, rows)?;
    }
    Ok(())
}

// Adds a row for each link across one unit that the profile allows. Only of these the lengths are computed.
fn add_area(
    alloc: Global,
    graph: &Graph,
    profile: &Profile,
    w: u32,
    rows: &mut Vec<TableLink>,
) -> Result<(), OutOfMemory>
    requires { w < length (areas graph.now) }
    ensures { (area : AnArea × List ℕ × List (List Bool)) → slice_get (areas graph.now) w ≡ Some area → OnOk result (Adds (length (network graph.now).nodes) rows.old.items rows.new.items (rows_of (network graph.now) profile.now (area_links graph.now area))) }
{
    network_parts_law();
    let (area, members, sights) = graph.area(w);
    if !may_cross(profile, area) {
        return Ok(());
    }
    let via = way_id(graph, area.via);
    if sights.is_whole() {
        let passed = passing(alloc, graph, profile, members)?;
        add_pairs(graph, area, via, &passed, rows)
    } else {
        let mask = passing_places(alloc, graph, profile, members, sights.size())?;
        let room = Room {
            graph,
            profile,
            members,
            sights,
            mask: &mask,
        };
        room.add_joined(area, via, rows)
    }
}

impl Room<'_> {
    ghost use Rattle.std.specs.Prelude.{filter, take};
    ghost use Rattle.route_answers.specs.Adding.{IsRoom, rows_joined_to};

    // Adds a row for the way from each member that passes to each that passes and is joined with it.
    fn add_joined(
        &self,
        area: Area,
        via: FeatureId,
        rows: &mut Vec<TableLink>,
    ) -> Result<(), OutOfMemory>
        requires room { IsRoom self.now }
        requires via { via ≡ id_at (network self.now.graph.now).closables area.via }
        requires fits { FitsId via }
        ensures { OnOk result (Adds (length (network self.now.graph.now).nodes) rows.old.items rows.new.items (flat_map (rows_joined_to self.now.graph.now self.now.profile.now area self.now.members.now self.now.sights.now) (filter (passes_node (network self.now.graph.now) self.now.profile.now) self.now.members.now))) }
    {
        for i in 0..self.members.len() as u32 {
            if self.mask.has(i) {
                self.add_joined_from(area, via, i, rows)?;
            }
        }
        Ok(())
    }

    // Adds those from the member at a place.
    fn add_joined_from(
        &self,
        area: Area,
        via: FeatureId,
        i: u32,
        rows: &mut Vec<TableLink>,
    ) -> Result<(), OutOfMemory>
        requires room { IsRoom self.now }
        requires via { via ≡ id_at (network self.now.graph.now).closables area.via }
        requires fits { FitsId via }
        requires place { i < length self.now.members.now }
        ensures { (a : ℕ) → slice_get self.now.members.now i ≡ Some a → OnOk result (Adds (length (network self.now.graph.now).nodes) rows.old.items rows.new.items (rows_joined_to self.now.graph.now self.now.profile.now area self.now.members.now self.now.sights.now a)) }
    {
        let a = self.members[i as usize];
        for (j, b) in self.members.iter().enumerate() {
            if self.sights.joins(i, j as u32) && self.mask.has(j as u32) {
                rows.push(row(&self.graph.across(area, a, *b), via))?;
            }
        }
        Ok(())
    }
}

// Adds a row for the way from each of these members of a unit to each other.
fn add_pairs(
    graph: &Graph,
    area: Area,
    via: FeatureId,
    members: &[u32],
    rows: &mut Vec<TableLink>,
) -> Result<(), OutOfMemory>
    requires via { via ≡ id_at (network graph.now).closables area.via }
    requires fits { FitsId via }
    requires within { All (λ m. m < length (network graph.now).nodes) members.now }
    ensures { OnOk result (Adds (length (network graph.now).nodes) rows.old.items rows.new.items (flat_map (rows_from graph.now area members.now) members.now)) }
{
    for a in members {
        add_from(graph, area, via, members, *a, rows)?;
    }
    Ok(())
}

// Adds a row for the way from one of these members of a unit to each other.
fn add_from(
    graph: &Graph,
    area: Area,
    via: FeatureId,
    members: &[u32],
    a: u32,
    rows: &mut Vec<TableLink>,
) -> Result<(), OutOfMemory>
    requires via { via ≡ id_at (network graph.now).closables area.via }
    requires fits { FitsId via }
    requires from { a < length (network graph.now).nodes }
    requires within { All (λ m. m < length (network graph.now).nodes) members.now }
    ensures { OnOk result (Adds (length (network graph.now).nodes) rows.old.items rows.new.items (rows_from graph.now area members.now a)) }
{
    for b in members {
        if *b != a {
            rows.push(row(&graph.across(area, a, *b), via))?;
        }
    }
    Ok(())
}

// The row of a link by what has this identifier.
fn row(link: &Link, via: FeatureId) -> TableLink
    ensures { result ≡ record { from = link.now.from; to = link.now.to; cost = link.now.cost; via = via } }
{
    TableLink {
        from: link.from,
        to: link.to,
        cost: link.cost,
        via,
    }
}

/// Adds a row for each link by a relationship that the profile allows.
pub(crate) fn add_passages(
    graph: &Graph,
    profile: &Profile,
    rows: &mut Vec<TableLink>,
) -> Result<(), OutOfMemory>
    ensures { OnOk result (Adds (length (network graph.now).nodes) rows.old.items rows.new.items (rows_of (network graph.now) profile.now (passages graph.now))) }
{
    graph.areas_law();
    add_links(graph, profile, graph.passages(), rows)?;
    Ok(())
}

// Adds a row for each of these links that the profile allows.
fn add_links(
    graph: &Graph,
    profile: &Profile,
    links: &[Link],
    rows: &mut Vec<TableLink>,
) -> Result<(), OutOfMemory>
    requires { All (Contains (network graph.now).links) links.now }
    ensures { OnOk result (Adds (length (network graph.now).nodes) rows.old.items rows.new.items (rows_of (network graph.now) profile.now links.now)) }
{
    graph.range_law();
    for link in links {
        if may_use(graph, profile, link) {
            rows.push(row(link, way_id(graph, link.via)))?;
        }
    }
    Ok(())
}
