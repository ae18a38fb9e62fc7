//! All links, in their order.

ghost use Rattle.std.specs.Prelude.{◌≡◌, ◌<◌, ◌++◌, ℕ, List, IfOk, OnOk, Some, length, slice_get};
ghost use Rattle.venue_nodes.specs.Rows.{row_list};
ghost use Rattle.link_graph.specs.declared.parts.Crossing.{Crossing as ACrossing};
ghost use Rattle.link_graph.specs.Cores.{IsRow, IsSoundCore, IsTableOf, links_across, links_across_from, links_in};

use crate::leads::others;
use crate::parts::{Core, Crossing};
use crate::ways::across_link;
use std::alloc::Global;
use venue_types::{Link, List, OutOfMemory};

/// All links, in their order.
pub(crate) fn listed(alloc: Global, core: &Core) -> Result<List<Link>, OutOfMemory>
    requires { IsSoundCore core.now }
    ensures { IfOk result (λ links. links ≡ links_in core.now) }
{
    let mut links = Vec::new(alloc);
    for w in 0..core.rows.len() {
        add_across(core, w, &mut links)?;
    }
    links.extend_from_slice(&core.passages)?;
    Ok(List::from_vec(links))
}

// Adds the links across the unit of a row.
fn add_across(core: &Core, w: u32, links: &mut Vec<Link>) -> Result<(), OutOfMemory>
    requires sound { IsSoundCore core.now }
    requires within { w < length (row_list core.now.rows) }
    ensures { (crossing : ACrossing) (row : List ℕ) → slice_get core.now.crossings.items w ≡ Some crossing → slice_get (row_list core.now.rows) w ≡ Some row → OnOk result (links.new.items ≡ links.old.items ++ links_across core.now crossing row) }
{
    let crossing = &core.crossings[w as usize];
    let row = core.rows.row(w);
    if crossing.walked {
        for i in 0..row.len() {
            add_from(core, crossing, row, i as u32, links)?;
        }
    }
    Ok(())
}

// Adds the links from the member at a place of a row to those with which it is joined.
fn add_from(
    core: &Core,
    crossing: &Crossing,
    row: &[u32],
    i: u32,
    links: &mut Vec<Link>,
) -> Result<(), OutOfMemory>
    requires sound { IsSoundCore core.now }
    requires row { IsRow core.now row.now }
    requires table { IsTableOf crossing.now row.now }
    requires place { i < length row.now }
    ensures { (a : ℕ) → slice_get row.now i ≡ Some a → OnOk result (links.new.items ≡ links.old.items ++ links_across_from core.now crossing.now row.now a) }
{
    let a = row[i as usize];
    for (j, b) in row.iter().enumerate() {
        if crossing.sights.joins(i, j as u32) {
            links.push(across_link(core, crossing.way(), a, *b))?;
        }
    }
    Ok(())
}

/// How many links there are.
pub(crate) fn link_count(core: &Core) -> usize
    requires { IsSoundCore core.now }
    ensures { result ≡ length (links_in core.now) }
{
    let mut count = 0;
    for w in 0..core.rows.len() {
        count += across_count(core, w);
    }
    count + core.passages.len()
}

// How many links there are across the unit of a row.
fn across_count(core: &Core, w: u32) -> usize
    requires sound { IsSoundCore core.now }
    requires within { w < length (row_list core.now.rows) }
    ensures { (crossing : ACrossing) (row : List ℕ) → slice_get core.now.crossings.items w ≡ Some crossing → slice_get (row_list core.now.rows) w ≡ Some row → result ≡ length (links_across core.now crossing row) }
{
    let mut count = 0;
    for i in 0..core.rows.row(w).len() {
        count += others(core, w, i as u32) as usize;
    }
    count
}
