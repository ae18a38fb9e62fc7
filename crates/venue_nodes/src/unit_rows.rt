//! From the units that nodes name to the nodes that stand in each unit's row.

ghost use Rattle.std.specs.Prelude.{◌≡◌, ◌≤◌, ◌<◌, ◌∷◌, ◌++◌, [], ℕ, List, All, IfOk, OnOk, map, length, vec_len, replicate, slice_index_or, slice_set};
ghost use Rattle.venue_types.specs.declared.feature_id.FeatureId.{FeatureId};
ghost use Rattle.venue_nodes.specs.Filling.{AreFilled, AreNumbers, joined, seat};

use crate::lists::Lists;
use crate::members::Membership;
use crate::walkables::Walkables;
use std::alloc::Global;
use venue_types::{List, OutOfMemory};

/// Rows of members, and for each node where it stands in them.
#[derive(Drop)]
pub(crate) struct Filling {
    pub rows: Vec<List<u32>>,
    pub seats: Lists<Membership>,
}

/// The rows of the walkable units, from the numbers of the units that each node names, in time that grows with their sum.
pub(crate) fn filled(
    alloc: Global,
    walkables: &Walkables,
    named: &Lists<u32>,
) -> Result<Filling, OutOfMemory>
    requires few { length named.now ≤ 1100000 }
    requires named { (nodes : List (List FeatureId)) × AreNumbers walkables.now.ids.items nodes named.now }
    ensures { IfOk result (λ filling. (nodes : List (List FeatureId)) → AreNumbers walkables.now.ids.items nodes named.now → AreFilled walkables.now.ids.items nodes filling.rows.items filling.seats) }
{
    let mut filling = Filling {
        rows: empty_rows(alloc, walkables.ids.len())?,
        seats: Lists::new(alloc),
    };
    for node in 0..named.len() {
        fill(alloc, &mut filling, named.list(node), node as u32)?;
    }
    Ok(filling)
}

// Rows without members, so many.
fn empty_rows(alloc: Global, count: usize) -> Result<Vec<List<u32>>, OutOfMemory>
    ensures { IfOk result (λ rows. rows.items ≡ replicate count []) }
{
    let mut rows = Vec::with_capacity(alloc, count)?;
    for _ in 0..count {
        rows.push(List::new(alloc))?;
    }
    Ok(rows)
}

// Seats a node in the rows of these numbers.
fn fill(alloc: Global, filling: &mut Filling, numbers: &[u32], node: u32) -> Result<(), OutOfMemory>
    requires within { All (λ w. w < vec_len filling.old.rows) numbers.now }
    requires few { All (λ row. length row ≤ 1100000) filling.old.rows.items }
    ensures rows { OnOk result (filling.new.rows.items ≡ joined node numbers.now filling.old.rows.items) }
    ensures seats { OnOk result (filling.new.seats ≡ filling.old.seats ++ map (seat filling.old.rows.items) numbers.now ∷ []) }
{
    let seats = seats_in(alloc, filling.rows.as_slice(), numbers)?;
    filling.seats.add(&seats)?;
    join(&mut filling.rows, numbers, node)
}

// The next places in the rows of these numbers.
fn seats_in(
    alloc: Global,
    rows: &[List<u32>],
    numbers: &[u32],
) -> Result<Vec<Membership>, OutOfMemory>
    requires within { All (λ w. w < length rows.now) numbers.now }
    requires few { All (λ row. length row ≤ 1100000) rows.now }
    ensures { IfOk result (λ seats. seats.items ≡ map (seat rows.now) numbers.now) }
{
    let mut seats = Vec::with_capacity(alloc, numbers.len())?;
    for unit in numbers {
        seats.push(Membership {
            unit: *unit,
            place: rows[*unit as usize].len() as u32,
        })?;
    }
    Ok(seats)
}

// Adds the node at the end of the rows of these numbers.
fn join(rows: &mut Vec<List<u32>>, numbers: &[u32], node: u32) -> Result<(), OutOfMemory>
    requires { All (λ w. w < vec_len rows.old) numbers.now }
    ensures { OnOk result (rows.new.items ≡ joined node numbers.now rows.old.items) }
{
    for unit in numbers {
        push_at(rows, *unit as usize, node)?;
    }
    Ok(())
}

// Adds the node at the end of the row of this number.
fn push_at(rows: &mut Vec<List<u32>>, w: usize, node: u32) -> Result<(), OutOfMemory>
    requires { w < vec_len rows.old }
    ensures { OnOk result (rows.new.items ≡ slice_set rows.old.items w (slice_index_or rows.old.items w [] ++ node ∷ [])) }
{
    rows[w].push(node)
}
