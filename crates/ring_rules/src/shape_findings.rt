//! The rings of one shape.

ghost use Rattle.std.specs.Prelude.{◌≡◌, ◌+◌, ◌∷◌, [], OnOk, IfOk, length, map, flat_map};
ghost use mathlib.Core.List.{IsPrefix};
ghost use Rattle.plane_exact.specs.Figure.{rings, rings_of};
ghost use Rattle.rule_reports.specs.Passes.{Adds};
ghost use Rattle.ring_rules.specs.Rings.{as_hole, placed_in, placed_rings};
ghost use Rattle.ring_rules.specs.Judged.{AreFit};
ghost use Rattle.ring_rules.specs.Findings.{FindsInRing, FindsFrom, alone};

use crate::area::has_no_area;
use crate::crossings::crosses_itself;
use crate::holes::leaves_border;
use imdf_schema::{FeatureAt, Rule};
use plane_trees::RingBands;
use rule_reports::add;
use std::alloc::Global;
use venue_types::{Finding, OutOfMemory, Part, Ring, Shape};

// The number after this one. No feature that fits into memory has a ring whose number fits no `u32`.
fn next(number: u32) -> Result<u32, OutOfMemory>
    ensures { IfOk result (λ n. n ≡ number + 1) }
{
    match number.checked_add(1) {
        Some(next) => Ok(next),
        None => Err(OutOfMemory),
    }
}

// What is wrong with a ring, be it a hole or not.
#[tactic(auto, using(rule_reports::proofs::Beginnings::beginnings))]
fn add_ring(
    alloc: Global,
    findings: &mut Vec<Finding>,
    place: FeatureAt,
    number: u32,
    ring: &Ring,
) -> Result<(), OutOfMemory>
    requires { AreFit (ring.now ∷ []) }
    ensures adds { OnOk result (Adds (FindsInRing place.file place.index number (alone ring.now)) findings.old.items findings.new.items) }
    ensures begins { IsPrefix findings.old.items findings.new.items }
{
    let crosses = crosses_itself(alloc, ring)?;
    add(findings, crosses, place.finding(Rule::G3, number))?;
    let flat = has_no_area(ring);
    add(findings, flat, place.finding(Rule::G5, number))
}

// What is wrong with a hole.
#[tactic(auto, using(rule_reports::proofs::Beginnings::beginnings))]
fn add_hole(
    alloc: Global,
    findings: &mut Vec<Finding>,
    place: FeatureAt,
    number: u32,
    hole: &Ring,
    border: &RingBands,
) -> Result<(), OutOfMemory>
    requires { AreFit (border.now ∷ hole.now ∷ []) }
    ensures adds { OnOk result (Adds (FindsInRing place.file place.index number (as_hole border.now hole.now)) findings.old.items findings.new.items) }
    ensures begins { IsPrefix findings.old.items findings.new.items }
{
    let leaves = leaves_border(hole, border);
    add(findings, leaves, place.finding(Rule::G4, number))?;
    add_ring(alloc, findings, place, number, hole)
}

// What is wrong with holes, of which the first has this number; the number after theirs.
#[tactic(auto, using(rule_reports::proofs::Beginnings::beginnings))]
fn add_holes(
    alloc: Global,
    findings: &mut Vec<Finding>,
    place: FeatureAt,
    first: u32,
    holes: &[Ring],
    border: &RingBands,
) -> Result<u32, OutOfMemory>
    requires { AreFit (border.now ∷ holes.now) }
    ensures adds { OnOk result (Adds (FindsFrom place.file place.index first (map (as_hole border.now) holes.now)) findings.old.items findings.new.items) }
    ensures begins { IsPrefix findings.old.items findings.new.items }
    ensures next { IfOk result (λ n. n ≡ first + length holes.now) }
{
    let mut number = first;
    for hole in holes {
        add_hole(alloc, findings, place, number, hole, border)?;
        number = next(number)?;
    }
    Ok(number)
}

// What is wrong with the holes of a polygon, whose border is made ready once for all of them.
fn add_holes_of(
    alloc: Global,
    findings: &mut Vec<Finding>,
    place: FeatureAt,
    first: u32,
    part: &Part,
) -> Result<u32, OutOfMemory>
    requires { AreFit (rings_of part.now) }
    ensures adds { OnOk result (Adds (FindsFrom place.file place.index first (map (as_hole part.now.outer) part.now.holes)) findings.old.items findings.new.items) }
    ensures begins { IsPrefix findings.old.items findings.new.items }
    ensures next { IfOk result (λ n. n ≡ first + length part.now.holes) }
{
    if part.holes.is_empty() {
        return Ok(first);
    }
    let border = RingBands::of(alloc, &part.outer)?;
    add_holes(
        alloc,
        findings,
        place,
        first,
        part.holes.as_slice(),
        &border,
    )
}

// What is wrong with a polygon whose border has this number; the number after its rings'.
#[tactic(auto, using(rule_reports::proofs::Beginnings::beginnings))]
fn add_part(
    alloc: Global,
    findings: &mut Vec<Finding>,
    place: FeatureAt,
    first: u32,
    part: &Part,
) -> Result<u32, OutOfMemory>
    requires { AreFit (rings_of part.now) }
    ensures adds { OnOk result (Adds (FindsFrom place.file place.index first (placed_in part.now)) findings.old.items findings.new.items) }
    ensures begins { IsPrefix findings.old.items findings.new.items }
    ensures next { IfOk result (λ n. n ≡ first + length (placed_in part.now)) }
{
    add_ring(alloc, findings, place, first, &part.outer)?;
    let hole = next(first)?;
    add_holes_of(alloc, findings, place, hole, part)
}

// What is wrong with polygons.
#[tactic(auto, using(rule_reports::proofs::Beginnings::beginnings))]
fn add_parts(
    alloc: Global,
    findings: &mut Vec<Finding>,
    place: FeatureAt,
    parts: &[Part],
) -> Result<(), OutOfMemory>
    requires { AreFit (flat_map rings_of parts.now) }
    ensures adds { OnOk result (Adds (FindsFrom place.file place.index 0 (flat_map placed_in parts.now)) findings.old.items findings.new.items) }
    ensures begins { IsPrefix findings.old.items findings.new.items }
{
    let mut number = 0;
    for part in parts {
        number = add_part(alloc, findings, place, number, part)?;
    }
    Ok(())
}

/// What is wrong with the rings of a shape.
pub(crate) fn add_shape(
    alloc: Global,
    findings: &mut Vec<Finding>,
    place: FeatureAt,
    shape: &Shape,
) -> Result<(), OutOfMemory>
    requires { AreFit (rings shape.now) }
    ensures adds { OnOk result (Adds (FindsFrom place.file place.index 0 (placed_rings shape.now)) findings.old.items findings.new.items) }
    ensures begins { IsPrefix findings.old.items findings.new.items }
{
    add_parts(alloc, findings, place, shape.parts.as_slice())
}
