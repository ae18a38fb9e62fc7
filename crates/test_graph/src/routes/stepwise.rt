//! Marks that are set act by act, beside marks from scratch, for three profiles. Who is kept out is told by a table of truth values.

ghost use Rattle.std.specs.Prelude.{◌≡◌, ◌<◌, length, IfOk};
ghost use Rattle.link_graph.specs.Graphs.{network};
ghost use Rattle.link_graph.specs.Marking.{AreMarksOf};

use crate::station::venue_of;
use link_graph::{Graph, Marks};
use std::alloc::Global;
use std::process::Abort;
use std::test::Fail;
use venue_types::ProfileSet;

const ACTS: u32 = 2_000;

// For which of three profiles a feature is closed.
type Kept = [bool; 3];

fn set_of(kept: &Kept) -> ProfileSet {
    let mut set = ProfileSet::nobody();
    if kept[0] {
        set = set.with(0);
    }
    if kept[1] {
        set = set.with(1);
    }
    if kept[2] {
        set = set.with(2);
    }
    set
}

// Of three profiles those that an act names, one at least.
fn named(act: u32) -> Kept {
    let bits = 1 + act / 3 % 7;
    [bits % 2 == 1, bits / 2 % 2 == 1, bits / 4 == 1]
}

fn put(rt: &impl Abort, graph: &Graph, marks: &mut Marks, k: u32, set: ProfileSet)
    requires { AreMarksOf (network graph.now) marks.old }
    ensures { AreMarksOf (network graph.now) marks.new }
{
    assert!(rt; k < graph.closables());
    marks.mark(k, set);
}

fn found(rt: &impl Abort, graph: &Graph, marks: &Marks, k: u32) -> ProfileSet
    requires { AreMarksOf (network graph.now) marks.now }
{
    assert!(rt; k < graph.closables());
    marks.profiles(k)
}

// An act, done to the marks by what stands marked and what it names, and to the table truth value by truth value.
fn act_on(rt: &impl Abort, graph: &Graph, marks: &mut Marks, table: &mut [Kept], act: u32)
    requires { AreMarksOf (network graph.now) marks.old }
    ensures { AreMarksOf (network graph.now) marks.new }
{
    let count = graph.closables();
    assert!(rt; count > 0);
    let (k, names, closes) = (act.wrapping_mul(7_919) % count, named(act), act % 5 < 3);
    let before = found(rt, graph, marks, k);
    let after = if closes {
        before.joined(set_of(&names))
    } else {
        before.without(set_of(&names))
    };
    put(rt, graph, marks, k, after);
    let kept = table.get_mut(k as usize).expect(rt, "a row");
    for (kept, is_named) in kept.iter_mut().zip(&names) {
        if *is_named {
            *kept = closes;
        }
    }
}

// Marks from scratch that say what a table says.
fn from_scratch(
    rt: &impl Abort,
    alloc: Global,
    graph: &Graph,
    table: &[Kept],
) -> Result<Marks, Fail>
    ensures { IfOk result (λ marks. AreMarksOf (network graph.now) marks) }
{
    let mut marks = Marks::none(alloc, graph)?;
    let mut k = 0_u32;
    for kept in table {
        put(rt, graph, &mut marks, k, set_of(kept));
        k = k.wrapping_add(1);
    }
    Ok(marks)
}

fn judge_profile(
    rt: &impl Abort,
    graph: &Graph,
    marks: &Marks,
    others: &Marks,
    k: u32,
    profile: u8,
    is_kept: bool,
)
    requires marks { AreMarksOf (network graph.now) marks.now }
    requires others { AreMarksOf (network graph.now) others.now }
    requires profile { profile < 16 }
{
    assert!(rt; k < graph.closables());
    assert!(rt; marks.is_marked(k, profile) == is_kept);
    assert!(rt; others.is_marked(k, profile) == is_kept);
}

fn judge(rt: &impl Abort, graph: &Graph, marks: &Marks, others: &Marks, table: &[Kept])
    requires marks { AreMarksOf (network graph.now) marks.now }
    requires others { AreMarksOf (network graph.now) others.now }
{
    for (k, kept) in (0_u32..).zip(table) {
        judge_profile(rt, graph, marks, others, k, 0, kept[0]);
        judge_profile(rt, graph, marks, others, k, 1, kept[1]);
        judge_profile(rt, graph, marks, others, k, 2, kept[2]);
    }
}

#[test]
fn marks_act_by_act(rt: HostRuntime) -> Result<(), Fail> {
    let alloc = rt.alloc();
    let venue = venue_of(alloc, &[])?;
    let graph = venue.graph();
    let mut marks = Marks::none(alloc, graph)?;
    let mut table = vec![in alloc; [false; 3]; graph.closables() as usize]?;
    for act in 0..ACTS {
        act_on(&rt, graph, &mut marks, &mut table, act);
        let others = from_scratch(&rt, alloc, graph, &table)?;
        judge(&rt, graph, &marks, &others, &table);
    }
    Ok(())
}
