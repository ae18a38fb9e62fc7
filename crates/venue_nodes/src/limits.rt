//! Which limit on members and nodes a folder passes.

ghost use Rattle.std.specs.Prelude.{◌≡◌, ◌≢◌, ◌↔◌, ◌+◌, ◌<◌, ◌≤◌, ℕ, List, [], All, IfOk, IsTrue, MatchOption, Some, None, slice_index_or, sum_by, length};
ghost use Rattle.venue_types.specs.declared.features.Features.{Features as AFeatures};
ghost use Rattle.venue_types.specs.declared.finding.Finding.{Finding as AFinding};
ghost use Rattle.plane_exact.specs.Figure.{AllClose, vertices};
ghost use Rattle.venue_types.specs.declared.settings.Settings.{Settings as ASettings};
ghost use Rattle.feature_rows.specs.Figures.{judged_positions};
ghost use Rattle.feature_rows.specs.Rows.{HaveOwnIds};
ghost use Rattle.feature_rows.specs.Sound.{AreSound};
ghost use Rattle.rule_reports.specs.Reports.{IsReport};
ghost use Rattle.venue_nodes.specs.Crowds.{Crowds, IsFirstFull, IsFirstOver, IsOver, IsRoomy, limit_finding, sight_at, sight_of, square_of};
ghost use Rattle.venue_nodes.specs.Limits.{BreaksLimit, sight_sum};
ghost use Rattle.venue_nodes.specs.Rows.{AreRowsOf, row_list};
ghost use Rattle.venue_nodes.specs.TouchCounts.{TouchMany};

use crate::corner_nodes::carries;
use crate::members::Rows;
use crate::touch_laws::touch_law;
use feature_rows::once_law;
use imdf_schema::{FeatureAt, File, Rule};
use plane_exact::edge_count;
use std::alloc::Global;
use venue_types::{Features, Finding, Inside, List, OutOfMemory, Settings, Touches, UnitRow};

const MOST_MEMBERS: usize = 4_096;

const MOST_SQUARES: u64 = 20_000_000;

const MOST_NODES: u32 = 400_000;

const MOST_SIGHT: u64 = 2_000_000_000;

/// A limit that is passed.
#[derive(Clone, Copy, Debug, PartialEq, Eq)]
pub enum Crowding {
    /// The unit of this index in its file is the first that has too many members.
    Members(u32),
    /// No unit has, and yet the squares of their numbers sum to too much.
    Squares,
    /// These keep their limits, one walks round walls, and there are too many nodes.
    Nodes,
    /// There are not, and yet the squares, each times its unit's edges, sum to too much to look through.
    Sight,
}

impl Crowding {
    // What is told of it: of the unit that is crowded; of what is counted over all at the first unit.
    fn finding(self) -> Finding
        ensures { result ≡ limit_finding self }
    {
        let (rule, index) = match self {
            Crowding::Members(k) => (Rule::S5, k),
            Crowding::Squares => (Rule::S6, 0),
            Crowding::Nodes => (Rule::S7, 0),
            Crowding::Sight => (Rule::S8, 0),
        };
        let place = FeatureAt {
            file: File::Unit,
            index,
        };
        place.finding(rule, 0)
    }
}

/// The limit that the rows pass first, if they pass one.
pub fn first_crowding(features: &Features, settings: &Settings, rows: &Rows) -> Option<Crowding>
    requires sound { AreSound features.now }
    requires rows { AreRowsOf features.now settings.now rows.now }
    ensures { Crowds features.now settings.now result }
{
    match crowded(rows) {
        Some(w) => Some(Crowding::Members(rows.unit_index(w))),
        None if squares_pass(rows) => Some(Crowding::Squares),
        None => crowding_by_walls(features, settings, rows),
    }
}

// The limit on walks round walls that is passed first, of rows whose members keep theirs.
fn crowding_by_walls(features: &Features, settings: &Settings, rows: &Rows) -> Option<Crowding>
    requires sound { AreSound features.now }
    requires rows { AreRowsOf features.now settings.now rows.now }
    requires roomy { All IsRoomy (row_list rows.now) }
    requires squares { sum_by square_of (row_list rows.now) ≤ 20000000 }
    ensures { Crowds features.now settings.now result }
{
    match settings.inside {
        Inside::Straight => None,
        Inside::Clear if rows.nodes() > MOST_NODES => Some(Crowding::Nodes),
        Inside::Clear if sight_passes(features, rows) => Some(Crowding::Sight),
        Inside::Clear => None,
    }
}

/// The limit that is passed where more openings touch the first units than any venue may have.
pub fn crowding_by(
    alloc: Global,
    features: &Features,
    settings: &Settings,
    counts: &[usize],
) -> Result<Crowding, OutOfMemory>
    requires sound { AreSound features.now }
    requires own_ids { HaveOwnIds features.now }
    requires close { AllClose (judged_positions features.now) }
    ensures { IfOk result (λ crowding. TouchMany settings.now.border_tol features.now.openings features.now.units counts.now → Crowds features.now settings.now (Some crowding)) }
{
    once_law();
    touch_law();
    let none = Touches {
        rows: List::new(alloc),
    };
    let rows = Rows::of_named(alloc, features, settings.inside, &none)?;
    match first_over(&rows, counts) {
        Some(k) => Ok(Crowding::Members(k)),
        None => Ok(Crowding::Squares),
    }
}

// The first unit of too many members, by rows without openings and how many of these touch each of the first units.
fn first_over(rows: &Rows, counts: &[usize]) -> Option<u32>
    ensures { MatchOption result ((w k : ℕ) → ¬ IsOver rows.now counts.now w k) (IsFirstOver rows.now counts.now) }
{
    for w in 0..rows.len() {
        let k = rows.unit_index(w);
        if is_over(rows.row(w).len(), count_at(counts, k)) {
            return Some(k);
        }
    }
    None
}

// The count at an index, or 0.
fn count_at(counts: &[usize], k: u32) -> usize
    ensures { result ≡ slice_index_or counts.now k 0 }
{
    let k = k as usize;
    if k < counts.len() { counts[k] } else { 0 }
}

// Whether the two are together more than a unit may have.
fn is_over(others: usize, openings: usize) -> bool
    ensures { IsTrue result ↔ (4096 < others + openings) }
{
    others > MOST_MEMBERS || openings > MOST_MEMBERS - others
}

/// What is found where a limit is passed.
pub fn limit_findings(alloc: Global, crowding: Crowding) -> Result<List<Finding>, OutOfMemory>
    ensures some { IfOk result (λ findings. findings ≢ []) }
    ensures all { IfOk result (λ findings. (features : AFeatures) (settings : ASettings) → Crowds features settings (Some crowding) → IsReport (BreaksLimit features settings) findings) }
{
    let mut findings = List::new(alloc);
    findings.push(crowding.finding())?;
    Ok(findings)
}

/// Where no limit is passed, none is told.
pub fn limit_law()
    ensures { (features : Features) (settings : Settings) (x : AFinding) → Crowds features settings None → ¬ BreaksLimit features settings x }
{}

// The first row of too many members.
fn crowded(rows: &Rows) -> Option<u32>
    ensures { MatchOption result (All IsRoomy (row_list rows.now)) (IsFirstFull (row_list rows.now)) }
{
    for w in 0..rows.len() {
        if rows.row(w).len() > MOST_MEMBERS {
            return Some(w);
        }
    }
    None
}

// Whether the squares of the numbers of members sum to too much. As no row is longer than its limit, the sum fits.
fn squares_pass(rows: &Rows) -> bool
    requires { All IsRoomy (row_list rows.now) }
    ensures { IsTrue result ↔ (20000000 < sum_by square_of (row_list rows.now)) }
{
    let mut sum: u64 = 0;
    for w in 0..rows.len() {
        let count = rows.row(w).len() as u64;
        sum += count * count;
    }
    sum > MOST_SQUARES
}

// Whether the squares, each times the number of its unit's edges, sum to too much over the units in which nobody is carried. As all
// squares sum to at most 20,000,000 and no unit has more than 1,000,000 edges, the sum fits.
fn sight_passes(features: &Features, rows: &Rows) -> bool
    requires sound { AreSound features.now }
    requires roomy { All IsRoomy (row_list rows.now) }
    requires squares { sum_by square_of (row_list rows.now) ≤ 20000000 }
    ensures { (settings : ASettings) → AreRowsOf features.now settings rows.now → IsTrue result ↔ (2000000000 < sight_sum features.now settings) }
{
    let mut sum: u64 = 0;
    for w in 0..rows.len() {
        sum += sight_at(features, rows.unit_index(w), rows.row(w).len() as u64);
    }
    sum > MOST_SIGHT
}

// The same of the unit of an index and its number of members; nothing where there is no unit.
fn sight_at(features: &Features, k: u32, count: u64) -> u64
    requires sound { AreSound features.now }
    requires few { count ≤ 4096 }
    ensures { result ≡ sight_at features.now.units k count }
{
    match features.units.get(k as usize) {
        Some(unit) => sight_of(unit, count),
        None => 0,
    }
}

// The square of the number of members times the number of the unit's edges; nothing where people are carried.
fn sight_of(unit: &UnitRow, count: u64) -> u64
    requires few { count ≤ 4096 }
    requires few_points { length (vertices unit.now.shape) ≤ 1000000 }
    ensures { result ≡ sight_of unit.now count }
{
    if carries(unit) {
        0
    } else {
        count * count * edge_count(&unit.shape) as u64
    }
}
