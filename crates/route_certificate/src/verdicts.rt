//! Whether an answer proves its claim.

ghost use Rattle.std.specs.Prelude.{◌≡◌, ℕ, ◌^◌, ◌<◌, ◌≤◌, length, IfSome, IfNone, IsTrue, ◌↔◌, Contains};
ghost use Rattle.std.specs.List.{AllByRecursion};
ghost use Rattle.std.specs.List.Sorted.{IsStrictlyIncreasing};
ghost use Rattle.walk_laws.specs.Certificates.{potential, Ascends};
ghost use Rattle.route_certificate.specs.declared.table.TableLink.{TableLink};
ghost use Rattle.route_certificate.specs.Forms.{FitsTable};
ghost use Rattle.route_certificate.specs.Answers.{FitsAnswer, HasFewSteps, potentials_read};
ghost use Rattle.route_certificate.specs.Verdicts.{IsGentle, IsClosed, FailsFirstAt, IsRouteJudged, IsNothingJudged, IsJudged, IsProved, IsTrueAnswer};

use crate::answer::{AnswerIn, Claim, FailedClause, Verdict};
use crate::families::ListedPotentials;
use crate::laws::verdict_law;
use crate::table::{Table, TableLink};
use crate::walk_price::{Followed, follow};
use venue_types::Potential;
use walk_laws::{has_node, potential_law, rises_within};

// The potential of a node: its own, or the cost where it has none.
fn potential_of(at: &[Potential], cost: u64, node: u32) -> u64
    requires { Ascends potentials_read at.now }
    ensures { result ≡ potential potentials_read cost at.now node }
{
    potential_law::<ListedPotentials>();
    match at.binary_search_by_key(&node, |p| p.node) {
        Ok(place) => at[place].value,
        Err(_) => cost,
    }
}

// Whether the potential rises along a link by no more than its cost.
fn is_gentle(at: &[Potential], cost: u64, link: TableLink) -> bool
    requires { Ascends potentials_read at.now }
    ensures { IsTrue result ↔ IsGentle cost at.now link }
{
    let start = potential_of(at, cost, link.from);
    let end = potential_of(at, cost, link.to);
    rises_within(start, end, link.cost)
}

// Whether a link does not leave what is reached.
fn is_closed(reached: &[u32], link: TableLink) -> bool
    requires { IsStrictlyIncreasing reached.now }
    ensures { IsTrue result ↔ IsClosed reached.now link }
{
    !has_node(reached, link.from) || has_node(reached, link.to)
}

// The first link along which the potential rises by more than the cost.
fn first_steep(links: &[TableLink], at: &[Potential], cost: u64) -> Option<u32>
    requires few { length links.now < 2 ^ 32 }
    requires ascends { Ascends potentials_read at.now }
    ensures found { IfSome result (FailsFirstAt (IsGentle cost at.now) links.now) }
    ensures none { IfNone result ((link : TableLink) → Contains links.now link → IsGentle cost at.now link) }
{
    for (place, link) in links.iter().enumerate() {
        if !is_gentle(at, cost, *link) {
            return Some(place as u32);
        }
    }
    None
}

// The first link that leaves what is reached.
fn first_leaving(links: &[TableLink], reached: &[u32]) -> Option<u32>
    requires few { length links.now < 2 ^ 32 }
    requires ascends { IsStrictlyIncreasing reached.now }
    ensures found { IfSome result (FailsFirstAt (IsClosed reached.now) links.now) }
    ensures none { IfNone result ((link : TableLink) → Contains links.now link → IsClosed reached.now link) }
{
    for (place, link) in links.iter().enumerate() {
        if !is_closed(reached, *link) {
            return Some(place as u32);
        }
    }
    None
}

// The clauses of a route, in order.
fn judge_route(
    links: &[TableLink],
    from: u32,
    to: u32,
    cost: u64,
    steps: &[u32],
    at: &[Potential],
) -> Verdict
    requires links { length links.now < 2 ^ 32 }
    requires costs { AllByRecursion (λ link. link.cost ≤ 6700000) links.now }
    requires steps { length steps.now < 2 ^ 32 }
    requires ascends { Ascends potentials_read at.now }
    ensures { IsRouteJudged links.now from to cost steps.now at.now result }
{
    let (end, sum) = match follow(links, from, steps) {
        Followed::To { end, sum } => (end, sum),
        Followed::Broken(step) => return Verdict::Fails(FailedClause::Step(step)),
    };
    if end != to {
        return Verdict::Fails(FailedClause::End);
    }
    if sum != cost {
        return Verdict::Fails(FailedClause::Sum);
    }
    if potential_of(at, cost, from) != 0 {
        return Verdict::Fails(FailedClause::Start);
    }
    if potential_of(at, cost, to) != cost {
        return Verdict::Fails(FailedClause::Finish);
    }
    match first_steep(links, at, cost) {
        Some(link) => Verdict::Fails(FailedClause::Link(link)),
        None => Verdict::Proved,
    }
}

// The clauses where there is no walk, in order.
fn judge_nothing(links: &[TableLink], from: u32, to: u32, reached: &[u32]) -> Verdict
    requires links { length links.now < 2 ^ 32 }
    requires ascends { IsStrictlyIncreasing reached.now }
    ensures { IsNothingJudged links.now from to reached.now result }
{
    if !has_node(reached, from) {
        return Verdict::Fails(FailedClause::Start);
    }
    if has_node(reached, to) {
        return Verdict::Fails(FailedClause::Finish);
    }
    match first_leaving(links, reached) {
        Some(link) => Verdict::Fails(FailedClause::Link(link)),
        None => Verdict::Proved,
    }
}

// The verdict by the clauses of what is claimed.
fn judge(table: &Table, answer: &AnswerIn) -> Verdict
    requires table { FitsTable table.now }
    requires answer { FitsAnswer (length table.now.nodes) answer.now }
    requires links { length table.now.links < 2 ^ 32 }
    requires steps { HasFewSteps answer.now.claim }
    ensures { IsJudged table.now answer.now result }
{
    let links = table.links.as_slice();
    match &answer.claim {
        Claim::Route { cost, steps, at } => judge_route(
            links,
            answer.from,
            answer.to,
            *cost,
            steps.as_slice(),
            at.as_slice(),
        ),
        Claim::Nothing { reached } => {
            judge_nothing(links, answer.from, answer.to, reached.as_slice())
        }
    }
}

/// Whether an answer over the table proves its claim, or else the first clause that it does not keep.
///
/// The time is that of a search among the listed nodes for each end of each link: links times the logarithm of the
/// listed nodes. No memory is taken.
pub fn verify(table: &Table, answer: &AnswerIn) -> Verdict
    requires table { FitsTable table.now }
    requires answer { FitsAnswer (length table.now.nodes) answer.now }
    requires links { length table.now.links < 2 ^ 32 }
    requires steps { HasFewSteps answer.now.claim }
    ensures judged { IsJudged table.now answer.now result }
    ensures proved { (result ≡ Verdict.Proved) ↔ IsProved table.now answer.now }
    ensures proof { result ≡ Verdict.Proved → IsTrueAnswer table.now answer.now }
{
    verdict_law();
    judge(table, answer)
}
