//! What a way costs.

ghost use Rattle.std.specs.Prelude.{◌≡◌, ◌≢◌, ◌≤◌, IfOk, length, string_bytes};
ghost use Rattle.venue_types.specs.Identifier.{identifier_read};
ghost use Rattle.venue_types.specs.declared.reply.Reply.TheVariants as told;
ghost use Rattle.version_board.specs.Closed.{Version};
ghost use Rattle.version_board.specs.Histories.{Replays};
ghost use Rattle.gen_text.specs.Numbers.{identifier};
ghost use Rattle.version_board.specs.Halls.{facts_of};
ghost use Rattle.venue_commands.specs.BuildingReports.{IsWayLine};
ghost use Rattle.venue_commands.specs.Costs.{cost_told, route_query, way_line, IsCostBetween, IsCost};

use crate::building::hall::{OwnHall, asked};
use gen_text::identifier_text;
use std::alloc::{AllocError, Global};
use venue_types::{Ask, FeatureId, OutOfMemory, Query, Reply, Text};

/// The identifier of the feature of a number.
pub(crate) fn named(alloc: Global, number: u32) -> Result<Option<FeatureId>, OutOfMemory>
    ensures { IfOk result (λ id. id ≡ identifier_read (identifier number)) }
{
    let text = identifier_text(alloc, number)?;
    Ok(FeatureId::read(&text))
}

// The question for a way.
fn route_query(
    alloc: Global,
    name: &str,
    from: FeatureId,
    to: FeatureId,
) -> Result<Query, OutOfMemory>
    ensures { IfOk result (λ query. query ≡ route_query name.now from to) }
{
    let profile = Text::from_string(String::from_str(alloc, name)?);
    Ok(Query {
        since: None,
        what: Ask::Route {
            from,
            to,
            profile,
            certificate: false,
        },
    })
}

// What a reply tells of a way's cost, if it tells a way.
fn cost_told(reply: Reply) -> Result<Option<u64>, OutOfMemory>
    ensures { IfOk result (λ cost. (reply ≢ told.OutOfMemory) × (cost ≡ cost_told reply)) }
{
    match reply {
        Reply::Route { cost, .. } => Ok(Some(cost)),
        Reply::OutOfMemory => Err(OutOfMemory),
        _ => Ok(None),
    }
}

// What the cheapest way costs between two features, if there is one.
fn cost_between(
    alloc: Global,
    hall: &mut OwnHall,
    name: &str,
    from: FeatureId,
    to: FeatureId,
) -> Result<Option<u64>, OutOfMemory>
    requires { 1 ≤ length (facts_of hall.old).seen }
    ensures cost { IfOk result (λ cost. (v : Version) → Replays (facts_of hall.old).seen v → IsCostBetween v name.now from to cost) }
    ensures same { (facts_of hall.new).seen ≡ (facts_of hall.old).seen }
{
    let query = route_query(alloc, name, from, to)?;
    let reply = asked(hall, &query);
    cost_told(reply)
}

// What the cheapest way costs between the features of two numbers, if there is one.
fn cost(
    alloc: Global,
    hall: &mut OwnHall,
    name: &str,
    start: u32,
    finish: u32,
) -> Result<Option<u64>, OutOfMemory>
    requires { 1 ≤ length (facts_of hall.old).seen }
    ensures cost { IfOk result (λ cost. (v : Version) → Replays (facts_of hall.old).seen v → IsCost v name.now start finish cost) }
    ensures same { (facts_of hall.new).seen ≡ (facts_of hall.old).seen }
{
    let start = named(alloc, start)?;
    let finish = named(alloc, finish)?;
    match (start, finish) {
        (Some(from), Some(to)) => cost_between(alloc, hall, name, from, to),
        _ => Ok(None),
    }
}

// The line of a way.
fn cost_line(alloc: Global, name: &str, cost: Option<u64>) -> Result<String, AllocError>
    ensures { IfOk result (λ text. string_bytes text ≡ way_line name.now cost) }
{
    match cost {
        Some(cost) => format!(in alloc; "{name} {cost}\n"),
        None => format!(in alloc; "{name} none\n"),
    }
}

/// Looks for a way between the features of two numbers and tells it in a line.
pub(crate) fn way_line(
    alloc: Global,
    hall: &mut OwnHall,
    name: &str,
    start: u32,
    finish: u32,
) -> Result<String, OutOfMemory>
    requires { 1 ≤ length (facts_of hall.old).seen }
    ensures line { IfOk result (λ text. (v : Version) → Replays (facts_of hall.old).seen v → IsWayLine v name.now start finish (string_bytes text)) }
    ensures same { (facts_of hall.new).seen ≡ (facts_of hall.old).seen }
{
    let cost = cost(alloc, hall, name, start, finish)?;
    let text = cost_line(alloc, name, cost)?;
    Ok(text)
}
