//! From a search to an answer.

ghost use Rattle.std.specs.Prelude.{◌<◌, IfOk, length};
ghost use Rattle.venue_types.specs.declared.features.Features.{Features};
ghost use Rattle.venue_types.specs.declared.settings.Settings.{Settings};
ghost use Rattle.link_graph.specs.Graphs.{network};
ghost use Rattle.link_graph.specs.Networks.{IsNetworkOf};
ghost use Rattle.route_certificate.specs.Answers.{HasFewSteps};
ghost use Rattle.route_answers.specs.RouteAnswers.{IsRouteAnswer};

use crate::claims::claim_of;
use crate::search::find;
use link_graph::{Graph, passable_law};
use route_certificate::AnswerIn;
use std::alloc::Global;
use venue_types::{OutOfMemory, Profile};

/// A least walk from node to node over the links that the profile allows, nothing closed, its steps numbered by the table of these
/// links, with potentials by which anyone can check that none costs less; or the nodes that are reached, where there is no walk. The
/// table isn't made.
pub fn route_answer(
    alloc: Global,
    graph: &Graph,
    profile: &Profile,
    from: u32,
    to: u32,
) -> Result<AnswerIn, OutOfMemory>
    requires from { from < length (network graph.now).nodes }
    requires to { to < length (network graph.now).nodes }
    ensures answer { IfOk result (λ answer. (features : Features) (settings : Settings) → IsNetworkOf features settings (network graph.now)
        → IsRouteAnswer features settings profile.now from to answer) }
    ensures few { IfOk result (λ answer. HasFewSteps answer.claim) }
{
    graph.range_law();
    passable_law();
    let found = find(alloc, graph, profile, from, to)?;
    let claim = claim_of(alloc, graph, profile, found)?;
    Ok(AnswerIn { from, to, claim })
}
