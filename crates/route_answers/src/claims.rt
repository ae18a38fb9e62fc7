//! From what a search found to a claim.

ghost use Rattle.std.specs.Prelude.{◌≡◌, IfOk, length, map};
ghost use Rattle.venue_types.specs.declared.features.Features.{Features};
ghost use Rattle.venue_types.specs.declared.settings.Settings.{Settings};
ghost use Rattle.link_graph.specs.Graphs.{network};
ghost use Rattle.link_graph.specs.Networks.{IsNetworkOf};
ghost use Rattle.route_certificate.specs.Answers.{HasFewSteps};
ghost use Rattle.route_search.specs.Answers.{IsSmall};
ghost use Rattle.route_answers.specs.Places.{AreFirstPlaces};
ghost use Rattle.route_answers.specs.Tables.{row_of, table_of};
ghost use Rattle.route_answers.specs.Claims.{AreAllowed, IsOverAllowed, IsTold};

use crate::places::row_places;
use link_graph::Graph;
use route_certificate::Claim;
use route_search::Found;
use std::alloc::Global;
use venue_types::{Link, List, OutOfMemory, Profile};

// The links of a walk by the places of their rows in the table, a place for each.
fn steps_of(
    alloc: Global,
    graph: &Graph,
    profile: &Profile,
    walk: &[Link],
) -> Result<List<u32>, OutOfMemory>
    requires { AreAllowed (network graph.now) profile.now walk.now }
    ensures numbered { IfOk result (λ steps. (features : Features) (settings : Settings) → IsNetworkOf features settings (network graph.now)
        → AreFirstPlaces (table_of features settings profile.now).links (map (row_of features) walk.now) steps) }
    ensures many { IfOk result (λ steps. length steps ≡ length walk.now) }
{
    let places = row_places(alloc, graph, profile, walk)?;
    Ok(List::from_vec(places))
}

/// The same as a claim, with the places of rows in the table for links.
pub(crate) fn claim_of(
    alloc: Global,
    graph: &Graph,
    profile: &Profile,
    found: Found,
) -> Result<Claim, OutOfMemory>
    requires allowed { IsOverAllowed (network graph.now) profile.now found }
    requires small { IsSmall (length (network graph.now).nodes) found }
    ensures told { IfOk result (λ claim. (features : Features) (settings : Settings) → IsNetworkOf features settings (network graph.now) → IsTold features settings profile.now found claim) }
    ensures few { IfOk result HasFewSteps }
{
    graph.range_law();
    match found {
        Found::Route {
            walk,
            cost,
            potentials,
        } => {
            let steps = steps_of(alloc, graph, profile, walk.as_slice())?;
            Ok(Claim::Route {
                cost,
                steps,
                at: potentials,
            })
        }
        Found::Cut { reached } => Ok(Claim::Nothing { reached }),
    }
}
