//! The command `route`.

ghost use Rattle.std.specs.Prelude.{◌≡◌, ◌<◌, IfOk, IfErr, IfSome, length, IsErrOf};
ghost use Rattle.route_answers.specs.Nodes.{nodes, place_of};
ghost use Rattle.venue_ports.specs.Files.{HasReadCause};
ghost use Rattle.venue_ports.specs.declared.folders.ReadFault.TheVariants.{OutOfMemory as NoMemory};
ghost use Rattle.venue_commands.specs.FaultOrder.{FailsInFolder};
ghost use Rattle.venue_commands.specs.Routed.{RouteOutput, claim_status};
ghost use Rattle.venue_commands.specs.Steps.{IsAnswered, IsPrinted, IsRouted, IsRoutedFrom};

use crate::base_venue::{Made, venue_of};
use crate::command::RouteOf;
use crate::links_command::profile_named;
use crate::printout::{Printout, printed};
use crate::status::Status;
use route_answers::{number_law, route_answer};
use route_certificate::{Claim, answer_law, write_answer};
use std::alloc::Global;
use venue_ports::{Folders, ReadFault};
use venue_session::Venue;
use venue_types::{FeatureId, OutOfMemory, Profile};

// The status that goes with a claim.
fn status_of(claim: &Claim) -> Status
    ensures status { result ≡ claim_status claim.now }
    ensures plain { IsPrinted result }
{
    match claim {
        Claim::Route { .. } => Status::Done,
        Claim::Nothing { .. } => Status::Negative,
    }
}

// The node at which a place of the venue is.
fn node_of(venue: &Venue, id: FeatureId) -> Option<u32>
    ensures node { result ≡ place_of venue.now.features id }
    ensures within { IfSome result (λ n. n < length (nodes venue.now.features venue.now.settings)) }
{
    number_law();
    venue.graph().node_of(id)
}

// The answer over a venue, for somebody with the profile, from node to node.
fn answered(
    alloc: Global,
    venue: &Venue,
    profile: &Profile,
    a: u32,
    b: u32,
) -> Result<Printout, OutOfMemory>
    requires a_node { a < length (nodes venue.now.features venue.now.settings) }
    requires b_node { b < length (nodes venue.now.features venue.now.settings) }
    ensures told { IfOk result (IsAnswered venue.now profile.now a b) }
    ensures plain { IfOk result (λ answer. IsPrinted answer.status) }
{
    answer_law();
    let graph = venue.graph();
    graph.range_law();
    let answer = route_answer(alloc, graph, profile, a, b)?;
    let text = write_answer(alloc, &answer)?;
    Ok(Printout {
        status: status_of(&answer.claim),
        text,
    })
}

// The answer over a venue, for somebody with the profile, between two places.
fn answered_between(
    alloc: Global,
    venue: &Venue,
    profile: &Profile,
    from: FeatureId,
    to: FeatureId,
) -> Result<Printout, ReadFault>
    ensures told { IfOk result (λ answer. IsRoutedFrom venue.now profile.now to answer (place_of venue.now.features from)) }
    ensures plain { IfOk result (λ answer. IsPrinted answer.status) }
    ensures memory { IfErr result (λ why. why ≡ NoMemory) }
{
    let Some(a) = node_of(venue, from) else {
        return Ok(printed(Status::Wrong, String::from_str(alloc, "place from\n")?));
    };
    let Some(b) = node_of(venue, to) else {
        return Ok(printed(Status::Wrong, String::from_str(alloc, "place to\n")?));
    };
    match answered(alloc, venue, profile, a, b) {
        Ok(answer) => Ok(answer),
        Err(OutOfMemory) => Err(ReadFault::OutOfMemory),
    }
}

// The answer over a venue, for the name of a profile and two places.
fn routed(
    alloc: Global,
    venue: &Venue,
    name: &str,
    from: FeatureId,
    to: FeatureId,
) -> Result<Printout, ReadFault>
    ensures told { IfOk result (IsRouted venue.now name.now from to) }
    ensures plain { IfOk result (λ answer. IsPrinted answer.status) }
    ensures memory { IfErr result (λ why. why ≡ NoMemory) }
{
    let Some(profile) = profile_named(venue.settings(), name) else {
        return Ok(printed(Status::Wrong, String::from_str(alloc, "profile\n")?));
    };
    answered_between(alloc, venue, profile, from, to)
}

/// The answer to `route BASE FOLDER PROFILE FROM TO`.
pub(crate) fn routing_answer<F: Folders>(
    alloc: Global,
    route: RouteOf<'_>,
    folders: &mut F,
) -> Result<Printout, ReadFault>
    ensures told { IfOk result (λ answer. IfSome (F.files folders.old) (λ files. RouteOutput files route.entry.of.base.now route.entry.of.folder.now route.entry.profile.now route.entry.from route.entry.to answer.text answer.status)) }
    ensures plain { IfOk result (λ answer. IsPrinted answer.status) }
    ensures same { F.files folders.new ≡ F.files folders.old }
    ensures failed { IsErrOf result ReadFault.Failed → FailsInFolder (F.files folders.old) (F.asked folders.old) (F.asked folders.new) route.entry.of.base.now route.entry.of.folder.now }
    ensures cause { HasReadCause (F.faults folders.old) (F.faults folders.new) result }
{
    let made = venue_of(alloc, route.of, folders)?;
    match made {
        Made::Stopped(answer) => Ok(answer),
        Made::Venue(venue) => routed(alloc, &venue, route.profile, route.from, route.to),
    }
}
