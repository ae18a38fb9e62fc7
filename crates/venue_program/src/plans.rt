//! The plan of a service, made of what was opened, or of a history that goes on.

ghost use Rattle.std.specs.Prelude.{◌≡◌, ◌≤◌, length, string_bytes, IfOk};
ghost use Rattle.std.specs.Arc.{arc_value};
ghost use Rattle.journal_start.specs.Stamps.{entries_of};
ghost use Rattle.venue_service.specs.Openings.{opening_history};
ghost use Rattle.venue_service.specs.Copied.{entries_in};
ghost use Rattle.venue_program.specs.Services.{listening_line};
ghost use Rattle.venue_program.specs.Steps.{IsReadyOf};

use crate::ready::{Keys, Ready};
use journal_start::Resumed;
use std::alloc::{AllocError, Global};
use std::sync::{Arc, Wait};
use venue_commands::{ServiceOf, Start};
use venue_service::{Copies, Plan, opening_entries};
use venue_types::{OutOfMemory, Settings};

// The line that tells the address.
fn listening_text(alloc: Global, address: &str) -> Result<String, AllocError>
    ensures { IfOk result (λ text. string_bytes text ≡ listening_line address.now) }
{
    format!(in alloc; "listening {address}\n")
}

// The plan of a service. The files that the venue was made of are let go once its history is made.
fn plan_of<R: Wait>(
    rt: &R,
    alloc: Global,
    opening: Start,
    service: ServiceOf<'_>,
) -> Result<Plan, OutOfMemory>
    ensures opening { IfOk result (λ plan. entries_in plan.copies ≡ opening_history opening.venue) }
    ensures base { IfOk result (λ plan. plan.base ≡ opening.base) }
    ensures keys { IfOk result (λ plan. plan.front ≡ opening.front) }
    ensures workers { IfOk result (λ plan. plan.workers ≡ service.entry.workers) }
    ensures connections { IfOk result (λ plan. plan.connections ≡ service.entry.connections) }
{
    let Start {
        base,
        files: _files,
        venue,
        settings,
        front,
    } = opening;
    let entries = opening_entries(alloc, venue)?;
    match Copies::new(rt, alloc, settings, entries, service.workers) {
        Ok(copies) => Ok(Plan {
            copies,
            base,
            front,
            workers: service.workers,
            connections: service.connections,
        }),
        Err(OutOfMemory) => Err(OutOfMemory),
    }
}

// A plan whose workers are 1 to 16, its address and its line.
fn ready_with(plan: Plan, address: &str, listening: String) -> Ready<'_>
    requires some { 1 ≤ plan.workers }
    requires few { plan.workers ≤ 16 }
    requires short { length address.now ≤ 256 }
    requires line { string_bytes listening ≡ listening_line address.now }
    ensures plan { result.plan ≡ plan }
    ensures address { result.address.now ≡ address.entry.now }
{
    Ready {
        plan,
        address,
        listening,
    }
}

/// What a service is opened with.
pub(crate) fn ready_of<'w, R: Wait>(
    rt: &R,
    alloc: Global,
    opening: Start,
    service: ServiceOf<'w>,
) -> Result<Ready<'w>, OutOfMemory>
    ensures ready { IfOk result (IsReadyOf opening service.entry) }
{
    let listening = listening_text(alloc, service.address)?;
    let plan = plan_of(rt, alloc, opening, service)?;
    Ok(ready_with(plan, service.address, listening))
}

// Two copies of the board of a history that goes on, and the line that tells the address.
fn copies_and_line<R: Wait>(
    rt: &R,
    alloc: Global,
    settings: Arc<Settings>,
    resumed: Resumed,
    service: ServiceOf<'_>,
) -> Result<(Copies, String), OutOfMemory>
    requires { resumed.held.board.settings ≡ arc_value settings }
    ensures opening { IfOk result (λ pair. entries_in pair.0 ≡ entries_of resumed.held.stamp) }
    ensures line { IfOk result (λ pair. string_bytes pair.1 ≡ listening_line service.entry.address.now) }
{
    let listening = listening_text(alloc, service.address)?;
    let copies = Copies::of(rt, alloc, settings, resumed, service.workers)?;
    Ok((copies, listening))
}

/// What a service is opened with that goes on with a history.
pub(crate) fn kept_ready<'w, R: Wait>(
    rt: &R,
    alloc: Global,
    keys: Keys,
    resumed: Resumed,
    service: ServiceOf<'w>,
) -> Result<Ready<'w>, OutOfMemory>
    requires { resumed.held.board.settings ≡ arc_value keys.settings }
    ensures opening { IfOk result (λ ready. entries_in ready.plan.copies ≡ entries_of resumed.held.stamp) }
    ensures base { IfOk result (λ ready. ready.plan.base ≡ keys.base) }
    ensures keys { IfOk result (λ ready. ready.plan.front ≡ keys.front) }
    ensures workers { IfOk result (λ ready. ready.plan.workers ≡ service.entry.workers) }
    ensures connections { IfOk result (λ ready. ready.plan.connections ≡ service.entry.connections) }
    ensures address { IfOk result (λ ready. ready.address.now ≡ service.entry.address.now) }
{
    let Keys {
        base,
        front,
        settings,
    } = keys;
    let (copies, listening) = copies_and_line(rt, alloc, settings, resumed, service)?;
    let plan = Plan {
        copies,
        base,
        front,
        workers: service.workers,
        connections: service.connections,
    };
    Ok(ready_with(plan, service.address, listening))
}
