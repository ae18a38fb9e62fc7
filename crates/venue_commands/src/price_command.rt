//! The command `price`.

ghost use Rattle.std.specs.Prelude.{◌≡◌, IfOk, IfSome, IsErrOf};
ghost use Rattle.venue_ports.specs.Files.{HasReadCause};
ghost use Rattle.venue_commands.specs.Files.{walk_name};
ghost use Rattle.venue_commands.specs.FaultOrder.{FailsOverTable};
ghost use Rattle.venue_commands.specs.Output.{priced_text, priced_status, PriceOutput};
ghost use Rattle.venue_commands.specs.Steps.{IsPrinted};

use crate::base::{table_of, walk_of};
use crate::command::Base;
use crate::printout::{Printout, printed, stopped};
use crate::status::Status;
use route_certificate::{Priced, price};
use std::alloc::{AllocError, Global};
use venue_ports::{Folders, ReadFault};

// The answer where the walk is priced.
fn priced(alloc: Global, outcome: Priced) -> Result<Printout, AllocError>
    ensures text { IfOk result (λ answer. answer.text ≡ priced_text outcome) }
    ensures status { IfOk result (λ answer. answer.status ≡ priced_status outcome) }
{
    match outcome {
        Priced::Cost(cost) => {
            let text = format!(in alloc; "cost {cost}\n")?;
            Ok(printed(Status::Done, text))
        }
        Priced::Broken(place) => {
            let text = format!(in alloc; "broken {place}\n")?;
            Ok(printed(Status::Negative, text))
        }
    }
}

/// The answer to `price BASE`.
pub(crate) fn price_answer<F: Folders>(
    alloc: Global,
    base: Base<'_>,
    folders: &mut F,
) -> Result<Printout, ReadFault>
    ensures told { IfOk result (λ answer. IfSome (F.files folders.old) (λ files. PriceOutput files base.entry.name.now answer.text answer.status)) }
    ensures plain { IfOk result (λ answer. IsPrinted answer.status) }
    ensures same { F.files folders.new ≡ F.files folders.old }
    ensures failed { IsErrOf result ReadFault.Failed → FailsOverTable (F.files folders.old) (F.asked folders.old) (F.asked folders.new) base.entry.name.now walk_name }
    ensures cause { HasReadCause (F.faults folders.old) (F.faults folders.new) result }
{
    let table = match table_of(alloc, base.name, folders)? {
        Ok(table) => table,
        Err(cause) => return Ok(stopped(alloc, "links.txt", cause)?),
    };
    let walk = match walk_of(alloc, base.name, &table, folders)? {
        Ok(walk) => walk,
        Err(cause) => return Ok(stopped(alloc, "walk.txt", cause)?),
    };
    Ok(priced(alloc, price(&table, &walk))?)
}
