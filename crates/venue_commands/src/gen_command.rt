//! The answer to `gen LEVELS`.

ghost use Rattle.std.specs.Prelude.{◌≡◌, IfOk, IfErr};
ghost use Rattle.venue_commands.specs.Generated.{told_status, GenOutput};
ghost use Rattle.venue_commands.specs.Steps.{IsPrinted};

use crate::building::tell_building;
use crate::command::Levels;
use crate::printout::{Printout, printed};
use crate::status::Status;
use std::alloc::Global;
use venue_ports::ReadFault;
use venue_types::OutOfMemory;

// The status where the folder of the building is accepted or not.
fn status_of(accepted: bool) -> Status
    ensures { result ≡ told_status accepted }
{
    if accepted {
        Status::Done
    } else {
        Status::Negative
    }
}

/// The answer that tells of a building of 1 to 200 levels.
pub(crate) fn building_answer(alloc: Global, levels: Levels) -> Result<Printout, ReadFault>
    ensures told { IfOk result (λ answer. GenOutput levels.count answer.text answer.status) }
    ensures plain { IfOk result (λ answer. IsPrinted answer.status) }
    ensures memory { IfErr result (λ why. why ≡ ReadFault.OutOfMemory) }
{
    match tell_building(alloc, levels.count) {
        Ok(told) => Ok(printed(status_of(told.accepted), told.text)),
        Err(OutOfMemory) => Err(ReadFault::OutOfMemory),
    }
}
