//! The first entry of a history.

ghost use Rattle.std.specs.Prelude.{◌≡◌, IfOk};
ghost use Rattle.std.specs.Arc.{arc_value};
ghost use Rattle.venue_history.specs.Histories.{IsLegal};
ghost use Rattle.venue_history.specs.Openings.{opening_history, HaveSettings};

use crate::entry::{Act, Entry};
use std::alloc::Global;
use std::sync::Arc;
use venue_build::{Venue, every_venue};
use venue_types::OutOfMemory;

/// The history that a venue opens: worker 0 publishes it.
pub fn opening_entries(alloc: Global, venue: Arc<Venue>) -> Result<Vec<Entry>, OutOfMemory>
    ensures entries { IfOk result (λ entries. entries.items ≡ opening_history venue) }
    ensures legal { IfOk result (λ entries. IsLegal entries.items) }
    ensures settings { IfOk result (λ entries. HaveSettings (arc_value venue).settings entries.items) }
{
    every_venue(&venue);
    let act = Act::Published(venue);
    let mut entries = Vec::new(alloc);
    entries.push(Entry { worker: 0, act })?;
    Ok(entries)
}
