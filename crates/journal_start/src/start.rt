//! What a hall that keeps a journal is opened with.

ghost use Rattle.std.specs.Prelude.{◌≡◌, IfOk};
ghost use Rattle.std.specs.Arc.{arc_value};

use journal_restore::Kept;
use std::alloc::Global;
use std::sync::Arc;
use venue_ports::Disk;
use venue_types::{OutOfMemory, Settings, Text};
use venue_wire::Front;

/// The base with its settings, what judges the messages of its sessions, and the journal with the history for whose entries its records stand.
#[derive(Drop)]
pub struct KeptStart<K: Disk> {
    pub base: Text,
    pub front: Front,
    pub settings: Arc<Settings>,
    pub kept: Kept<K>,
    pub ghost settings_are: { kept.resumed.held.board.settings ≡ arc_value settings },
    pub ghost keys: { front ≡ (arc_value settings).staff_keys },
}

// The name of a base, and what judges the messages of its sessions.
pub(crate) fn named(
    alloc: Global,
    base: &str,
    settings: &Settings,
) -> Result<(Text, Front), OutOfMemory>
    ensures base { IfOk result (λ pair. pair.0 ≡ base.now) }
    ensures keys { IfOk result (λ pair. pair.1 ≡ settings.now.staff_keys) }
{
    let base = Text::from_string(String::from_str(alloc, base)?);
    let front = Front::new(alloc, &settings.staff_keys)?;
    Ok((base, front))
}
