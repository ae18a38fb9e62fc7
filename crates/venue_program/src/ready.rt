//! What a service is opened with.

ghost use Rattle.std.specs.Prelude.{◌≡◌, ◌≤◌, length, string_bytes};
ghost use Rattle.venue_program.specs.Services.{listening_line};

use std::sync::Arc;
use venue_service::Plan;
use venue_types::{Settings, Text};
use venue_wire::Front;

/// The plan of a service, its address, and the line that tells it.
#[derive(Drop)]
pub(crate) struct Ready<'w> {
    pub plan: Plan,
    pub address: &'w str,
    pub listening: String,
    pub ghost short: { length address.now ≤ 256 },
    pub ghost line: { string_bytes listening ≡ listening_line address.now },
    pub ghost some: { 1 ≤ plan.workers },
    pub ghost few: { plan.workers ≤ 16 },
}

/// The base of a hall, what judges the messages of its sessions, and its settings.
#[derive(Drop)]
pub(crate) struct Keys {
    pub base: Text,
    pub front: Front,
    pub settings: Arc<Settings>,
}
