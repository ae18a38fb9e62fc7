//! What a hall is opened with.

ghost use Rattle.std.specs.Prelude.{◌≡◌, IfOk};
ghost use Rattle.std.specs.Arc.{arc_value};

use std::alloc::Global;
use std::sync::Arc;
use venue_session::{Front, Venue};
use venue_types::{Files, OutOfMemory, Settings, Text};

/// A venue of a base with its settings and the seventeen files that it was made of, and what judges the messages of its sessions.
/// The files are kept until a hall is open.
#[derive(Drop)]
pub struct Start {
    pub base: Text,
    pub files: Files,
    pub venue: Arc<Venue>,
    pub settings: Arc<Settings>,
    pub front: Front,
    pub ghost settings_are: { (arc_value venue).settings ≡ arc_value settings },
    pub ghost keys: { front ≡ (arc_value venue).settings.staff_keys },
}

impl Start {
    // What a hall is opened with, of its parts.
    fn of(
        base: Text,
        files: Files,
        venue: Arc<Venue>,
        settings: Arc<Settings>,
        front: Front,
    ) -> Start
        requires settings { (arc_value venue).settings ≡ arc_value settings }
        requires keys { front ≡ (arc_value venue).settings.staff_keys }
        ensures base { result.base ≡ base }
        ensures files { result.files ≡ files }
        ensures venue { arc_value result.venue ≡ arc_value venue }
        ensures settings { arc_value result.settings ≡ arc_value settings }
    {
        Start {
            base,
            files,
            venue,
            settings,
            front,
        }
    }
}

fn text_of(alloc: Global, base: &str) -> Result<Text, OutOfMemory>
    ensures { IfOk result (λ text. text ≡ base.now) }
{
    let text = String::from_str(alloc, base)?;
    Ok(Text::from_string(text))
}

fn front_of(alloc: Global, settings: &Settings) -> Result<Front, OutOfMemory>
    ensures { IfOk result (λ front. front ≡ settings.now.staff_keys) }
{
    Front::new(alloc, &settings.staff_keys)
}

fn shared_settings(alloc: Global, settings: &Settings) -> Result<Arc<Settings>, OutOfMemory>
    ensures { IfOk result (λ shared. arc_value shared ≡ settings.now) }
{
    let copy = settings.copy(alloc)?;
    let shared = Arc::new(alloc, copy)?;
    Ok(shared)
}

fn settings_of(alloc: Global, venue: &Venue) -> Result<Arc<Settings>, OutOfMemory>
    ensures { IfOk result (λ shared. arc_value shared ≡ venue.now.settings) }
{
    shared_settings(alloc, venue.settings())
}

fn shared_venue(alloc: Global, venue: Venue) -> Result<Arc<Venue>, OutOfMemory>
    ensures { IfOk result (λ shared. arc_value shared ≡ venue) }
{
    let shared = Arc::new(alloc, venue)?;
    Ok(shared)
}

// What a hall is opened with, of a venue and its settings.
fn opening_with(
    alloc: Global,
    base: Text,
    files: Files,
    venue: Arc<Venue>,
    settings: Arc<Settings>,
) -> Result<Start, OutOfMemory>
    requires { (arc_value venue).settings ≡ arc_value settings }
    ensures base { IfOk result (λ opening. opening.base ≡ base) }
    ensures files { IfOk result (λ opening. opening.files ≡ files) }
    ensures venue { IfOk result (λ opening. arc_value opening.venue ≡ arc_value venue) }
    ensures settings { IfOk result (λ opening. arc_value opening.settings ≡ arc_value settings) }
{
    let front = front_of(alloc, &settings)?;
    Ok(Start::of(base, files, venue, settings, front))
}

// What a hall is opened with, of a venue that others may share.
fn opening_at(
    alloc: Global,
    base: Text,
    files: Files,
    venue: Arc<Venue>,
) -> Result<Start, OutOfMemory>
    ensures base { IfOk result (λ opening. opening.base ≡ base) }
    ensures files { IfOk result (λ opening. opening.files ≡ files) }
    ensures venue { IfOk result (λ opening. arc_value opening.venue ≡ arc_value venue) }
    ensures settings { IfOk result (λ opening. arc_value opening.settings ≡ (arc_value venue).settings) }
{
    let settings = settings_of(alloc, &venue)?;
    opening_with(alloc, base, files, venue, settings)
}

/// What a hall is opened with, of a venue of the base, and the files that it was made of.
pub(crate) fn opening_of(
    alloc: Global,
    base: &str,
    files: Files,
    venue: Venue,
) -> Result<Start, OutOfMemory>
    ensures base { IfOk result (λ opening. opening.base ≡ base.now) }
    ensures files { IfOk result (λ opening. opening.files ≡ files) }
    ensures venue { IfOk result (λ opening. arc_value opening.venue ≡ venue) }
    ensures settings { IfOk result (λ opening. arc_value opening.settings ≡ venue.settings) }
{
    let venue = shared_venue(alloc, venue)?;
    let base = text_of(alloc, base)?;
    opening_at(alloc, base, files, venue)
}
