//! The command `links`.

ghost use Rattle.std.specs.Prelude.{◌≡◌, IfOk, IfErr, IfSome, IsErrOf};
ghost use Rattle.std.specs.List.{find};
ghost use Rattle.std.specs.Option.{option_copied};
ghost use Rattle.std.specs.Str.{bytes_eq};
ghost use Rattle.venue_ports.specs.Files.{HasReadCause};
ghost use Rattle.venue_ports.specs.declared.folders.ReadFault.TheVariants.{OutOfMemory as NoMemory};
ghost use Rattle.route_certificate.specs.Forms.{table_text, FitsTable};
ghost use Rattle.route_answers.specs.Tables.{table_of};
ghost use Rattle.venue_commands.specs.FaultOrder.{FailsInFolder};
ghost use Rattle.venue_commands.specs.Linked.{LinksOutput};
ghost use Rattle.venue_commands.specs.Steps.{IsLinked, IsPrinted};

use crate::base_venue::{Made, venue_of};
use crate::command::LinksOf;
use crate::printout::{Printout, printed};
use crate::status::Status;
use route_answers::allowed_table;
use route_certificate::write_table;
use std::alloc::Global;
use venue_ports::{Folders, ReadFault};
use venue_session::Venue;
use venue_types::{Bytes, OutOfMemory, Profile, Settings};

/// The profile of the settings that has this name.
pub(crate) fn profile_named<'a>(settings: &'a Settings, name: &str) -> Option<&'a Profile>
    ensures { option_copied result ≡ find (λ profile. bytes_eq profile.name name.now) settings.now.profiles }
{
    settings
        .profiles
        .as_slice()
        .iter()
        .find(|profile| profile.name.as_str() == name)
}

// The text of the links of a venue that a profile may use.
fn links_text(alloc: Global, venue: &Venue, profile: &Profile) -> Result<Bytes, OutOfMemory>
    ensures text { IfOk result (λ text. text ≡ table_text (table_of venue.now.features venue.now.settings profile.now)) }
    ensures fits { IfOk result (λ text. FitsTable (table_of venue.now.features venue.now.settings profile.now)) }
{
    let table = allowed_table(alloc, venue.graph(), profile)?;
    write_table(alloc, &table)
}

// The answer over a venue, for the name of a profile.
fn linked(alloc: Global, venue: &Venue, name: &str) -> Result<Printout, ReadFault>
    ensures told { IfOk result (IsLinked venue.now name.now) }
    ensures plain { IfOk result (λ answer. IsPrinted answer.status) }
    ensures memory { IfErr result (λ why. why ≡ NoMemory) }
{
    let Some(profile) = profile_named(venue.settings(), name) else {
        return Ok(printed(Status::Wrong, String::from_str(alloc, "profile\n")?));
    };
    match links_text(alloc, venue, profile) {
        Ok(text) => Ok(Printout {
            status: Status::Done,
            text,
        }),
        Err(OutOfMemory) => Err(ReadFault::OutOfMemory),
    }
}

/// The answer to `links BASE FOLDER PROFILE`.
pub(crate) fn links_answer<F: Folders>(
    alloc: Global,
    links: LinksOf<'_>,
    folders: &mut F,
) -> Result<Printout, ReadFault>
    ensures told { IfOk result (λ answer. IfSome (F.files folders.old) (λ files. LinksOutput files links.entry.of.base.now links.entry.of.folder.now links.entry.profile.now answer.text answer.status)) }
    ensures plain { IfOk result (λ answer. IsPrinted answer.status) }
    ensures same { F.files folders.new ≡ F.files folders.old }
    ensures failed { IsErrOf result ReadFault.Failed → FailsInFolder (F.files folders.old) (F.asked folders.old) (F.asked folders.new) links.entry.of.base.now links.entry.of.folder.now }
    ensures cause { HasReadCause (F.faults folders.old) (F.faults folders.new) result }
{
    let made = venue_of(alloc, links.of, folders)?;
    match made {
        Made::Stopped(answer) => Ok(answer),
        Made::Venue(venue) => linked(alloc, &venue, links.profile),
    }
}
