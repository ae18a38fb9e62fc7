//! What the words of a command line can ask for.

ghost use Rattle.std.specs.Prelude.{◌≤◌, length};
ghost use Rattle.venue_commands.specs.Commands.{IsBase, IsFolder, IsAddress};

use venue_types::{FeatureId, File};

/// The name of a base.
#[derive(Clone, Copy)]
pub struct Base<'w> {
    pub name: &'w str,
    pub ghost form: { IsBase name.now },
}

/// A folder of a base, by both names.
#[derive(Clone, Copy)]
pub struct FolderOf<'w> {
    pub base: &'w str,
    pub folder: &'w str,
    pub ghost base_form: { IsBase base.now },
    pub ghost folder_form: { IsFolder folder.now },
}

/// A file of a folder, in the fixed form.
#[derive(Clone, Copy)]
pub struct CanonOf<'w> {
    pub of: FolderOf<'w>,
    pub file: File,
}

/// The links of a folder for a profile, by its name.
#[derive(Clone, Copy)]
pub struct LinksOf<'w> {
    pub of: FolderOf<'w>,
    pub profile: &'w str,
}

/// A way through a folder for a profile, by its name, between two places.
#[derive(Clone, Copy)]
pub struct RouteOf<'w> {
    pub of: FolderOf<'w>,
    pub profile: &'w str,
    pub from: FeatureId,
    pub to: FeatureId,
}

/// How many levels a building has: 1 to 200.
#[derive(Clone, Copy)]
pub struct Levels {
    pub count: u8,
    pub ghost some: { 1 ≤ count },
    pub ghost few: { count ≤ 200 },
}

/// A service over a folder: where it listens, how many workers it has, 1 to 16, and how many connections it accepts, 1 to 1,000,000.
#[derive(Clone, Copy)]
pub struct ServiceOf<'w> {
    pub of: FolderOf<'w>,
    pub address: &'w str,
    pub workers: u8,
    pub connections: u32,
    pub ghost address_form: { IsAddress address.now },
    pub ghost some: { 1 ≤ workers },
    pub ghost few: { workers ≤ 16 },
    pub ghost connected: { 1 ≤ connections },
    pub ghost bounded: { connections ≤ 1000000 },
}

/// A folder of a base, and a journal of the base, by its name.
#[derive(Clone, Copy)]
pub struct JournalOf<'w> {
    pub of: FolderOf<'w>,
    pub journal: &'w str,
    pub ghost form: { IsFolder journal.now },
}

/// A service over a folder whose changes a journal of the base keeps.
#[derive(Clone, Copy)]
pub struct KeptServiceOf<'w> {
    pub service: ServiceOf<'w>,
    pub journal: &'w str,
    pub ghost form: { IsFolder journal.now },
}

/// A command that needs no doors and keeps no journal.
#[derive(Clone, Copy)]
pub enum LocalCommand<'w> {
    /// What a walk over a table of links costs.
    Price(Base<'w>),
    /// Whether a certificate proves an answer over a table of links.
    Verify(Base<'w>),
    /// Whether a folder makes a venue.
    Check(FolderOf<'w>),
    /// A file of a folder that makes a venue, in the fixed form.
    Canon(CanonOf<'w>),
    /// The links of a venue that a profile may use.
    Links(LinksOf<'w>),
    /// A cheapest way through a venue, with its certificate.
    Route(RouteOf<'w>),
    /// A building that is made by arithmetic.
    Gen(Levels),
    /// A session over the console.
    Session(FolderOf<'w>),
    /// No command has these words.
    Unknown,
}

/// What the words of a command line ask for.
#[derive(Clone, Copy)]
pub enum Command<'w> {
    Local(LocalCommand<'w>),
    /// Sessions over the connections that come through doors.
    Serve(ServiceOf<'w>),
    /// A session over the console whose changes a journal keeps.
    KeptSession(JournalOf<'w>),
    /// The same over connections.
    KeptServe(KeptServiceOf<'w>),
}
