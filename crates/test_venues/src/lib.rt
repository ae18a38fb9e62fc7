//! For tests alone: the station as a venue, and three folders that are published, in memory, which several crates' tests share. A feature
//! is named by the last digits of its identifier. No contract of the program rests on it.
#![tactic(auto)]

ghost use Rattle.std.specs.Prelude.{◌≡◌, IfOk};
ghost use Rattle.std.specs.Arc.{arc_value};
ghost use Rattle.venue_history.specs.Versions.{AreProfiles};

mod fault;

pub use fault::VenueFault;
use std::alloc::Global;
use std::sync::Arc;
use test_station::{Change, Edit, NO_LIFT, TALL, folder_files, slots_of};
use venue_history::{Built, Closing, Venue, build};
use venue_ports::{MemoryFile, MemoryFolders};
use venue_types::{FeatureId, ProfileSet, Settings, Text};

const NAMELESS: u128 = 0x4000_8000_0000_0000_0000;

/// The identifier that ends so.
pub fn id(tail: u128) -> FeatureId {
    FeatureId(NAMELESS | tail)
}

/// How an identifier ends.
pub fn tail(id: FeatureId) -> u128 {
    id.0.wrapping_sub(NAMELESS)
}

/// The closing, or the opening again, of the feature whose identifier ends so, for the profiles of a set, which these settings have.
pub fn closing(settings: &Settings, tail: u128, set: u16) -> Result<Closing, VenueFault>
    ensures { IfOk result (λ it. AreProfiles settings.now it.profiles) }
{
    let profiles = ProfileSet(set);
    let count = settings.profiles.len() as u32;
    if profiles.is_empty() || !profiles.within(count) {
        return Err(VenueFault::NoProfiles);
    }
    Ok(Closing {
        feature: id(tail),
        profiles,
    })
}

/// The station with changes, under these settings.
pub fn venue_of(
    alloc: Global,
    settings: &Settings,
    edits: &'static [Edit],
) -> Result<Arc<Venue>, VenueFault>
    ensures { IfOk result (λ venue. (arc_value venue).settings ≡ settings.now) }
{
    let files = slots_of(alloc, Change::of(edits))?;
    match build(alloc, &files, settings)? {
        Built::Venue(venue) => Ok(Arc::new(alloc, venue)?),
        Built::Rejected(_) => Err(VenueFault::Rejected),
    }
}

/// The path of the base below which the folders are.
pub fn base(alloc: Global) -> Result<Text, VenueFault> {
    Ok(Text::from_string(String::from_str(alloc, "base")?))
}

// Adds the files of a folder of the base.
fn add_folder(
    alloc: Global,
    files: &mut Vec<MemoryFile>,
    path: &str,
    edits: &'static [Edit],
) -> Result<(), VenueFault> {
    for file in folder_files(alloc, path, Change::of(edits))? {
        files.push(file)?;
    }
    Ok(())
}

/// The folders `station`, `tall`, which breaks a rule, and `nolift` below the base. The read with this number fails, counted from 1.
pub fn folders(alloc: Global, failing: u64) -> Result<MemoryFolders, VenueFault> {
    let mut files = Vec::new(alloc);
    add_folder(alloc, &mut files, "base/station", &[])?;
    add_folder(alloc, &mut files, "base/tall", &TALL)?;
    add_folder(alloc, &mut files, "base/nolift", &NO_LIFT)?;
    match MemoryFolders::new(files, vec![in alloc; failing]?) {
        Ok(folders) => Ok(folders),
        Err(_) => Err(VenueFault::OutOfMemory),
    }
}
