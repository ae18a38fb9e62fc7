//! What the cases run on: files, folders, streams and the station's venue, in memory.

ghost use Rattle.std.specs.Prelude.{◌≡◌, false, IfOk};
ghost use Rattle.std.specs.Arc.{arc_value};
ghost use Rattle.venue_ports.specs.Doors.{doors_ready};

use std::alloc::{AllocError, Global};
use std::process::Abort;
use std::sync::{Arc, Wait};
use std::test::Fail;
use std::thread::Threads;
use test_station::{Change, slots_of};
use venue_ports::{
    Disks, Doors, Folders, MemoryDisks, MemoryDoors, MemoryFile, MemoryFolders, MemoryStream,
    Stream,
};
use venue_program::{Built, Outcome, Venue, build, run};
use venue_types::{Settings, Text};

/// How the program ended, what it printed, and how often its folders and its doors failed.
#[derive(Drop)]
pub(super) struct Ended {
    pub status: u8,
    pub text: Vec<u8>,
    pub folder_faults: u64,
    pub door_faults: u64,
}

/// The bytes of these texts.
pub(crate) fn joined(alloc: Global, texts: &[&str]) -> Result<Vec<u8>, AllocError> {
    let mut bytes = Vec::new(alloc);
    for text in texts {
        bytes.extend_from_slice(text.as_bytes())?;
    }
    Ok(bytes)
}

pub(crate) fn file(
    alloc: Global,
    folder: &str,
    name: &str,
    bytes: Vec<u8>,
) -> Result<MemoryFile, AllocError> {
    Ok(MemoryFile {
        folder: String::from_str(alloc, folder)?,
        file: String::from_str(alloc, name)?,
        bytes,
    })
}

/// Folders of which the read with this number fails, counted from 1.
pub(crate) fn folders(
    alloc: Global,
    files: Vec<MemoryFile>,
    failing: u64,
) -> Result<MemoryFolders, Fail> {
    match MemoryFolders::new(files, vec![in alloc; failing]?) {
        Ok(folders) => Ok(folders),
        Err(_) => Err(Fail::new("no folders")),
    }
}

/// A stream with room for so many bytes, of which the read and the write with these numbers fail, counted from 1. Its input comes
/// in pieces of this size; whole, where that is 0.
pub(crate) fn stream(
    alloc: Global,
    input: Vec<u8>,
    piece: usize,
    room: usize,
    failing: [u64; 2],
) -> Result<MemoryStream, Fail> {
    let count = if piece == 0 { 0 } else { input.len() };
    let pieces = vec![in alloc; piece; count]?;
    let [read, write] = failing;
    let reads = vec![in alloc; read]?;
    let writes = vec![in alloc; write]?;
    match MemoryStream::new(alloc, input, pieces, room, reads, writes) {
        Ok(stream) => Ok(stream),
        Err(_) => Err(Fail::new("no stream")),
    }
}

/// Doors that are not bound. The bind and the accept with these numbers fail, counted from 1.
pub(crate) fn doors(
    alloc: Global,
    streams: Vec<MemoryStream>,
    failing: [u64; 2],
) -> Result<MemoryDoors, Fail>
    ensures { IfOk result (λ doors. doors_ready doors ≡ false) }
{
    let [bind, accept] = failing;
    let binds = vec![in alloc; bind]?;
    let accepts = vec![in alloc; accept]?;
    match MemoryDoors::new(alloc, streams, binds, accepts) {
        Ok(doors) => Ok(doors),
        Err(_) => Err(Fail::new("no doors")),
    }
}

/// The words as they are handed in.
pub(crate) fn owned(alloc: Global, words: &[&str]) -> Result<Vec<String>, AllocError> {
    let mut owned = Vec::new(alloc);
    for word in words {
        owned.push(String::from_str(alloc, word)?)?;
    }
    Ok(owned)
}

/// Runs the program of words that name no journal, over disks of which none is asked for and none comes back.
pub(crate) fn run_without_disks<D: Doors + Send + Drop, R: Abort + Threads + Wait + Sync>(
    rt: &R,
    alloc: Global,
    words: &[String],
    folders: MemoryFolders,
    doors: D,
    console: &mut MemoryStream,
) -> Result<Outcome<MemoryFolders, D, MemoryDisks>, Fail>
    requires { D.ready doors ≡ false }
{
    let mut disks = MemoryDisks::new(alloc, Vec::new(alloc), 0, 0, Vec::new(alloc))?;
    let outcome = run(rt, alloc, words, folders, doors, console, &mut disks);
    assert!(rt; outcome.disk.is_none());
    assert!(rt; disks.fault_count() == 0);
    Ok(outcome)
}

/// Runs the program.
pub(super) fn run_over<D: Doors + Send + Drop, R: Abort + Threads + Wait + Sync>(
    rt: &R,
    alloc: Global,
    words: &[&str],
    folders: MemoryFolders,
    doors: D,
    console: MemoryStream,
) -> Result<Ended, Fail>
    requires { D.ready doors ≡ false }
{
    let words = owned(alloc, words)?;
    let mut console = console;
    let outcome = run_without_disks(rt, alloc, words.as_slice(), folders, doors, &mut console)?;
    Ok(Ended {
        status: outcome.status.code(),
        text: Vec::from_slice(alloc, console.written())?,
        folder_faults: outcome.folders.fault_count(),
        door_faults: outcome.doors.fault_count(),
    })
}

/// Runs the program without doors. The read of a file, and the read and the write of the console with these numbers fail, counted
/// from 1 (0: none), and the console has room for so many bytes.
pub(super) fn run_without_doors(
    rt: &(impl Threads + Wait + Abort + Sync),
    alloc: Global,
    words: &[&str],
    files: Vec<MemoryFile>,
    input: Vec<u8>,
    failing: [u64; 3],
    room: usize,
) -> Result<Ended, Fail> {
    let [disk, read, write] = failing;
    let folders = folders(alloc, files, disk)?;
    let doors = doors(alloc, Vec::new(alloc), [0, 0])?;
    let console = stream(alloc, input, 0, room, [read, write])?;
    run_over(rt, alloc, words, folders, doors, console)
}

/// The station's venue.
pub(super) fn venue_of(alloc: Global, settings: &Settings) -> Result<Arc<Venue>, Fail>
    ensures { IfOk result (λ venue. (arc_value venue).settings ≡ settings.now) }
{
    let files = slots_of(alloc, Change::of(&[]))?;
    match build(alloc, &files, settings)? {
        Built::Venue(venue) => Ok(Arc::new(alloc, venue)?),
        Built::Rejected(_) => Err(Fail::new("the folder is rejected")),
    }
}

/// The base of all folders.
pub(super) fn base(alloc: Global) -> Result<Text, Fail> {
    Ok(Text::from_string(String::from_str(alloc, "base")?))
}
