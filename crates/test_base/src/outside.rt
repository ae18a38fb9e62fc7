//! The real directory, the console and what is made of their reports, and the objects in memory, each call once.

ghost use Rattle.std.specs.Prelude.{◌≡◌, IfOk, false, true};
ghost use Rattle.venue_ports.specs.Doors.{doors_ready};
ghost use Rattle.venue_ports.specs.Quiet.{quiet_ready};

use crate::reporters::{Calls, FailingFiles};
use std::alloc::{AllocError, Global};
use std::fs;
use std::io::ErrorKind;
use std::process::Abort;
use std::test::Fail;
use venue_ports::{
    Console, DirFolders, Doors, Failed, Folders, MemoryDoors, MemoryFile, MemoryFolders,
    MemoryStream, QuietDoors, ReadFault, Stream, same_files_law,
};

// Whether a file of the test's folder is read so.
fn reads<F: Folders>(
    rt: &impl Abort,
    alloc: Global,
    folders: &mut F,
    file: &str,
    most: u32,
    wanted: Option<&[u8]>,
) -> bool {
    match folders
        .read(alloc, "read_by_the_test", file, most as u64)
        .expect(rt, "a read")
    {
        Some(bytes) => wanted == Some(bytes.as_slice()),
        None => wanted.is_none(),
    }
}

fn judge_reads<F: Folders>(rt: &impl Abort, alloc: Global, folders: &mut F) {
    assert!(rt; reads(rt, alloc, folders, "a.txt", 10, Some(b"hello")));
    assert!(rt; reads(rt, alloc, folders, "a.txt", 2, Some(b"hel")));
    assert!(rt; reads(rt, alloc, folders, "b.txt", 10, None));
    assert!(rt; folders.fault_count() == 0);
    let unreadable = folders.read(alloc, ".", "read_by_the_test", 10);
    assert!(rt; matches!(unreadable, Err(ReadFault::Failed)));
    assert!(rt; folders.fault_count() == 1);
}

#[test]
fn the_real_directory_is_read(rt: HostRuntime) -> Result<(), Fail> {
    fs::create_dir_all(&rt, "read_by_the_test")?;
    fs::write(&rt, "read_by_the_test/a.txt", "hello")?;
    judge_reads(&rt, rt.alloc(), &mut DirFolders::new(&rt));
    fs::remove_dir_all(&rt, "read_by_the_test")?;
    Ok(())
}

#[test]
fn the_console_is_read_and_written(rt: HostRuntime) -> Result<(), Fail> {
    let mut console = Console::new(&rt);
    assert!(rt; console.read(&mut [0; 4]).expect(&rt, "an empty input") == 0);
    assert!(rt; console.write(b"o").expect(&rt, "a write of one byte") == 1);
    assert!(rt; console.write(b"ut\n").expect(&rt, "a write") == 3);
    assert!(rt; console.fault_count() == 0);
    Ok(())
}

// A file two folders down.
fn judge_path<F: Folders>(rt: &impl Abort, alloc: Global, folders: &mut F) -> Result<(), Fail> {
    let read = folders.read(alloc, "a/b", "venue.toml", 10);
    assert!(rt; read.expect(rt, "a read").ok_or("missing")?.as_slice() == b"kx = 1".as_slice());
    Ok(())
}

// The fault that an error of this kind is told as, if any.
fn judge_kind(rt: &impl Abort, alloc: Global, kind: ErrorKind, fault: Option<ReadFault>) {
    let mut folders = DirFolders::new(FailingFiles(kind));
    let found = folders.read(alloc, "a", "b", 10);
    assert!(rt; found.err() == fault);
    assert!(rt; folders.fault_count() == u64::from(fault == Some(ReadFault::Failed)));
}

// What is told of a call that reports so many bytes, or fails.
fn judge_calls(
    rt: &impl Abort,
    reported: Option<usize>,
    read: Result<usize, Failed>,
    write: Result<usize, Failed>,
) {
    let mut console = Console::new(Calls(reported));
    assert!(rt; console.read(&mut [0; 4]) == read);
    assert!(rt; console.write(b"ab") == write);
    assert!(rt; console.fault_count() == u64::from(read.is_err()) + u64::from(write.is_err()));
}

fn judge_kinds(rt: &impl Abort, alloc: Global) {
    for (kind, fault) in [
        (ErrorKind::NotFound, None),
        (ErrorKind::OutOfMemory, Some(ReadFault::OutOfMemory)),
        (ErrorKind::PermissionDenied, Some(ReadFault::Failed)),
    ] {
        judge_kind(rt, alloc, kind, fault);
    }
}

fn judge_reported(rt: &impl Abort) {
    for (reported, read, write) in [
        (Some(0), Ok(0), Err(Failed)),
        (Some(1), Ok(1), Ok(1)),
        (None, Err(Failed), Err(Failed)),
    ] {
        judge_calls(rt, reported, read, write);
    }
}

#[test]
fn reports_are_told(rt: HostRuntime) -> Result<(), Fail> {
    fs::create_dir_all(&rt, "a/b")?;
    fs::write(&rt, "a/b/venue.toml", "kx = 1")?;
    judge_path(&rt, rt.alloc(), &mut DirFolders::new(&rt))?;
    fs::remove_dir_all(&rt, "a")?;
    judge_kinds(&rt, rt.alloc());
    judge_reported(&rt);
    Ok(())
}

// A folder with a file of five bytes, of which the second read fails.
fn folders_of(alloc: Global) -> Result<MemoryFolders, Fail> {
    let mut files = Vec::new(alloc);
    files.push(MemoryFile {
        folder: String::from_str(alloc, "a")?,
        file: String::from_str(alloc, "b")?,
        bytes: Vec::from_slice(alloc, b"hello")?,
    })?;
    match MemoryFolders::new(files, Vec::from_slice(alloc, &[2])?) {
        Ok(folders) => Ok(folders),
        Err(_) => Err(Fail::new("no folders")),
    }
}

#[test]
fn folders_in_memory_follow_their_plans(rt: HostRuntime) -> Result<(), Fail> {
    let alloc = rt.alloc();
    let mut folders = folders_of(alloc)?;
    for fails in [false, true, false] {
        assert!(rt; folders.read(alloc, "a", "b", 5).is_err() == fails);
    }
    assert!(rt; folders.fault_count() == 1);
    same_files_law();
    Ok(())
}

// Five bytes in pieces of one, nine and none, of which the second read fails; room for three, where the first write fails.
fn stream_of(alloc: Global) -> Result<MemoryStream, Fail> {
    let input = Vec::from_slice(alloc, b"hello")?;
    let pieces = Vec::from_slice(alloc, &[1, 9, 0])?;
    let reads = Vec::from_slice(alloc, &[2])?;
    let writes = Vec::from_slice(alloc, &[1])?;
    match MemoryStream::new(alloc, input, pieces, 3, reads, writes) {
        Ok(stream) => Ok(stream),
        Err(_) => Err(Fail::new("no stream")),
    }
}

fn follow_the_plan(rt: &impl Abort, stream: &mut MemoryStream) {
    let mut buf = [0; 8];
    for answer in [Ok(1), Err(Failed), Ok(1), Ok(3), Ok(0)] {
        assert!(rt; stream.read(&mut buf) == answer);
    }
    for answer in [Err(Failed), Ok(2), Ok(1), Err(Failed)] {
        assert!(rt; stream.write(b"ab") == answer);
    }
    assert!(rt; stream.written() == b"aba".as_slice());
    assert!(rt; stream.fault_count() == 3);
}

// Doors to which these streams come in turn.
fn quiet_doors(alloc: Global, stream: MemoryStream) -> Result<QuietDoors, Fail>
    ensures { IfOk result (λ doors. quiet_ready doors ≡ false) }
{
    let mut streams = Vec::new(alloc);
    streams.push(stream)?;
    match QuietDoors::new(alloc, streams) {
        Ok(doors) => Ok(doors),
        Err(_) => Err(Fail::new("no doors")),
    }
}

// A stream of nothing.
fn follow_past<S: Stream>(rt: &impl Abort, past: &mut S) {
    assert!(rt; past.read(&mut [0; 8]) == Ok(0));
    assert!(rt; past.write(b"ab") == Err(Failed));
}

// Doors to which the stream comes that followed its plan, and then none.
fn follow_quiet_doors(rt: &impl Abort, doors: &mut QuietDoors)
    requires { quiet_ready doors.old ≡ false }
{
    doors.bind("127.0.0.1:80").expect(rt, "a bind");
    assert!(rt; doors.accept().expect(rt, "the stream").written() == b"aba".as_slice());
    let mut past = doors.accept().expect(rt, "an empty stream");
    follow_past(rt, &mut past);
}

#[test]
fn the_objects_in_memory_follow_their_plans(rt: HostRuntime) -> Result<(), Fail> {
    let alloc = rt.alloc();
    let mut stream = stream_of(alloc)?;
    follow_the_plan(&rt, &mut stream);
    let mut doors = quiet_doors(alloc, stream)?;
    follow_quiet_doors(&rt, &mut doors);
    Ok(())
}

// Accepts a stream with this input, or fails where there is none.
fn check_accept(rt: &impl Abort, doors: &mut MemoryDoors, input: Option<&[u8]>)
    requires { doors_ready doors.old ≡ true }
    ensures { doors_ready doors.new ≡ true }
{
    match doors.accept() {
        Err(_) => assert!(rt; input.is_none()),
        Ok(mut stream) => {
            let mut buf = [0; 8];
            let count = stream.read(&mut buf).expect(rt, "a read");
            assert!(rt; Some(&buf[..count]) == input);
        }
    }
}

// A stream of this input alone.
fn input_stream(rt: &impl Abort, alloc: Global, text: &str) -> Result<MemoryStream, AllocError> {
    let input = Vec::from_slice(alloc, text.as_bytes())?;
    let none = Vec::new(alloc);
    let stream = MemoryStream::new(alloc, input, none, 0, Vec::new(alloc), Vec::new(alloc));
    Ok(stream.expect(rt, "a memory stream"))
}

fn two_streams(rt: &impl Abort, alloc: Global) -> Result<Vec<MemoryStream>, AllocError> {
    let mut streams = Vec::new(alloc);
    for text in ["first", "second"] {
        streams.push(input_stream(rt, alloc, text)?)?;
    }
    Ok(streams)
}

// Doors to which two streams come, where the first bind and the second accept fail.
fn failing_doors(rt: &impl Abort, alloc: Global) -> Result<MemoryDoors, AllocError>
    ensures { IfOk result (λ doors. doors_ready doors ≡ false) }
{
    let failing_binds = Vec::from_slice(alloc, &[1])?;
    let failing_accepts = Vec::from_slice(alloc, &[2])?;
    let streams = two_streams(rt, alloc)?;
    let doors = MemoryDoors::new(alloc, streams, failing_binds, failing_accepts);
    Ok(doors.expect(rt, "doors"))
}

fn follow_binds(rt: &impl Abort, doors: &mut MemoryDoors)
    requires { doors_ready doors.old ≡ false }
    ensures { doors_ready doors.new ≡ true }
{
    assert!(rt; doors.bind("127.0.0.1:80").is_err());
    assert!(rt; doors.fault_count() == 1);
    doors.bind("127.0.0.1:81").expect(rt, "a bind");
    assert!(rt; doors.fault_count() == 1);
}

#[test]
fn doors_in_memory_follow_their_plans(rt: HostRuntime) -> Result<(), Fail> {
    let mut doors = failing_doors(&rt, rt.alloc())?;
    follow_binds(&rt, &mut doors);
    check_accept(&rt, &mut doors, Some(b"first"));
    check_accept(&rt, &mut doors, None);
    check_accept(&rt, &mut doors, Some(b"second"));
    check_accept(&rt, &mut doors, Some(b""));
    assert!(rt; doors.fault_count() == 2);
    Ok(())
}
