//! Disks in memory at each moment, and a real one.

use std::alloc::Global;
use std::fs::{self, File};
use std::os::unix::fs::PermissionsExt;
use std::process::Abort;
use std::rt::Files;
use std::test::Fail;
use venue_ports::{
    Disk, DiskCall, DiskCallKind, Disks, FileDisk, FileDisks, MemoryDisk, MemoryDisks, MemoryFile,
    left_law, read_is_left_law,
};

// The bytes of a disk, at most so many.
fn read_all<D: Disk>(disk: &mut D, buf: &mut [u8]) -> Option<usize> {
    let len = usize::try_from(disk.len().ok()?).ok()?;
    let part = buf.get_mut(..len)?;
    disk.read(0, part).ok()?;
    Some(len)
}

// Compares what a read gives.
fn check_reads<D: Disk>(rt: &impl Abort, disk: &mut D, reads: &[u8]) {
    let mut buf = [0; 16];
    let len = read_all(disk, &mut buf).unwrap_or(0);
    assert!(rt; buf.get(..len).unwrap_or(&[]) == reads);
}

// Writes at a place up to the end.
fn write_within<D: Disk>(disk: &mut D, at: u64, piece: &[u8]) -> Option<()> {
    if piece.is_empty() || disk.len().ok()? < at || at.checked_add(piece.len() as u64)? >> 63 != 0 {
        return None;
    }
    disk.write(at, piece).ok()
}

// Disks of one file, 5 6 7 at first.
fn disks_of(
    alloc: Global,
    first: &[u8],
    room: usize,
    failing: &[u64],
) -> Result<MemoryDisks, Fail> {
    let mut files = Vec::new(alloc);
    files.push(MemoryFile {
        folder: String::from_str(alloc, "base")?,
        file: String::from_str(alloc, "log")?,
        bytes: Vec::from_slice(alloc, first)?,
    })?;
    let failing = Vec::from_slice(alloc, failing)?;
    Ok(MemoryDisks::new(alloc, files, room, 32, failing)?)
}

// What a stop at the newest moment may leave.
#[derive(Drop)]
struct Images {
    base: Vec<u8>,
    reads: Vec<u8>,
    // The places below the base's end that may have any byte.
    free: Vec<usize>,
    most: usize,
}

// Puts bytes over others and past their end.
fn put_over(bytes: &mut Vec<u8>, at: usize, put: &[u8]) -> Result<(), Fail> {
    for (i, byte) in put.iter().enumerate() {
        match bytes.get_mut(at.saturating_add(i)) {
            Some(place) => *place = *byte,
            None => bytes.push(*byte)?,
        }
    }
    Ok(())
}

// Read from the record of the disk's calls.
fn images_of(alloc: Global, disk: &MemoryDisk) -> Result<Images, Fail> {
    let mut images = Images {
        base: Vec::from_slice(alloc, disk.first())?,
        reads: Vec::from_slice(alloc, disk.first())?,
        free: Vec::new(alloc),
        most: disk.first().len(),
    };
    let mut rest = disk.put();
    for call in disk.calls() {
        match call.kind {
            DiskCallKind::Len | DiskCallKind::Read => {}
            DiskCallKind::Sync => {
                if !call.failed {
                    images.base = Vec::from_slice(alloc, &images.reads)?;
                    images.free.clear();
                    images.most = images.base.len();
                }
            }
            DiskCallKind::Write => {
                let at = call.at as usize;
                let put = rest.get(..call.put).ok_or("a shorter record")?;
                rest = rest.get(call.put..).ok_or("a shorter record")?;
                put_over(&mut images.reads, at, put)?;
                let end = at.saturating_add(call.count);
                for place in at..end.min(images.base.len()) {
                    images.free.push(place)?;
                }
                images.most = images.most.max(end);
            }
        }
    }
    Ok(images)
}

// A write at a place, or a sync.
#[derive(Clone, Copy)]
enum Step<'a> {
    Write(u64, &'a [u8]),
    Sync,
}

// The steps one after the other, whether they fail or not.
fn go<D: Disk>(disk: &mut D, steps: &[Step<'_>]) {
    for step in steps {
        match step {
            Step::Write(at, piece) => {
                let _ = write_within(disk, *at, piece);
            }
            Step::Sync => {
                let _ = disk.sync();
            }
        }
    }
}

// Compares what a stop may leave with a base, the places that are free in it and the greatest length.
fn check_images(rt: &impl Abort, images: &Images, base: &[u8], free: &[usize], most: usize) {
    assert!(rt; images.base.as_slice() == base);
    assert!(rt; images.free.as_slice() == free);
    assert!(rt; images.most == most);
}

// The disk of the one file in these disks.
fn opened(rt: &impl Abort, mut disks: MemoryDisks) -> MemoryDisk {
    disks.open_disk("base", "log").expect(rt, "a disk")
}

// A call that is to fail, 0 for none; how many steps are made; what is read after them, the base, its free places and the
// greatest length.
type Stop = (
    u64,
    usize,
    &'static [u8],
    &'static [u8],
    &'static [usize],
    usize,
);

const FIRST: &[u8] = &[5, 6, 7];

const LONG: &[u8] = &[5, 8, 7, 9, 9];

static STOPS: [Stop; 7] = [
    (0, 0, FIRST, FIRST, &[], 3),
    (0, 1, &[5, 8, 7], FIRST, &[1], 3),
    (0, 2, LONG, FIRST, &[1], 5),
    (0, 3, LONG, LONG, &[], 5),
    (0, 4, &[5, 8, 7, 9, 1, 2, 3], LONG, &[4], 7),
    (2, 2, &[5, 6, 7, 9, 9], FIRST, &[1], 5),
    (5, 3, LONG, FIRST, &[1], 5),
];

// A disk of which this call is to fail, 0 for none.
fn failing_disk(rt: &impl Abort, alloc: Global, failing: u64) -> Result<MemoryDisk, Fail> {
    let all = [failing];
    let failing = if failing == 0 { &[] } else { all.as_slice() };
    let disks = disks_of(alloc, FIRST, 64, failing)?;
    Ok(opened(rt, disks))
}

// So many of four steps.
fn go_steps<D: Disk>(disk: &mut D, count: usize) {
    let steps = [
        Step::Write(1, &[8]),
        Step::Write(3, &[9, 9]),
        Step::Sync,
        Step::Write(4, &[1, 2, 3]),
    ];
    go(disk, &steps[..count.min(steps.len())]);
}

fn judge_stop(
    rt: &impl Abort,
    alloc: Global,
    disk: &mut MemoryDisk,
    row: &Stop,
) -> Result<(), Fail> {
    let (failing, count, reads, base, free, most) = *row;
    go_steps(disk, count);
    let images = images_of(alloc, disk)?;
    assert!(rt; images.reads.as_slice() == reads);
    check_images(rt, &images, base, free, most);
    check_reads(rt, disk, reads);
    assert!(rt; disk.fault_count() == u64::from(failing != 0));
    Ok(())
}

fn judge_stops(rt: &impl Abort, alloc: Global, rows: &[Stop]) -> Result<(), Fail> {
    for row in rows {
        let mut disk = failing_disk(rt, alloc, row.0)?;
        judge_stop(rt, alloc, &mut disk, row)?;
    }
    Ok(())
}

#[test]
fn a_stop_leaves_what_was_synced_torn_by_what_was_written(rt: HostRuntime) -> Result<(), Fail> {
    judge_stops(&rt, rt.alloc(), &STOPS)?;
    read_is_left_law();
    left_law();
    Ok(())
}

// All texts of 0 and 1 of at most five bytes.
fn short_texts(alloc: Global) -> Result<Vec<Vec<u8>>, Fail> {
    let mut texts = Vec::new(alloc);
    for len in 0..6u32 {
        for bits in 0..32u8 {
            let mut text = Vec::new(alloc);
            for place in 0..len {
                text.push((bits >> place) & 1)?;
            }
            if bits.checked_shr(len) == Some(0) {
                texts.push(text)?;
            }
        }
    }
    Ok(texts)
}

// Whether bytes are torn of others in a range.
fn is_torn(at: usize, count: usize, old: &[u8], new: &[u8]) -> bool {
    let end = at.saturating_add(count);
    for (place, byte) in old.iter().enumerate() {
        if (place < at || end <= place) && new.get(place) != Some(byte) {
            return false;
        }
    }
    old.len() <= new.len() && new.len() <= old.len().max(end)
}

// The texts that are torn of one of others by a write.
fn torn_of(
    alloc: Global,
    left: &[Vec<u8>],
    texts: &[Vec<u8>],
    call: &DiskCall,
) -> Result<Vec<Vec<u8>>, Fail> {
    let (at, count) = (call.at as usize, call.count);
    let mut torn = Vec::new(alloc);
    for text in texts {
        if left.iter().any(|old| is_torn(at, count, old, text)) {
            torn.push(Vec::from_slice(alloc, text)?)?;
        }
    }
    Ok(torn)
}

// What is left of three zeros after these calls.
fn left_of(alloc: Global, calls: &[DiskCall]) -> Result<Vec<Vec<u8>>, Fail> {
    let texts = short_texts(alloc)?;
    let mut left = Vec::new(alloc);
    left.push(Vec::from_slice(alloc, &[0, 0, 0])?)?;
    for call in calls {
        if call.kind == DiskCallKind::Write {
            left = torn_of(alloc, left.as_slice(), texts.as_slice(), call)?;
        }
    }
    Ok(left)
}

fn judge_left(rt: &impl Abort, left: &[Vec<u8>]) {
    assert!(rt; left.len() == 12);
    for text in left {
        assert!(rt; text.first() == Some(&0));
        assert!(rt; text.len() == 3 || text.len() == 4);
    }
}

#[test]
fn exactly_twelve_short_texts_are_left(rt: HostRuntime) -> Result<(), Fail> {
    let disks = disks_of(rt.alloc(), &[0, 0, 0], 64, &[])?;
    let mut disk = opened(&rt, disks);
    go(
        &mut disk,
        &[Step::Sync, Step::Write(1, &[1]), Step::Write(2, &[1, 1])],
    );
    let left = left_of(rt.alloc(), disk.calls())?;
    judge_left(&rt, left.as_slice());
    Ok(())
}

// A write, a read, a sync and a length, one of which is to fail, and a second length where the first call is.
fn call_each<D: Disk>(disk: &mut D, failing: u64) {
    let mut buf = [0; 16];
    let _ = write_within(disk, 1, &[8, 9]);
    let _ = read_all(disk, &mut buf);
    let _ = disk.sync();
    let _ = disk.len();
    if failing == 1 {
        let _ = disk.len();
    }
}

// A write that fails puts so many bytes.
fn judge_turn(
    rt: &impl Abort,
    alloc: Global,
    failing: u64,
    put: usize,
    torn: &[u8],
) -> Result<(), Fail> {
    let puts = Vec::from_slice(alloc, &[put])?;
    let disks = disks_of(alloc, FIRST, 64, &[failing])?.tearing(puts);
    let mut disk = opened(rt, disks);
    call_each(&mut disk, failing);
    assert!(rt; disk.fault_count() == 1);
    let reads: &[u8] = match failing {
        1 => &[5, 6, 7],
        2 => torn,
        _ => &[5, 8, 9],
    };
    check_reads(rt, &mut disk, reads);
    Ok(())
}

#[test]
fn each_call_fails_in_its_turn(rt: HostRuntime) -> Result<(), Fail> {
    for failing in 1..7 {
        for (put, torn) in [(0, &[5, 6, 7]), (1, &[5, 8, 7]), (2, &[5, 8, 9])] {
            judge_turn(&rt, rt.alloc(), failing, put, torn)?;
        }
    }
    Ok(())
}

// Disks whose one disk is taken, and that disk.
fn judge_opens<D: Disks>(rt: &impl Abort, disks: &mut D) -> D::Disk {
    assert!(rt; disks.open_disk("base", "other").is_err());
    let disk = disks.open_disk("base", "log").expect(rt, "a disk");
    assert!(rt; disks.open_disk("base", "log").is_err());
    assert!(rt; disks.fault_count() == 2);
    disk
}

// A disk with room for four bytes and 32 calls.
fn judge_room(rt: &impl Abort, disk: &mut MemoryDisk) {
    assert!(rt; write_within(disk, 3, &[9, 9]) == None);
    assert!(rt; disk.fault_count() == 1);
    check_reads(rt, disk, [5, 6, 7].as_slice());
    for _ in 0..28 {
        assert!(rt; disk.sync().is_ok());
    }
    assert!(rt; disk.sync().is_err());
    assert!(rt; disk.len().is_err());
    assert!(rt; disk.calls().len() == 32);
}

// Disks that are never opened.
fn judge_closed(rt: &impl Abort, alloc: Global) -> Result<(), Fail> {
    let mut closed = disks_of(alloc, FIRST, 64, &[0])?;
    assert!(rt; closed.open_disk("base", "log").is_err());
    assert!(rt; closed.fault_count() == 1);
    Ok(())
}

// Disks without room for their file.
fn judge_small(rt: &impl Abort, alloc: Global) -> Result<(), Fail> {
    let mut small = disks_of(alloc, FIRST, 2, &[])?;
    assert!(rt; small.open_disk("base", "log").is_err());
    Ok(())
}

#[test]
fn a_disk_without_room_fails(rt: HostRuntime) -> Result<(), Fail> {
    judge_closed(&rt, rt.alloc())?;
    judge_small(&rt, rt.alloc())?;
    let mut disks = disks_of(rt.alloc(), FIRST, 4, &[])?;
    let mut disk = judge_opens(&rt, &mut disks);
    judge_room(&rt, &mut disk);
    Ok(())
}

// A real file of three bytes.
fn judge_file(rt: &impl Abort, disk: &mut FileDisk) {
    let mut buf = [0; 16];
    assert!(rt; write_within(disk, 2, b"de") == Some(()));
    assert!(rt; disk.sync().is_ok());
    check_reads(rt, disk, b"abde".as_slice());
    assert!(rt; disk.read(3, &mut buf).is_err());
    assert!(rt; disk.fault_count() == 1);
}

// A file is open once at a time.
fn judge_holding<D: Disks<Disk = FileDisk>>(rt: &impl Abort, disks: &mut D) {
    let mut disk = disks
        .open_disk("disks_of_the_test", "log")
        .expect(rt, "a disk");
    judge_file(rt, &mut disk);
    assert!(rt; disks.open_disk("disks_of_the_test", "log").is_err());
}

fn judge_files<D: Disks<Disk = FileDisk>>(rt: &impl Abort, disks: &mut D) {
    let mut again = disks
        .open_disk("disks_of_the_test", "log")
        .expect(rt, "a disk");
    check_reads(rt, &mut again, b"abde".as_slice());
    drop(again);
    assert!(rt; disks.open_disk("disks_of_the_test", "folder").is_err());
    assert!(rt; disks.open_disk("disks_of_the_test", "missing").is_err());
    assert!(rt; disks.fault_count() == 3);
}

// One without right to write, which the system's first user has all the same.
fn judge_rights<R: Abort + Files<File = File>, D: Disks>(
    rt: &R,
    disks: &mut D,
) -> Result<(), Fail> {
    let path = "disks_of_the_test/log.journal";
    fs::set_permissions(rt, path, fs::Permissions::from_mode(0o444))?;
    let may_write = fs::OpenOptions::new().write(true).open(rt, path).is_ok();
    assert!(rt; disks.open_disk("disks_of_the_test", "log").is_ok() == may_write);
    Ok(())
}

// No file is made.
fn judge_missing<R: Abort + Files>(rt: &R) {
    assert!(rt; fs::metadata(rt, "disks_of_the_test/missing.journal").is_err());
}

#[test]
fn a_real_file_is_a_disk(rt: HostRuntime) -> Result<(), Fail> {
    fs::create_dir_all(&rt, "disks_of_the_test/folder.journal")?;
    fs::write(&rt, "disks_of_the_test/log.journal", "abc")?;
    let mut disks = FileDisks::new(&rt);
    judge_holding(&rt, &mut disks);
    judge_files(&rt, &mut disks);
    judge_missing(&rt);
    judge_rights(&rt, &mut disks)?;
    fs::remove_dir_all(&rt, "disks_of_the_test")?;
    Ok(())
}
