//! What a stop may leave of a disk, moment by moment, drawn from the record of its calls.

use std::alloc::{AllocError, Global};
use venue_ports::{DiskCall, DiskCallKind, MemoryDisk};

// A write: its place, its length, and the bytes that it put.
#[derive(Clone, Copy)]
struct Piece<'a> {
    at: usize,
    count: usize,
    put: &'a [u8],
}

/// A moment of a disk: what stood when a sync last answered Ok, and what was written since. Behind it are the calls that are to
/// come, and the bytes that they put.
#[derive(Drop)]
pub(crate) struct Moment<'a> {
    synced: Vec<u8>,
    loose: Vec<Piece<'a>>,
    calls: &'a [DiskCall],
    put: &'a [u8],
}

// Writes over bytes, and past their end.
fn put_over(bytes: &mut Vec<u8>, at: usize, put: &[u8]) -> Result<(), AllocError> {
    let over = bytes.len().saturating_sub(at).min(put.len());
    let (front, back) = put.split_at(over);
    if let Some(part) = bytes.as_mut_slice().get_mut(at..at.saturating_add(over)) {
        part.copy_from_slice(front);
    }
    bytes.extend_from_slice(back)
}

impl<'a> Moment<'a> {
    /// The moment before the first call.
    pub(crate) fn first(alloc: Global, disk: &'a MemoryDisk) -> Result<Moment<'a>, AllocError> {
        Ok(Moment {
            synced: Vec::from_slice(alloc, disk.first())?,
            loose: Vec::new(alloc),
            calls: disk.calls(),
            put: disk.put(),
        })
    }

    // A sync answers Ok.
    fn settle(&mut self) -> Result<(), AllocError> {
        for piece in &self.loose {
            put_over(&mut self.synced, piece.at, piece.put)?;
        }
        self.loose.clear();
        Ok(())
    }

    // A write, of which the first of the bytes to come are put.
    fn write(&mut self, call: &DiskCall) -> Result<(), AllocError> {
        let (put, behind) = self.put.split_at(call.put.min(self.put.len()));
        self.put = behind;
        self.loose.push(Piece {
            at: call.at as usize,
            count: call.count,
            put,
        })?;
        Ok(())
    }

    /// Lets the next call pass, if there is one.
    pub(crate) fn go(&mut self) -> Result<(), AllocError> {
        let Some((call, behind)) = self.calls.split_first() else {
            return Ok(());
        };
        self.calls = behind;
        match call.kind {
            DiskCallKind::Len | DiskCallKind::Read => Ok(()),
            DiskCallKind::Sync if call.failed => Ok(()),
            DiskCallKind::Sync => self.settle(),
            DiskCallKind::Write => self.write(call),
        }
    }
}

// Numbers that look like chance, and are the same in each run.
#[derive(Drop)]
struct Draws {
    state: u64,
}

impl Draws {
    // One of so many numbers from 0 on, or 0 where there is none.
    fn below(&mut self, count: usize) -> usize {
        let product = self.state.wrapping_mul(6_364_136_223_846_793_005);
        self.state = product.wrapping_add(1_442_695_040_888_963_407);
        let drawn = (self.state >> 33) as usize;
        drawn.checked_rem(count).unwrap_or(0)
    }

    // A part of so many: none, all or some.
    fn part(&mut self, count: usize) -> usize {
        match self.below(3) {
            0 => 0,
            1 => count,
            _ => self.below(count),
        }
    }

    // A byte, those that a gate may have more often than others.
    fn byte(&mut self) -> u8 {
        match self.below(4) {
            0 => 0,
            1 => 1,
            _ => (self.below(256) & 255) as u8,
        }
    }
}

// What a torn write leaves: in front so many of its bytes, then up to a place what was there before, then one byte again and again.
#[derive(Clone, Copy)]
struct Tear {
    written: usize,
    kept: usize,
    any: u8,
}

// Tears the part of a disk that a write went to.
fn lay(part: &mut [u8], put: &[u8], tear: &Tear) {
    let count = tear.written.min(put.len()).min(part.len());
    part[..count].copy_from_slice(&put[..count]);
    if let Some(rest) = part.get_mut(tear.kept.max(count)..) {
        rest.fill(tear.any);
    }
}

/// Contents that a stop may leave, drawn one after the other.
#[derive(Drop)]
pub(crate) struct Images {
    draws: Draws,
    bytes: Vec<u8>,
    /// How many are drawn of a moment.
    pub(crate) each: usize,
}

impl Images {
    pub(crate) fn new(alloc: Global, each: usize) -> Images {
        Images {
            draws: Draws { state: 1 },
            bytes: Vec::new(alloc),
            each,
        }
    }

    // Tears the image by a write, which past the end may have lengthened it by any part of its bytes.
    fn tear(&mut self, piece: &Piece<'_>) -> Result<(), AllocError> {
        let tear = Tear {
            written: self.draws.part(piece.count),
            kept: self.draws.part(piece.count),
            any: self.draws.byte(),
        };
        let end = piece.at.saturating_add(piece.count);
        let past = end.saturating_sub(self.bytes.len());
        let length = self.bytes.len().saturating_add(self.draws.part(past));
        self.bytes.resize(length, tear.any)?;
        if let Some(part) = self.bytes.as_mut_slice().get_mut(piece.at..end.min(length)) {
            lay(part, piece.put, &tear);
        }
        Ok(())
    }

    /// One of the contents that a stop at a moment may leave.
    pub(crate) fn draw(&mut self, moment: &Moment<'_>) -> Result<&[u8], AllocError> {
        self.bytes.resize(moment.synced.len(), 0)?;
        self.bytes.as_mut_slice().copy_from_slice(&moment.synced);
        for piece in &moment.loose {
            self.tear(piece)?;
        }
        Ok(&self.bytes)
    }
}
