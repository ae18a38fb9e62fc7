//! Room for bytes that is made once.

ghost use Rattle.std.specs.Prelude.{◌≡◌, ◌+◌, ◌≤◌, ◌++◌, [], IfOk, IsOk, OnOk, min, take, length, vec_len};
ghost use Rattle.std.specs.Vec.{vec_capacity};
ghost use Rattle.venue_ports.specs.Moments.{with_piece};
ghost use Rattle.venue_ports.specs.Plans.{Held, room_left};

use crate::memory::OutOfMemory;
use std::alloc::Global;
use std::marker::Model;

/// Bytes, and room for so many. The memory is taken at once, so that no later call can lack it.
#[derive(Drop)]
pub(crate) struct Room {
    bytes: Vec<u8>,
    room: usize,
}

impl Model for Room {
    ghost Value = { Held };

    ghost view = { λ r. record { bytes = r.bytes.items; room = r.room } };

    ghost invariant = { λ r. (vec_len r.bytes ≤ r.room) × (r.room ≤ vec_capacity r.bytes) };
}

impl Room {
    /// Empty room for so many bytes.
    pub(crate) fn new(alloc: Global, room: usize) -> Result<Room, OutOfMemory>
        ensures empty { IfOk result (λ r. r ≡ record { bytes = []; room = room }) }
        ensures succeeds { room ≡ 0 → IsOk result }
    {
        let bytes = Vec::with_capacity(alloc, room)?;
        Ok(Room { bytes, room })
    }

    /// No room at all, which takes no memory.
    pub(crate) fn none(alloc: Global) -> Room
        ensures { result ≡ record { bytes = []; room = 0 } }
    {
        Room {
            bytes: Vec::new(alloc),
            room: 0,
        }
    }

    /// The bytes.
    pub(crate) fn bytes(&self) -> &[u8]
        ensures { result.now ≡ self.now.bytes }
    {
        &self.bytes
    }

    /// How many bytes more there is room for.
    pub(crate) fn left(&self) -> usize
        ensures { result ≡ room_left self.now }
    {
        self.room - self.bytes.len()
    }

    /// Appends as much of a piece as there is room for, and answers how much that is.
    pub(crate) fn append(&mut self, piece: &[u8]) -> usize
        ensures moved { result ≡ min (room_left self.old) (length piece.now) }
        ensures appended { self.new ≡ record self.old { bytes = self.old.bytes ++ take result piece.now } }
    {
        let count = self.left().min(piece.len());
        match self.bytes.extend_from_slice(&piece[..count]) {
            Ok(()) => count,
            Err(_) => 0,
        }
    }

    /// Writes over what is there and past its end, where there is room.
    pub(crate) fn put(&mut self, at: usize, piece: &[u8])
        requires within { at ≤ length self.old.bytes }
        requires fits { at + length piece.now ≤ self.old.room }
        ensures { self.new ≡ record self.old { bytes = with_piece self.old.bytes at piece.now } }
    {
        let over = (self.bytes.len() - at).min(piece.len());
        self.bytes[at..at + over].copy_from_slice(&piece[..over]);
        self.append(&piece[over..]);
    }
}
