//! What is written to a stream in memory, and what stood when its reads began.

ghost use Rattle.std.specs.Prelude.{◌≡◌, ◌-◌, ◌++◌, [], Some, IfOk, IsOk, min, take, length};
ghost use Rattle.venue_ports.specs.Begun.{add_start};
ghost use Rattle.venue_ports.specs.Plans.{room_left};

use crate::memory::OutOfMemory;
use crate::room::Room;
use std::alloc::Global;
use std::marker::Model;

/// Where a read began: how many bytes of the input had been read, and how many had been written.
#[derive(Clone, Copy)]
pub(crate) struct StartNote {
    read: usize,
    written: usize,
}

/// What was written, with a note of each read that began. The memory is taken at once; from the first read on for which there is
/// no room, nothing is told of any.
#[derive(Drop)]
pub(crate) struct Output {
    bytes: Room,
    notes: Vec<StartNote>,
    most: usize,
    ended: bool,
}

impl Model for Output {
    ghost use Rattle.std.specs.Prelude.{◌≤◌};
    ghost use Rattle.std.specs.List.{AllByRecursion};
    ghost use Rattle.std.specs.Vec.{vec_capacity};
    ghost use Rattle.venue_ports.specs.Begun.{Begun, IsWithin, begun};

    ghost Value = { Begun };

    ghost view = { λ o. begun o.bytes o.notes.items o.most o.ended };

    ghost invariant = { λ o. (o.most ≤ vec_capacity o.notes) × AllByRecursion (IsWithin o.bytes.bytes) o.notes.items };
}

impl Output {
    /// Nothing written and no read begun, with room for so many bytes and notes.
    pub(crate) fn new(alloc: Global, room: usize, most: usize) -> Result<Output, OutOfMemory>
        ensures held { IfOk result (λ o. o.held ≡ record { bytes = []; room = room }) }
        ensures starts { IfOk result (λ o. o.starts ≡ Some []) }
        ensures spare { IfOk result (λ o. o.spare ≡ most) }
        ensures succeeds { room ≡ 0 → most ≡ 0 → IsOk result }
    {
        let bytes = Room::new(alloc, room)?;
        let notes = Vec::with_capacity(alloc, most)?;
        Ok(Output {
            bytes,
            notes,
            most,
            ended: false,
        })
    }

    /// No room at all, which takes no memory.
    pub(crate) fn none(alloc: Global) -> Output
        ensures held { result.held ≡ record { bytes = []; room = 0 } }
        ensures starts { result.starts ≡ Some [] }
        ensures spare { result.spare ≡ 0 }
    {
        Output {
            bytes: Room::none(alloc),
            notes: Vec::new(alloc),
            most: 0,
            ended: false,
        }
    }

    /// What was written.
    pub(crate) fn bytes(&self) -> &[u8]
        ensures { result.now ≡ self.now.held.bytes }
    {
        self.bytes.bytes()
    }

    /// How many bytes more there is room for.
    pub(crate) fn left(&self) -> usize
        ensures { result ≡ room_left self.now.held }
    {
        self.bytes.left()
    }

    /// Notes that a read begins, behind so many bytes of the input.
    pub(crate) fn begin(&mut self, read: usize)
        ensures held { self.new.held ≡ self.old.held }
        ensures starts { self.new.starts ≡ add_start self.old.spare self.old.starts (record { read = read; written = self.old.held.bytes }) }
        ensures spare { self.new.spare ≡ self.old.spare - 1 }
    {
        let written = self.bytes.bytes().len();
        if self.notes.len() < self.most {
            let _ = self.notes.push(StartNote { read, written });
        } else {
            self.ended = true;
        }
    }

    /// Appends as much of a piece as there is room for, and answers how much that is.
    pub(crate) fn append(&mut self, piece: &[u8]) -> usize
        ensures moved { result ≡ min (room_left self.old.held) (length piece.now) }
        ensures appended { self.new.held ≡ record (self.old.held) { bytes = self.old.held.bytes ++ take result piece.now } }
        ensures starts { self.new.starts ≡ self.old.starts }
        ensures spare { self.new.spare ≡ self.old.spare }
    {
        self.bytes.append(piece)
    }
}
