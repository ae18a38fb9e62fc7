//! The bytes that were read and wait to be acted on.

ghost use Rattle.std.specs.Prelude.{◌≡◌, ◌+◌, ◌-◌, ◌≤◌, ◌<◌, [], ◌++◌, ℕ, List, length, take, drop, slice_range, IfOk, OnErr};
ghost use Rattle.std.specs.Vec.{vec_capacity};
ghost use Rattle.std.specs.Io.KnownBytes.{Consumes, IsAtEnd};
ghost use Rattle.venue_ports.specs.Causes.{HasExactCause};
ghost use Rattle.venue_ports.specs.Moves.{MovesIn};
ghost use Rattle.venue_ports.specs.Starts.{start_at, TellsStart};

use std::alloc::Global;
use std::marker::Model;
use venue_ports::{Failed, Stream};
use venue_types::OutOfMemory;

/// Room for more than ever waits: a head of 16,384 bytes and a body of 65,536 make the longest message.
pub(crate) const ROOM: usize = 81_920;

// How much of the room is made ready at first: more than most messages take. To fill all of it would cost more than to answer one of them.
const FIRST: usize = 4_096;

/// A buffer in which bytes wait from a start to an end. All its memory is taken when it is made, and filled when it is read into.
#[derive(Drop)]
pub(crate) struct Input {
    bytes: Vec<u8>,
    start: usize,
    end: usize,
}

impl Model for Input {
    ghost use Rattle.std.specs.Prelude.{◌≤◌, ℕ, List, length, slice_range};
    ghost use Rattle.std.specs.Vec.{vec_capacity};

    ghost Value = { List ℕ };

    ghost view = { λ a. slice_range a.bytes.items a.start a.end };

    ghost invariant = { λ a. (a.start ≤ a.end) × (a.end ≤ length a.bytes.items) × (length a.bytes.items ≤ 81920) × (81920 ≤ vec_capacity a.bytes) };
}

// Moves the bytes from a start to an end to the front.
fn move_to_front(bytes: &mut Vec<u8>, start: usize, end: usize)
    requires order { start ≤ end }
    requires within { end ≤ length bytes.old.items }
    ensures front { take (end - start) bytes.new.items ≡ slice_range bytes.old.items start end }
    ensures room { length bytes.new.items ≡ length bytes.old.items }
    ensures capacity { vec_capacity bytes.new ≡ vec_capacity bytes.old }
{
    if start > 0 {
        bytes.copy_within(start..end, 0);
    }
}

// Makes more of the room ready, where none is behind the end.
fn make_ready(bytes: &mut Vec<u8>, end: usize)
    requires within { end ≤ length bytes.old.items }
    requires left { end < 81920 }
    requires most { length bytes.old.items ≤ 81920 }
    requires room { 81920 ≤ vec_capacity bytes.old }
    ensures front { take end bytes.new.items ≡ take end bytes.old.items }
    ensures ready { end < length bytes.new.items }
    ensures most { length bytes.new.items ≤ 81920 }
    ensures capacity { 81920 ≤ vec_capacity bytes.new }
{
    if end == bytes.len() {
        let _in_the_room = bytes.resize(if end < FIRST { FIRST } else { ROOM }, 0);
    }
}

// Reads behind the first bytes, which stay.
fn read_behind<L: Stream>(
    connection: &mut L,
    bytes: &mut Vec<u8>,
    end: usize,
) -> Result<usize, Failed>
    requires { end < length bytes.old.items }
    ensures kept { take end bytes.new.items ≡ take end bytes.old.items }
    ensures room { length bytes.new.items ≡ length bytes.old.items }
    ensures capacity { vec_capacity bytes.new ≡ vec_capacity bytes.old }
    ensures bound { IfOk result (λ count. end + count ≤ length bytes.old.items) }
    ensures bytes { MovesIn (L.left connection.old) (L.left connection.new) result (drop end bytes.new.items) }
    ensures written { L.written connection.new ≡ L.written connection.old }
    ensures starts { TellsStart (L.starts connection.old) (L.starts connection.new) (start_at (L.left connection.old) (L.written connection.old)) }
    ensures cause { HasExactCause (L.faults connection.old) (L.faults connection.new) result }
{
    connection.read(&mut bytes[end..])
}

impl Input {
    /// Nothing waits.
    pub(crate) fn new(alloc: Global) -> Result<Input, OutOfMemory>
        ensures { IfOk result (λ input. input ≡ []) }
    {
        let bytes = Vec::with_capacity(alloc, ROOM)?;
        Ok(Input {
            bytes,
            start: 0,
            end: 0,
        })
    }

    /// What waits.
    pub(crate) fn waiting(&self) -> &[u8]
        ensures { result.now ≡ self.now }
    {
        &self.bytes[self.start..self.end]
    }

    /// The front of so many bytes waits no longer. Nothing is moved.
    pub(crate) fn pass(&mut self, count: usize)
        requires { count ≤ length self.old }
        ensures { self.new ≡ drop count self.old }
    {
        self.start += count;
    }

    /// Reads behind what waits, which is moved to the start of the buffer first. 0 tells the end of the stream.
    pub(crate) fn read_more<L: Stream>(&mut self, connection: &mut L) -> Result<usize, Failed>
        requires { length self.old < 81920 }
        ensures ok { IfOk result (λ count. (more : List ℕ) × (count ≡ length more) × (self.new ≡ self.old ++ more)
            × Consumes (L.left connection.old) (L.left connection.new) more) }
        ensures end { IfOk result (λ count. count ≡ 0 → IsAtEnd (L.left connection.new)) }
        ensures room { length self.new ≤ 81920 }
        ensures err { OnErr result ((self.new ≡ self.old) × (L.left connection.new ≡ L.left connection.old)) }
        ensures written { L.written connection.new ≡ L.written connection.old }
        ensures starts { TellsStart (L.starts connection.old) (L.starts connection.new) (start_at (L.left connection.old) (L.written connection.old)) }
        ensures cause { HasExactCause (L.faults connection.old) (L.faults connection.new) result }
    {
        move_to_front(&mut self.bytes, self.start, self.end);
        self.end -= self.start;
        self.start = 0;
        make_ready(&mut self.bytes, self.end);
        let count = read_behind(connection, &mut self.bytes, self.end)?;
        self.end += count;
        Ok(count)
    }
}
