//! A stream in memory.

ghost use Rattle.std.specs.Prelude.{◌≡◌, ℕ, ◌-◌, ◌<◌, ◌≤◌, ◌↔◌, ◌⊎◌, List, [], Some, IfOk, IsOk, IsErr, IsSome, OnErr, length, min};
ghost use Rattle.std.specs.Option.{option_copied};
ghost use Rattle.venue_ports.specs.Causes.{one_more, HasExactCause};
ghost use Rattle.venue_ports.specs.Moves.{MovesIn, MovesOut};
ghost use Rattle.venue_ports.specs.Plans.{FailsNext, called, fresh, room_left, within_piece};
ghost use Rattle.venue_ports.specs.Starts.{TellsStart, start_at};

use crate::memory::OutOfMemory;
use crate::output::Output;
use crate::plan::CallPlan;
use crate::stream::{Failed, Stream};
use std::alloc::Global;

/// Of how many reads a stream tells what stood when they began.
const MOST_STARTS: usize = 1_024;

/// A stream that gives its input in pieces, and of which some calls are to fail.
#[derive(Drop)]
pub struct MemoryStream {
    input: Vec<u8>,
    at: usize,
    pieces: Vec<usize>,
    reads: CallPlan,
    writes: CallPlan,
    output: Output,
    faults: u64,
}

// As much of a count as a piece lets through.
fn within_piece(piece: Option<&usize>, count: usize) -> usize
    ensures { result ≡ within_piece (option_copied piece.entry) count }
{
    match piece {
        None => count,
        Some(size) => count.min((*size).max(1)),
    }
}

impl MemoryStream {
    ghost use Rattle.venue_ports.specs.InMemory.{IsEmptyStream, stream_left, stream_rest, stream_written, stream_output, stream_room, stream_pieces, stream_reads, stream_writes, stream_faults, stream_starts, stream_spare, next_read};

    /// Room for what is written is taken at once. Calls are numbered from 1, reads and writes apart, and the read with a
    /// number moves at most the piece with that number. Of the first 1,024 reads, or as many as there is room for bytes, it tells
    /// what stood when they began; from the next read on it tells nothing of any.
    pub fn new(
        alloc: Global,
        input: Vec<u8>,
        pieces: Vec<usize>,
        room: usize,
        failing_reads: Vec<u64>,
        failing_writes: Vec<u64>,
    ) -> Result<MemoryStream, OutOfMemory>
        ensures left { IfOk result (λ s. stream_left s ≡ Some input.items) }
        ensures written { IfOk result (λ s. stream_written s ≡ Some []) }
        ensures room { IfOk result (λ s. stream_room s ≡ room) }
        ensures pieces { IfOk result (λ s. stream_pieces s ≡ pieces.items) }
        ensures reads { IfOk result (λ s. stream_reads s ≡ fresh failing_reads.items) }
        ensures writes { IfOk result (λ s. stream_writes s ≡ fresh failing_writes.items) }
        ensures faults { IfOk result (λ s. stream_faults s ≡ 0) }
        ensures starts { IfOk result (λ s. stream_starts s ≡ Some []) }
        ensures spare { IfOk result (λ s. stream_spare s ≡ min room 1024) }
        ensures succeeds { room ≡ 0 → IsOk result }
    {
        let output = Output::new(alloc, room, room.min(MOST_STARTS))?;
        Ok(MemoryStream {
            input,
            at: 0,
            pieces,
            reads: CallPlan::new(failing_reads),
            writes: CallPlan::new(failing_writes),
            output,
            faults: 0,
        })
    }

    /// A stream without input and without room, which takes no memory.
    pub fn empty(alloc: Global) -> MemoryStream
        ensures { IsEmptyStream result }
    {
        MemoryStream {
            input: Vec::new(alloc),
            at: 0,
            pieces: Vec::new(alloc),
            reads: CallPlan::new(Vec::new(alloc)),
            writes: CallPlan::new(Vec::new(alloc)),
            output: Output::none(alloc),
            faults: 0,
        }
    }

    /// What was written.
    pub fn written(&self) -> &[u8]
        ensures { Some result.now ≡ stream_written self.now }
    {
        self.output.bytes()
    }

    // How many bytes the next read moves into a buffer of this length.
    fn next_read(&self, fits: usize) -> usize
        ensures exact { result ≡ next_read self.now fits }
        ensures fits { result ≤ fits }
        ensures left { result ≤ length (stream_rest self.now) }
        ensures end { 0 < fits → result ≡ 0 → stream_rest self.now ≡ [] }
    {
        let count = (self.input.len() - self.at.min(self.input.len())).min(fits);
        match usize::try_from(self.reads.calls()) {
            Ok(place) => within_piece(self.pieces.get(place), count),
            Err(_) => count,
        }
    }

    // Counts a failure.
    fn failed(&mut self) -> Failed
        ensures counted { self.new ≡ record self.old { faults = one_more self.old.faults } }
        ensures later { self.old.faults ≤ self.new.faults }
    {
        self.faults = self.faults.saturating_add(1);
        Failed
    }
}

impl Stream for MemoryStream {
    ghost use Rattle.venue_ports.specs.InMemory.{stream_left, stream_rest, stream_written, stream_output, stream_room, stream_pieces, stream_reads, stream_writes, stream_faults, stream_starts, stream_spare, next_read, next_write};

    ghost left = { stream_left };

    ghost written = { stream_written };

    ghost starts = { stream_starts };

    ghost faults = { stream_faults };

    fn fault_count(&self) -> u64 {
        self.faults
    }

    fn read(&mut self, buf: &mut [u8]) -> Result<usize, Failed>
        requires { 0 < length buf.old }
        ensures bound { IfOk result (λ n. n ≤ length buf.old) }
        ensures bytes { MovesIn (stream_left self.old) (stream_left self.new) result buf.new }
        ensures written { stream_written self.new ≡ stream_written self.old }
        ensures starts { TellsStart (stream_starts self.old) (stream_starts self.new) (start_at (stream_left self.old) (stream_written self.old)) }
        ensures cause { HasExactCause (stream_faults self.old) (stream_faults self.new) result }

        ensures fails { IsErr result ↔ FailsNext (stream_reads self.old) }
        ensures counted { OnErr result (stream_faults self.new ≡ one_more (stream_faults self.old)) }
        ensures moved { IfOk result (λ n. n ≡ next_read self.old (length buf.old)) }
        ensures called { stream_reads self.new ≡ called (stream_reads self.old) }
        ensures told { 0 < stream_spare self.old → IsSome (stream_starts self.old) → IsSome (stream_starts self.new) }
        ensures spare { stream_spare self.new ≡ stream_spare self.old - 1 }
        ensures other_plan { stream_writes self.new ≡ stream_writes self.old }
        ensures pieces { stream_pieces self.new ≡ stream_pieces self.old }
        ensures room { stream_room self.new ≡ stream_room self.old }
    {
        let count = self.next_read(buf.len());
        self.output.begin(self.at.min(self.input.len()));
        if self.reads.fails() {
            return Err(self.failed());
        }
        let at = self.at.min(self.input.len());
        let rest = &self.input[at..];
        buf[..count].copy_from_slice(&rest[..count]);
        self.at = at + count;
        Ok(count)
    }

    fn write(&mut self, piece: &[u8]) -> Result<usize, Failed>
        requires { 0 < length piece.now }
        ensures bound { IfOk result (λ n. (0 < n) × (n ≤ length piece.now)) }
        ensures bytes { MovesOut (stream_written self.old) (stream_written self.new) result piece.now }
        ensures left { stream_left self.new ≡ stream_left self.old }
        ensures starts { stream_starts self.new ≡ stream_starts self.old }
        ensures cause { HasExactCause (stream_faults self.old) (stream_faults self.new) result }

        ensures fails { IsErr result ↔ ((room_left (stream_output self.old) ≡ 0) ⊎ FailsNext (stream_writes self.old)) }
        ensures counted { OnErr result (stream_faults self.new ≡ one_more (stream_faults self.old)) }
        ensures moved { IfOk result (λ n. n ≡ next_write self.old (length piece.now)) }
        ensures called { stream_writes self.new ≡ called (stream_writes self.old) }
        ensures spare { stream_spare self.new ≡ stream_spare self.old }
        ensures other_plan { stream_reads self.new ≡ stream_reads self.old }
        ensures pieces { stream_pieces self.new ≡ stream_pieces self.old }
        ensures room { stream_room self.new ≡ stream_room self.old }
    {
        let listed = self.writes.fails();
        if listed || self.output.left() == 0 {
            return Err(self.failed());
        }
        Ok(self.output.append(piece))
    }
}
