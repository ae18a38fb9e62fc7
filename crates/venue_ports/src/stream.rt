//! Streams of bytes in both directions.

ghost use Rattle.std.specs.Prelude.{◌≡◌, ℕ, ◌<◌, ◌≤◌, List, Option, IfOk, length};
ghost use Rattle.venue_ports.specs.Causes.{HasExactCause};
ghost use Rattle.venue_ports.specs.Moves.{MovesIn, MovesOut};
ghost use Rattle.venue_ports.specs.Starts.{ReadStart, start_at, TellsStart};

/// The outside failed, and counted it.
#[derive(Clone, Copy, Debug, PartialEq, Eq)]
pub struct Failed;

/// Bytes that come in and bytes that go out. Whether the bytes are told never changes.
pub trait Stream {
    /// The bytes that are still to be read, where they are told.
    ghost left: { Self → Option (List ℕ) };

    /// The bytes that were written, where they are told.
    ghost written: { Self → Option (List ℕ) };

    /// What stood when each read began, the first one first, where it is told. A read that failed, or found the end, began too. A
    /// stream may cease to tell it.
    ghost starts: { Self → Option (List ReadStart) };

    /// How often a read or a write has failed.
    ghost faults: { Self → ℕ };

    /// The count of failures, which never falls and stands still at the type's end.
    fn fault_count(&self) -> u64
        ensures { result ≡ faults self.now };

    /// Moves some bytes that are left into the front of the buffer, and none exactly at the end. Takes no memory.
    fn read(&mut self, buf: &mut [u8]) -> Result<usize, Failed>
        requires { 0 < length buf.old }
        ensures bound { IfOk result (λ n. n ≤ length buf.old) }
        ensures bytes { MovesIn (left self.old) (left self.new) result buf.new }
        ensures written { written self.new ≡ written self.old }
        ensures starts { TellsStart (starts self.old) (starts self.new) (start_at (left self.old) (written self.old)) }
        ensures cause { HasExactCause (faults self.old) (faults self.new) result };

    /// Writes some bytes from the front of the piece, at least one. Takes no memory.
    fn write(&mut self, piece: &[u8]) -> Result<usize, Failed>
        requires { 0 < length piece.now }
        ensures bound { IfOk result (λ n. (0 < n) × (n ≤ length piece.now)) }
        ensures bytes { MovesOut (written self.old) (written self.new) result piece.now }
        ensures left { left self.new ≡ left self.old }
        ensures starts { starts self.new ≡ starts self.old }
        ensures cause { HasExactCause (faults self.old) (faults self.new) result };
}
