//! A disk that may stop at any moment, and disks by name.

ghost use Rattle.std.specs.Prelude.{◌≡◌, ℕ, ◌+◌, ◌^◌, ◌<◌, ◌≤◌, List, Option, IfOk, OnOk, OnErr, length, take, drop};
ghost use Rattle.std.specs.Option.{option_map};
ghost use Rattle.venue_ports.specs.Causes.{one_more, HasExactCause};
ghost use Rattle.venue_ports.specs.Disks.{OpensDisk};
ghost use Rattle.venue_ports.specs.Files.{StoredFile};
ghost use Rattle.venue_ports.specs.Moments.{Moment, Goes, GoesOrEnds, Now, HasStayed, HasWritten, MayHaveWritten, HasSynced};

use crate::stream::Failed;

/// A disk: bytes that are read and written at places. A stop may fall before, within or after each call, and leaves what it
/// might leave at the moment before that call or at the moment that the call adds.
pub trait Disk {
    /// The moments so far, the newest first. A disk that tells nothing has none. One that tells may cease to at a call that
    /// failed, where it has no room for its moments; it then tells nothing ever after.
    ghost moments: { Self → List Moment };

    /// How often a call has failed.
    ghost faults: { Self → ℕ };

    /// The count of failures, which never falls and stands still at the type's end.
    fn fault_count(&self) -> u64
        ensures { result ≡ faults self.now };

    /// How many bytes a read gives.
    fn len(&mut self) -> Result<u64, Failed>
        ensures length { IfOk result (λ n. Now (λ m. n ≡ length m.reads) (moments self.old)) }
        ensures ok { OnOk result (Goes HasStayed (moments self.old) (moments self.new)) }
        ensures err { OnErr result (GoesOrEnds HasStayed (moments self.old) (moments self.new)) }
        ensures cause { HasExactCause (faults self.old) (faults self.new) result };

    /// Fills the buffer with the bytes from a place on. At an error the buffer is free.
    fn read(&mut self, at: u64, buf: &mut [u8]) -> Result<(), Failed>
        requires within { Now (λ m. at + length buf.old ≤ length m.reads) (moments self.old) }
        ensures bytes { OnOk result (Now (λ m. buf.new ≡ take (length buf.old) (drop at m.reads)) (moments self.old)) }
        ensures ok { OnOk result (Goes HasStayed (moments self.old) (moments self.new)) }
        ensures err { OnErr result (GoesOrEnds HasStayed (moments self.old) (moments self.new)) }
        ensures cause { HasExactCause (faults self.old) (faults self.new) result };

    /// Writes over what is there, and past its end. A stop may leave any bytes in the range until a sync has answered Ok. A
    /// write that failed may have happened in part.
    fn write(&mut self, at: u64, piece: &[u8]) -> Result<(), Failed>
        requires some { 0 < length piece.now }
        requires within { Now (λ m. at ≤ length m.reads) (moments self.old) }
        requires end { at + length piece.now < 2 ^ 63 }
        ensures ok { OnOk result (Goes (HasWritten at piece.now) (moments self.old) (moments self.new)) }
        ensures err { OnErr result (GoesOrEnds (MayHaveWritten at piece.now) (moments self.old) (moments self.new)) }
        ensures cause { HasExactCause (faults self.old) (faults self.new) result };

    /// After it a stop leaves what a read gives. Where it failed, whoever goes on has to write the bytes again: a second sync
    /// alone may answer Ok over bytes that the system has given up.
    fn sync(&mut self) -> Result<(), Failed>
        ensures ok { OnOk result (Goes HasSynced (moments self.old) (moments self.new)) }
        ensures err { OnErr result (GoesOrEnds HasStayed (moments self.old) (moments self.new)) }
        ensures cause { HasExactCause (faults self.old) (faults self.new) result };
}

/// Disks by the names of their folder and their file. Whether they tell never changes.
pub trait Disks {
    type Disk: Disk + Send + Drop;

    /// The files that disks are opened over, where they are told.
    ghost files: { Self → Option (List StoredFile) };

    /// How many opens there were, where it is told.
    ghost opens: { Self → Option ℕ };

    /// The folder and the name of the last open, where they are told.
    ghost opened: { Self → Option (List ℕ × List ℕ) };

    /// How often an open has failed.
    ghost faults: { Self → ℕ };

    /// The count of failures, which never falls and stands still at the type's end.
    fn fault_count(&self) -> u64
        ensures { result ≡ faults self.now };

    /// Opens the disk of a folder and a name. No disk is made. Takes no memory.
    fn open_disk(&mut self, base: &str, name: &str) -> Result<Self::Disk, Failed>
        requires base_short { length base.now ≤ 1024 }
        requires name_short { length name.now ≤ 64 }
        ensures disk { IfOk result (λ d. OpensDisk (files self.old) base.now name.now (Self.Disk.moments d)) }
        ensures no_faults { IfOk result (λ d. Self.Disk.faults d ≡ 0) }
        ensures same { files self.new ≡ files self.old }
        ensures opens { opens self.new ≡ option_map one_more (opens self.old) }
        ensures opened { opened self.new ≡ option_map (λ _. (base.now, name.now)) (opened self.old) }
        ensures cause { HasExactCause (faults self.old) (faults self.new) result };
}
