//! Whole texts written to a stream.

ghost use Rattle.std.specs.Prelude.{◌≡◌, ℕ, List, OnOk, OnErr};
ghost use Rattle.std.specs.Io.KnownBytes.{Appends};
ghost use mathlib.Core.List.{IsPrefix};
ghost use Rattle.venue_ports.specs.Causes.{HasExactCause};

use venue_ports::{Failed, Stream};

/// Writes the whole text, or a front of it where the stream fails.
pub(crate) fn write_all<L: Stream>(connection: &mut L, text: &[u8]) -> Result<(), Failed>
    ensures ok { OnOk result (Appends (L.written connection.old) (L.written connection.new) text.now) }
    ensures err { OnErr result ((part : List ℕ) × IsPrefix part text.now × Appends (L.written connection.old) (L.written connection.new) part) }
    ensures left { L.left connection.new ≡ L.left connection.old }
    ensures starts { L.starts connection.new ≡ L.starts connection.old }
    ensures cause { HasExactCause (L.faults connection.old) (L.faults connection.new) result }
{
    let mut done = 0;
    while done < text.len() {
        match connection.write(&text[done..]) {
            Ok(count) => done += count,
            Err(failed) => return Err(failed),
        }
    }
    Ok(())
}
