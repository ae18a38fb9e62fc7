//! Writing to the console.

ghost use Rattle.std.specs.Prelude.{◌≡◌, ◌≤◌, ℕ, OnOk, OnErr, List, ◌++◌};
ghost use Rattle.venue_ports.specs.Causes.{HasExactCause};
ghost use Rattle.venue_commands.specs.Runs.{Wrote};

use venue_ports::{Failed, Stream};

/// Writes all of the text, or a front of it where the console fails.
pub fn write_all<C: Stream>(console: &mut C, text: &[u8]) -> Result<(), Failed>
    ensures ok { OnOk result (Wrote (C.written console.old) (C.written console.new) text.now) }
    ensures err { OnErr result ((front : List ℕ) × (rest : List ℕ) × Wrote (C.written console.old) (C.written console.new) front × (text.now ≡ front ++ rest)) }
    ensures left { C.left console.new ≡ C.left console.old }
    ensures cause { HasExactCause (C.faults console.old) (C.faults console.new) result }
{
    let mut rest = text;
    while !rest.is_empty() {
        let count = console.write(rest)?;
        let (_, after) = rest.split_at(count);
        rest = after;
    }
    Ok(())
}
