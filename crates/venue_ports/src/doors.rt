//! Doors through which connections come.

ghost use Rattle.std.specs.Prelude.{◌≡◌, ℕ, ◌≤◌, List, Option, Bool, true, false, length, OnOk, OnErr};
ghost use Rattle.std.specs.Option.{option_map};
ghost use Rattle.venue_ports.specs.Causes.{one_more, HasExactCause};

use crate::stream::{Failed, Stream};

/// A listener. Whether its binds and its address are told never changes.
pub trait Doors {
    type Conn: Stream + Send + Drop;

    /// Whether a bind has answered Ok.
    ghost ready: { Self → Bool };

    /// How many connections were accepted.
    ghost accepted: { Self → ℕ };

    /// How many binds there were, where it is told.
    ghost binds: { Self → Option ℕ };

    /// The address of the last bind, where it is told.
    ghost bound: { Self → Option (List ℕ) };

    /// How often a bind or an accept has failed.
    ghost faults: { Self → ℕ };

    /// The count of failures, which never falls and stands still at the type's end.
    fn fault_count(&self) -> u64
        ensures { result ≡ faults self.now };

    /// Listens at an address of at most 256 bytes. Takes no memory.
    fn bind(&mut self, address: &str) -> Result<(), Failed>
        requires not_ready { ready self.old ≡ false }
        requires short { length address.now ≤ 256 }
        ensures ok { OnOk result (ready self.new ≡ true) }
        ensures err { OnErr result (ready self.new ≡ false) }
        ensures accepted { accepted self.new ≡ accepted self.old }
        ensures binds { binds self.new ≡ option_map one_more (binds self.old) }
        ensures bound { bound self.new ≡ option_map (λ _. address.now) (bound self.old) }
        ensures cause { HasExactCause (faults self.old) (faults self.new) result };

    /// The next connection. Takes no memory.
    fn accept(&mut self) -> Result<Self::Conn, Failed>
        requires { ready self.old ≡ true }
        ensures ok { OnOk result (accepted self.new ≡ one_more (accepted self.old)) }
        ensures err { OnErr result (accepted self.new ≡ accepted self.old) }
        ensures ready { ready self.new ≡ true }
        ensures binds { binds self.new ≡ binds self.old }
        ensures bound { bound self.new ≡ bound self.old }
        ensures cause { HasExactCause (faults self.old) (faults self.new) result };
}
