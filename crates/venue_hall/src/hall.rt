//! What a session serves.

ghost use Rattle.std.specs.Prelude.{◌≡◌, ◌+◌, ◌≤◌, length};
ghost use mathlib.Core.List.{IsPrefix};
ghost use Rattle.venue_ports.specs.Causes.{Rose};
ghost use Rattle.venue_history.specs.Histories.{IsLegal};
ghost use Rattle.venue_history.specs.Replies.{told, IsOutsideFault};
ghost use Rattle.venue_hall.specs.Facts.{Facts, IsSameHall, IsAnswered, IsChanged};

use venue_types::{Change, Query, Reply};

/// Answers questions at a version that it has seen, and waits for nobody.
pub trait Asks {
    ghost facts: { Self → Facts };

    /// The number of the version that it has seen, without memory. By it a session that acts on nothing knows that what it found
    /// is a legal history.
    fn number(&self) -> u32
        ensures number { result ≡ length (facts self.now).seen }
        ensures legal { IsLegal (facts self.now).seen };

    /// Answers at the version that it has seen then, which may be a later one than before.
    fn ask(&mut self, query: &Query) -> Reply
        ensures reply { IsAnswered (facts self.new).seen query.now result }
        ensures grows { IsPrefix (facts self.old).seen (facts self.new).seen }
        ensures kept { facts self.new ≡ record (facts self.old) { seen = (facts self.new).seen } };
}

/// Makes changes too, and looks for what others changed. A hall that is shared may wait for that.
pub trait Hall: Asks {
    /// Makes a change at the history that it sees then, or tells why not. The folder of a publication is read for it.
    fn change(&mut self, change: &Change) -> Reply
        ensures reply { IsChanged (Self.facts self.old) (Self.facts self.new) change.now result }
        ensures grows { IsPrefix (Self.facts self.old).seen (Self.facts self.new).seen }
        ensures legal { IsLegal (Self.facts self.new).seen }
        ensures made { (Self.facts self.new).made ≡ (Self.facts self.old).made + told result }
        ensures faults { (Self.facts self.old).faults ≤ (Self.facts self.new).faults }
        ensures fault { IsOutsideFault result → Rose (Self.facts self.old).faults (Self.facts self.new).faults }
        ensures looks { Rose (Self.facts self.old).looks (Self.facts self.new).looks }
        ensures same { IsSameHall (Self.facts self.old) (Self.facts self.new) };

    /// Sees all that was changed before this call.
    fn catch_up(&mut self)
        ensures grows { IsPrefix (Self.facts self.old).seen (Self.facts self.new).seen }
        ensures legal { IsLegal (Self.facts self.new).seen }
        ensures made { (Self.facts self.new).made ≡ (Self.facts self.old).made }
        ensures faults { (Self.facts self.old).faults ≤ (Self.facts self.new).faults }
        ensures looks { Rose (Self.facts self.old).looks (Self.facts self.new).looks }
        ensures same { IsSameHall (Self.facts self.old) (Self.facts self.new) };
}
