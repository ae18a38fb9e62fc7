//! What follows from the definitions alone.

ghost use Rattle.std.specs.Prelude.{◌≡◌, ◌⊎◌, ◌<◌, ◌≤◌, ℕ, Bool, List, ◌++◌, length, Some};
ghost use Rattle.venue_wire.specs.Messages.{At};
ghost use Rattle.venue_wire.specs.Paths.{IsTextOf, route_of};
ghost use Rattle.venue_wire.specs.declared.messages.Message.{Message};
ghost use Rattle.venue_wire.specs.declared.messages.Taken.{Taken};
ghost use Rattle.venue_wire.specs.declared.paths.Path.{Path};
ghost use Rattle.wire_frames.specs.declared.refusals.Refusal.{Refusal};

use wire_frames::{front_more_law, one_front_law, short_law};

/// At a front stands one thing alone: less than a message, one refused head, or one message, of one length, which closes or doesn't;
/// for want of memory it may not be read.
pub fn one_message_law()
    ensures more_or_fault { (keys : List (List ℕ)) (bytes : List ℕ) (least : ℕ) (r : Refusal)
        → At keys bytes (Taken.More least) → ¬ At keys bytes (Taken.Fault r) }
    ensures more_or_message { (keys : List (List ℕ)) (bytes : List ℕ) (least : ℕ) (m : Message) (length : ℕ) (close : Bool)
        → At keys bytes (Taken.More least) → ¬ At keys bytes (Taken.Message m length close) }
    ensures fault_or_message { (keys : List (List ℕ)) (bytes : List ℕ) (r : Refusal) (m : Message) (length : ℕ) (close : Bool)
        → At keys bytes (Taken.Fault r) → ¬ At keys bytes (Taken.Message m length close) }
    ensures one_fault { (keys : List (List ℕ)) (bytes : List ℕ) (r q : Refusal)
        → At keys bytes (Taken.Fault r) → At keys bytes (Taken.Fault q) → r ≡ q }
    ensures one_message { (keys : List (List ℕ)) (bytes : List ℕ) (m n : Message) (length size : ℕ) (close closes : Bool)
        → At keys bytes (Taken.Message m length close) → At keys bytes (Taken.Message n size closes)
        → ((m ≡ n) ⊎ (m ≡ Message.Unread) ⊎ (n ≡ Message.Unread)) × (length ≡ size) × (close ≡ closes) }
{
    one_front_law();
}

/// A refused head and a message stay what they are, whatever bytes follow.
pub fn message_more_law()
    ensures fault { (keys : List (List ℕ)) (bytes more : List ℕ) (r : Refusal)
        → At keys bytes (Taken.Fault r) → At keys (bytes ++ more) (Taken.Fault r) }
    ensures message { (keys : List (List ℕ)) (bytes more : List ℕ) (m : Message) (length : ℕ) (close : Bool)
        → At keys bytes (Taken.Message m length close) → At keys (bytes ++ more) (Taken.Message m length close) }
{
    front_more_law();
}

/// Less than a message has room in 81,920 bytes, the greatest head and the greatest body.
pub fn more_is_short_law()
    ensures { (keys : List (List ℕ)) (bytes : List ℕ) (least : ℕ)
        → At keys bytes (Taken.More least) → length bytes < 81920 }
{
    short_law();
}

/// A message has a byte or more, and no more than there are.
pub fn message_length_law()
    ensures some { (keys : List (List ℕ)) (bytes : List ℕ) (m : Message) (length : ℕ) (close : Bool)
        → At keys bytes (Taken.Message m length close) → 0 < length }
    ensures within { (keys : List (List ℕ)) (bytes : List ℕ) (m : Message) (size : ℕ) (close : Bool)
        → At keys bytes (Taken.Message m size close) → size ≤ length bytes }
{}

/// A path is found exactly where it is one of seven texts, or `/v1/place/` with a byte or more behind it and no slash there.
pub fn path_law()
    ensures found { (text : List ℕ) (path : Path) → route_of text ≡ Some path → IsTextOf text path }
    ensures whole { (text : List ℕ) (path : Path) → IsTextOf text path → route_of text ≡ Some path }
{}
