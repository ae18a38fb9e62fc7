//! The headline, and which requests are not refused.

ghost use Rattle.std.specs.Prelude.{◌≡◌, ◌⊎◌, ℕ, ◌++◌, List, Option, Some};
ghost use mathlib.Core.List.{IsPrefix};
ghost use Rattle.venue_types.specs.declared.query.Change.{Change};
ghost use Rattle.venue_types.specs.declared.query.Change.TheVariants.{Closure as AskedClosure};
ghost use Rattle.venue_types.specs.declared.query.Closure.{Closure};
ghost use Rattle.venue_types.specs.declared.query.Query.{Query};
ghost use Rattle.venue_types.specs.declared.reply.Reply.{Reply};
ghost use Rattle.venue_hall.specs.Shelves.{Shelf};
ghost use Rattle.venue_hall.specs.Entry.{Entry};
ghost use Rattle.venue_hall.specs.Answers.{Answers, IsTooEarly};
ghost use Rattle.venue_hall.specs.Changes.{Changes, StandsSo};
ghost use Rattle.venue_hall.specs.Closed.{Version};
ghost use Rattle.venue_hall.specs.Histories.{Replays};
ghost use Rattle.venue_hall.specs.Replies.{kind_of, closure_done, out_of_memory};
ghost use Rattle.venue_hall.specs.Facts.{Facts};
ghost use Rattle.venue_wire.specs.declared.messages.Message.{Message};
ghost use Rattle.venue_session.specs.Ends.{Measured};
ghost use Rattle.venue_session.specs.Sessions.{IsSession};
ghost use Rattle.venue_session.specs.declared.ends.End.{End};
ghost use Rattle.venue_session.specs.Headline.{BrokenHeadline, Exchange, Headline, IsExchange, IsWhole};
ghost use Rattle.venue_session.specs.Complete.{CanBeMade, HasRoom, IsMadeKind, IsOfKind, IsReplyOf, IsThere};

use venue_hall::one_outcome;

/// The bytes that a session wrote answer its messages, one for one and in order, none left over, each at a legal history that begins
/// with the one before; a route costs what it says and no way costs less, and where it is said that there is none there is none. That
/// is said of sessions over a connection that tells its bytes: `whole` of those that ended by themselves, `broken` of those whose
/// connection failed or whose memory ran out, which end with a front of one text more at most.
pub fn headline_law()
    ensures whole { (keys : List (List ℕ)) (old new : Facts) (connection : Measured) (end : End) (came left before written : List ℕ)
        → IsSession keys old new connection end → IsWhole end
        → connection.left_before ≡ Some came → connection.left_after ≡ Some left → connection.written_before ≡ Some before → connection.written_after ≡ Some (before ++ written)
        → Headline keys old.files old.worker old.seen came left written }
    ensures broken { (keys : List (List ℕ)) (old new : Facts) (connection : Measured) (end : End) (came left before written : List ℕ)
        → IsSession keys old new connection end → ¬ IsWhole end
        → connection.left_before ≡ Some came → connection.left_after ≡ Some left → connection.written_before ≡ Some before → connection.written_after ≡ Some (before ++ written)
        → BrokenHeadline keys old.files old.worker old.seen came left written }
{}

/// A question at a version that isn't too early, in which what it names is there, gets what it asks for, or memory ran out. A change
/// that can be made, with room for one version more, is made or stands so already; or a folder couldn't be read, or memory ran out. A
/// closure that stands so already is told so without room, or memory ran out.
pub fn complete_law()
    ensures questions { (v : Version) (query : Query) (r : Reply) → (IsTooEarly v query.since → ⊥) → IsThere v query.what → Answers v query r
        → IsOfKind query.what (kind_of r) ⊎ (kind_of r ≡ out_of_memory) }
    ensures changes { (shelf : Shelf) (worker : ℕ) (asked : Change) (h k : List Entry) (v : Version) (r : Reply) → Replays h v → HasRoom v
        → CanBeMade (Some shelf) v asked → Changes (Some shelf) worker asked h r k → IsMadeKind asked (kind_of r) ⊎ (kind_of r ≡ out_of_memory) }
    ensures standing { (shelf : Option Shelf) (worker : ℕ) (closure : Closure) (h k : List Entry) (v : Version) (r : Reply) → Replays h v
        → StandsSo v closure → Changes shelf worker (AskedClosure closure) h r k → (kind_of r ≡ closure_done) ⊎ (kind_of r ≡ out_of_memory) }
{
    one_outcome();
}

/// The same of the exchanges of a session. A question, at the version to which the history leads that is seen then, gets what it asks
/// for. A change that can be made, with room, at each version to which a history leads that begins with what was seen before, is made
/// or stands so already; and a closure that stands so at each of them is told so. Or memory ran out.
pub fn exchange_law()
    ensures asked { (keys : List (List ℕ)) (shelf : Option Shelf) (worker : ℕ) (before : List Entry) (bytes : List ℕ) (x : Exchange) (query : Query) (v : Version)
        → IsExchange keys shelf worker before bytes x → x.message ≡ Message.Ask query → Replays x.seen v → (IsTooEarly v query.since → ⊥) → IsThere v query.what
        → IsReplyOf (IsOfKind query.what) x.answer }
    ensures changed { (keys : List (List ℕ)) (shelf : Shelf) (worker : ℕ) (before : List Entry) (bytes : List ℕ) (x : Exchange) (asked : Change)
        → IsExchange keys (Some shelf) worker before bytes x → x.message ≡ Message.Do asked
        → ((h : List Entry) (v : Version) → IsPrefix before h → Replays h v → HasRoom v × CanBeMade (Some shelf) v asked) → IsReplyOf (IsMadeKind asked) x.answer }
    ensures standing { (keys : List (List ℕ)) (shelf : Option Shelf) (worker : ℕ) (before : List Entry) (bytes : List ℕ) (x : Exchange) (closure : Closure)
        → IsExchange keys shelf worker before bytes x → x.message ≡ Message.Do (AskedClosure closure)
        → ((h : List Entry) (v : Version) → IsPrefix before h → Replays h v → StandsSo v closure) → IsReplyOf (λ kind. kind ≡ closure_done) x.answer }
{
    one_outcome();
}
