//! What holds of every history, of every answer and of every change.

ghost use Rattle.std.specs.Prelude.{◌≡◌, ◌≢◌, ℕ, ◌+◌, ◌<◌, List, [], ◌∷◌, ◌++◌, length, All, AllPairs, Contains, Option, Some, IsTrue, ◌↔◌, ◌||◌, ◌&&◌, not, if◌then◌else◌};
ghost use mathlib.Core.List.{IsPrefix};
ghost use Rattle.std.specs.Arc.{arc_value};
ghost use Rattle.std.specs.declared.sync.Arc.{Arc};
ghost use Rattle.std.specs.declared.alloc.Global.{Global};
ghost use Rattle.venue_types.specs.declared.feature_id.FeatureId.{FeatureId};
ghost use Rattle.venue_types.specs.declared.query.Change.{Change as AChange};
ghost use Rattle.venue_types.specs.declared.query.Query.{Query as AQuery};
ghost use Rattle.venue_types.specs.declared.reply.Reply.{Reply as AReply};
ghost use Rattle.venue_types.specs.declared.reply.Reply.TheVariants as reply;
ghost use Rattle.venue_types.specs.ProfileSets.{has, nobody, is_empty};
ghost use Rattle.venue_build.specs.Identity.{is_same};
ghost use Rattle.venue_build.specs.Nodes.{closables, nodes};
ghost use Rattle.venue_build.specs.Venues.{SeenVenue as AVenue};
ghost use Rattle.venue_build.specs.Report.{AreValid};
ghost use Rattle.venue_folder.specs.Shelves.{Shelf};
ghost use Rattle.venue_history.specs.declared.entry.Entry.{Entry as AnEntry};
ghost use Rattle.venue_history.specs.declared.entry.Act.TheVariants.{Published, Closed, Reopened};
ghost use Rattle.venue_history.specs.declared.entry.Closing.{Closing};
ghost use Rattle.venue_history.specs.Closed.{Version, is_one_of, is_closed, is_closed_for_all, closed_for, closed_ids, closed_set, closed_count, everybody};
ghost use Rattle.venue_history.specs.Versions.{Fits, MayFollow, AreProfiles, closings, after};
ghost use Rattle.venue_history.specs.Histories.{IsPublished, IsLegal, Replays};
ghost use Rattle.venue_history.specs.Answers.{Answers};
ghost use Rattle.venue_history.specs.Replies.{told, kind_of, IsOutsideFault};
ghost use Rattle.venue_history.specs.Changes.{Changes};
ghost use Rattle.venue_history.specs.Ways.{name_of};

use venue_build::{one_outcome, own_ids_law};
use venue_types::profile_set_law;

/// The number of a version is the length of the history that leads to it.
pub fn number_law()
    ensures { (h : List AnEntry) (v : Version) → Replays h v → v.number ≡ length h }
{}

/// A legal history leads to a version.
pub fn legal_law()
    ensures { (h : List AnEntry) → IsLegal h → (v : Version) × Replays h v }
{}

/// A beginning of a legal history is one, unless it is empty.
pub fn beginning_law()
    ensures { (begin whole : List AnEntry) → IsPrefix begin whole → begin ≢ [] → IsLegal whole → IsLegal begin }
{}

/// An entry that may be made at the version to which a history leads makes a longer history, which leads to the version after it.
pub fn entry_law()
    ensures { (h : List AnEntry) (v : Version) (e : AnEntry) → Replays h v → MayFollow v e → Replays (h ++ e ∷ []) (after v e.act) }
{}

/// At every version to which a history leads the settings are those of each venue that the history publishes, the first among
/// them; every phase of rules accepts the rows; what is closed can be closed, stands there once, and in the order of what can be
/// closed; and each feature that is closed is so for somebody, and for profiles of the settings alone.
pub fn version_law()
    ensures settings { (e : AnEntry) (es : List AnEntry) (venue : AVenue) (v : Version) → Replays (e ∷ es) v → IsPublished venue e.act → v.settings ≡ venue.settings }
    ensures all_settings { (h : List AnEntry) (v : Version) (e : AnEntry) (venue : AVenue) → Replays h v → Contains h e → IsPublished venue e.act → venue.settings ≡ v.settings }
    ensures valid { (h : List AnEntry) (v : Version) → Replays h v → ∥ AreValid v.features v.settings ∥₁ }
    ensures closable { (h : List AnEntry) (v : Version) → Replays h v → All (Contains (closables v.features)) (closed_ids v) }
    ensures once { (h : List AnEntry) (v : Version) → Replays h v → AllPairs (λ a b. a ≢ b) (closed_ids v) }
    ensures in_order { (h : List AnEntry) (v : Version) → Replays h v → v.closed ≡ closings (closed_set v) (closables v.features) }
    ensures profiles { (h : List AnEntry) (v : Version) → Replays h v → All (λ (it : Closing). AreProfiles v.settings it.profiles) v.closed }
{
    own_ids_law();
}

/// At every version to which a history leads two nodes of one name are one node: so the steps of a reply tell which walk it is.
pub fn name_law()
    ensures { (h : List AnEntry) (v : Version) (m n : ℕ) → Replays h v → m < length (nodes v.features v.settings) → n < length (nodes v.features v.settings) → name_of v m ≡ name_of v n → m ≡ n }
{
    own_ids_law();
}

/// The words on what is closed belong together: a feature is closed for anybody exactly where its identifier is listed, and the list is
/// as long as is counted. At every version of a history each is listed once and for somebody: so a feature is closed for a profile exactly
/// where its set has it, and for nobody exactly where it isn't listed.
pub fn closed_law()
    ensures ids { (v : Version) (id : FeatureId) → IsTrue (is_closed v id) ↔ Contains (closed_ids v) id }
    ensures count { (v : Version) → closed_count v ≡ length (closed_ids v) }
    ensures for_profile { (v : Version) (number : ℕ) (id : FeatureId) → AllPairs (λ a b. a ≢ b) (closed_ids v) → Contains (closed_for v number) id ↔ IsTrue (has number (closed_set v id)) }
    ensures for_nobody { (v : Version) (id : FeatureId) → All (λ (it : Closing). ¬ IsTrue (is_empty it.profiles)) v.closed
        → IsTrue (is_empty (closed_set v id)) ↔ (¬ Contains (closed_ids v) id) }
    ensures for_all { (v : Version) (id : FeatureId) → IsTrue (is_closed_for_all v id) → closed_set v id ≡ everybody v.settings }
{
    profile_set_law();
}

/// What each act does to what is closed, for each profile and each feature: a publication keeps of it what can be closed still, a closure
/// adds the profiles that it names to one feature, and a reopening takes them away.
pub fn act_law()
    ensures published { (v : Version) (venue : Arc AVenue Global) (id : FeatureId)
        → closed_set (after v (Published venue)) id ≡ (if is_one_of (closables (arc_value venue).features) id then closed_set v id else nobody) }
    ensures closed { (h : List AnEntry) (v : Version) (it : Closing) (id : FeatureId) (k : ℕ) → Replays h v → Fits v (Closed it)
        → has k (closed_set (after v (Closed it)) id) ≡ (has k (closed_set v id) || (is_same id it.feature && has k it.profiles)) }
    ensures reopened { (h : List AnEntry) (v : Version) (it : Closing) (id : FeatureId) (k : ℕ) → Replays h v → Fits v (Reopened it)
        → has k (closed_set (after v (Reopened it)) id) ≡ (has k (closed_set v id) && not (is_same id it.feature && has k it.profiles)) }
{}

/// To one question at one version belongs one kind of reply, but for want of memory.
pub fn answer_law()
    ensures { (v : Version) (query : AQuery) (r s : AReply) → r ≢ reply.OutOfMemory → s ≢ reply.OutOfMemory → Answers v query r → Answers v query s → kind_of r ≡ kind_of s }
{}

/// A change adds an entry to the history exactly where the reply tells that it was accepted, and a legal history stays legal.
pub fn change_law()
    ensures length { (shelf : Option Shelf) (worker : ℕ) (asked : AChange) (h k : List AnEntry) (r : AReply) → Changes shelf worker asked h r k → length k ≡ length h + told r }
    ensures kept { (shelf : Option Shelf) (worker : ℕ) (asked : AChange) (h k : List AnEntry) (r : AReply) → Changes shelf worker asked h r k → told r ≡ 0 → k ≡ h }
    ensures grows { (shelf : Option Shelf) (worker : ℕ) (asked : AChange) (h k : List AnEntry) (r : AReply) → Changes shelf worker asked h r k → IsPrefix h k }
    ensures legal { (shelf : Option Shelf) (worker : ℕ) (asked : AChange) (h k : List AnEntry) (r : AReply) → Changes shelf worker asked h r k → IsLegal h → IsLegal k }
{}

/// To one change at one history belongs one kind of reply where the shelf is told, but for want of memory and faults of the
/// outside: also whether it tells an accepted change.
pub fn refusal_law()
    ensures { (shelf : Shelf) (worker : ℕ) (asked : AChange) (h k l : List AnEntry) (r s : AReply)
        → r ≢ reply.OutOfMemory → s ≢ reply.OutOfMemory → ¬ IsOutsideFault r → ¬ IsOutsideFault s
        → Changes (Some shelf) worker asked h r k → Changes (Some shelf) worker asked h s l → (kind_of r ≡ kind_of s) × (told r ≡ told s) }
{
    one_outcome();
}
