//! What a legal history says of its first entry, and of those after it.

ghost use Rattle.std.specs.Prelude.{◌≡◌, ◌≢◌, ◌≤◌, List, [], ◌∷◌, ◌++◌};
ghost use Rattle.venue_history.specs.Venues.{SeenVenue as AVenue};
ghost use Rattle.venue_history.specs.Report.{AreValid};
ghost use Rattle.venue_history.specs.declared.entry.Entry.{Entry as AnEntry};
ghost use Rattle.venue_history.specs.Closed.{Version};
ghost use Rattle.venue_history.specs.Histories.{IsPublished, IsLegal, Replays};
ghost use Rattle.venue_history.specs.Versions.{MayFollow};
ghost use Rattle.venue_state.specs.Preparing.{HasSettings, IsUnready};
ghost use Rattle.venue_state.specs.declared.unready.Unready.{Unready as AnUnready};
ghost use Rattle.venue_state.specs.declared.unready.Unready.TheVariants as unready;

use venue_history::version_law;

/// A legal history has an entry, and the first is a publication by worker 0 of a venue whose rows every phase accepts.
pub fn first_law()
    ensures some { (h : List AnEntry) → IsLegal h → h ≢ [] }
    ensures worker { (e : AnEntry) (k : List AnEntry) → IsLegal (e ∷ k) → e.worker ≡ 0 }
    ensures published { (e : AnEntry) (k : List AnEntry) → IsLegal (e ∷ k) → (venue : AVenue) × IsPublished venue e.act }
    ensures valid { (e : AnEntry) (k : List AnEntry) (venue : AVenue) → IsLegal (e ∷ k) → IsPublished venue e.act → ∥ AreValid venue.features venue.settings ∥₁ }
{}

/// Each entry of a legal history may be made at the version to which those in front of it lead: a worker makes it, under that version's
/// settings, and a board of that version refuses to make it ready for want of memory alone.
pub fn following_law()
    ensures may { (h k : List AnEntry) (e : AnEntry) (v : Version) → Replays h v → IsLegal (h ++ e ∷ k) → ∥ MayFollow v e ∥₁ }
    ensures worker_some { (h k : List AnEntry) (e : AnEntry) (v : Version) → Replays h v → IsLegal (h ++ e ∷ k) → 1 ≤ e.worker }
    ensures worker_range { (h k : List AnEntry) (e : AnEntry) (v : Version) → Replays h v → IsLegal (h ++ e ∷ k) → e.worker ≤ 16 }
    ensures settings { (h k : List AnEntry) (e : AnEntry) (v : Version) → Replays h v → IsLegal (h ++ e ∷ k) → HasSettings v e.act }
    ensures unready { (h k : List AnEntry) (e : AnEntry) (v : Version) (why : AnUnready) → Replays h v → IsLegal (h ++ e ∷ k) → IsUnready v e.act why → why ≡ unready.OutOfMemory }
{
    version_law();
}
