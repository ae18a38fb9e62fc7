//! What a restart gives back.

ghost use Rattle.std.specs.Prelude.{◌≡◌, ℕ, List, [], ◌∷◌, ◌++◌, Some, length};
ghost use Rattle.venue_types.specs.declared.settings.Settings.{Settings};
ghost use Rattle.venue_ports.specs.Moments.{Moment, Leaves, LeavesOnly, Now};
ghost use Rattle.venue_hall.specs.Closed.{Version};
ghost use Rattle.venue_hall.specs.Entry.{Entry};
ghost use Rattle.venue_hall.specs.Histories.{Replays};
ghost use Rattle.venue_hall.specs.Records.{Logged};
ghost use Rattle.venue_hall.specs.Standing.{StandFor, AreRecordsOf};
ghost use Rattle.board_copies.specs.Stamps.{entries_of};
ghost use Rattle.board_copies.specs.declared.resuming.Resumed.{Resumed};
ghost use Rattle.change_journal.specs.Appends.{Append, IsAppend, AreAppends, IsJournalWith, kept_records, loose_records, moments_after};
ghost use Rattle.change_journal.specs.Told.{told_records};
ghost use Rattle.journal_restore.specs.Restarts.{AreSameEntries, IsRestartOf};
ghost use Rattle.journal_restore.specs.Restores.{IsReplayed, IsRestored};

use board_copies::first_law;
use change_journal::{kept_law, one_journal};
use venue_hall::one_outcome;

/// What a restart gives back of a hall whose changes a journal keeps, along any list of appends and wherever the disk stops. The records of those
/// that answered Ok stand for the hall's entries (its office keeps that); of what the stop leaves, where that is read back under the same settings,
/// come the same entries, with at most one more at their end, of an append that failed behind the last Ok (`between`) or that hasn't ended (`within`).
/// The same entries lead to the same version (`version`). And what is read back may be opened as a hall again (`opens`).
pub fn restart_law()
    ensures kept { (settings : Settings) (entries : List Entry) (records failed : List Logged) (image : List ℕ) (count : ℕ) (restored : List Entry)
        → StandFor settings records entries → IsJournalWith records failed image → IsReplayed settings count restored image
        → IsRestartOf settings entries failed restored }
    ensures between { (settings : Settings) (entries : List Entry) (records failed : List Logged) (old : List Moment) (appends : List Append)
        → Now (λ m. (image : List ℕ) → Leaves m image → IsJournalWith records failed image) old → AreAppends records old appends
        → StandFor settings (kept_records records appends) entries
        → Now (λ m. (image : List ℕ) (count : ℕ) (restored : List Entry) → Leaves m image → IsReplayed settings count restored image
        → IsRestartOf settings entries (loose_records failed appends) restored) (moments_after old appends) }
    ensures within { (settings : Settings) (entries : List Entry) (records failed : List Logged) (old : List Moment) (appends : List Append) (last : Append)
        → Now (λ m. (image : List ℕ) → Leaves m image → IsJournalWith records failed image) old → AreAppends records old appends
        → StandFor settings (kept_records records appends) entries → IsAppend (kept_records records appends) (moments_after old appends) last
        → LeavesOnly (λ image. (count : ℕ) (restored : List Entry) → IsReplayed settings count restored image
        → IsRestartOf settings entries (loose_records failed appends ++ last.entry ∷ []) restored) (moments_after old appends) last.moments }
    ensures version { (entries others : List Entry) (v w : Version) → AreSameEntries entries others → Replays entries v → Replays others w → v ≡ w }
    ensures opens { (settings : Settings) (old new : List Moment) (count : ℕ) (resumed : Resumed) → IsRestored settings old new count (Some resumed)
        → AreRecordsOf (told_records count new) (entries_of resumed.held.stamp) }
    ensures counted { (settings : Settings) (old new : List Moment) (count : ℕ) (resumed : Resumed) → IsRestored settings old new count (Some resumed)
        → count ≡ length (entries_of resumed.held.stamp) }
{
    kept_law();
    one_journal();
    one_outcome();
    first_law();
}
