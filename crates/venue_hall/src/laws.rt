//! What holds of every hall by the words of its replies, and of the files that a log keeps.

ghost use Rattle.std.specs.Prelude.{◌≡◌, ◌≢◌, List, length};
ghost use mathlib.Core.List.{IsPrefix};
ghost use Rattle.venue_types.specs.declared.files.Files.{Files};
ghost use Rattle.venue_types.specs.declared.query.Change.{Change};
ghost use Rattle.venue_types.specs.declared.query.Query.{Query};
ghost use Rattle.venue_types.specs.declared.reply.Reply.{Reply};
ghost use Rattle.venue_types.specs.declared.reply.Reply.TheVariants as reply;
ghost use Rattle.venue_types.specs.declared.settings.Settings.{Settings};
ghost use Rattle.venue_history.specs.Built.{IsVenueOf};
ghost use Rattle.venue_history.specs.Venues.{SeenVenue};
ghost use Rattle.venue_history.specs.declared.entry.Entry.{Entry};
ghost use Rattle.venue_history.specs.Replies.{told, kind_of};
ghost use Rattle.venue_hall.specs.Facts.{Facts, IsAnswered, IsChanged, IsLastBy};
ghost use Rattle.venue_hall.specs.Records.{AreSlots};

use venue_history::{answer_law, change_law, sizes_law};

/// What a hall has seen leads to one version: there one kind of reply belongs to a question, but for want of memory.
pub fn answered_law()
    ensures { (seen : List Entry) (query : Query) (r s : Reply) → r ≢ reply.OutOfMemory → s ≢ reply.OutOfMemory
        → IsAnswered seen query r → IsAnswered seen query s → kind_of r ≡ kind_of s }
{
    answer_law();
}

/// Behind a change what was seen before stands in front of what is seen then. Where the reply tells that it was accepted, its
/// entry is the last, by the hall's worker; where it doesn't, what is seen may still have grown by others' changes.
pub fn changed_law()
    ensures grows { (old new : Facts) (asked : Change) (r : Reply) → IsChanged old new asked r → IsPrefix old.seen new.seen }
    ensures last { (old new : Facts) (asked : Change) (r : Reply) → IsChanged old new asked r → told r ≡ 1 → IsLastBy old.worker new.seen }
{
    change_law();
}

/// The seventeen files of which a venue is made are within the limit of a log.
pub fn slots_law()
    ensures { (files : Files) (settings : Settings) (venue : SeenVenue) → length files.slots ≡ 17 → IsVenueOf files settings venue → AreSlots files.slots }
{
    sizes_law();
}
