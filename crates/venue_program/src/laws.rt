//! What follows of every run, whichever command it is of.

ghost use Rattle.std.specs.Prelude.{◌≡◌, ◌⊎◌, ◌++◌, ℕ, List, Option, Some};
ghost use Rattle.venue_ports.specs.Files.{StoredFile};
ghost use Rattle.venue_commands.specs.declared.status.Status.{Status as AStatus};
ghost use Rattle.venue_commands.specs.declared.status.Status.TheVariants.{Done, Negative};
ghost use Rattle.venue_commands.specs.Runs.{Run};
ghost use Rattle.venue_program.specs.Complete.{IsUnhindered, IsDone};
ghost use Rattle.venue_program.specs.Disks.{DisksRun};
ghost use Rattle.venue_program.specs.Doors.{DoorsRun};
ghost use Rattle.venue_program.specs.Ends.{RunEnds};
ghost use Rattle.venue_program.specs.Kept.{KeptSession};
ghost use Rattle.venue_service.specs.Making.{shelf_of};
ghost use Rattle.journal_start.specs.Headline.{Headline};

use journal_start::headline_law;

/// A command that neither words nor files nor a journal stop, and in which nothing of the outside fails, ends as it is for, or for want of memory.
pub fn complete_run_law()
    ensures { (words : List (List ℕ)) (files : List StoredFile) (run : Run) (doors : DoorsRun) (disks : DisksRun) (status : AStatus) → IsUnhindered words files run doors disks
        → RunEnds words (Some files) run doors disks status → IsDone status }
{}

/// Where a session that keeps a journal ends by itself, and the console tells its bytes, what was written answers the messages that came; the history before them
/// is the one with which its hall went on.
pub fn kept_headline_law()
    ensures { (words : List (List ℕ)) (files : Option (List StoredFile)) (run : Run) (doors : DoorsRun) (disks : DisksRun) (status : AStatus) (came before : List ℕ)
        → (session : KeptSession words files run doors disks status) → run.left ≡ Some came → run.written ≡ Some before → (status ≡ Done) ⊎ (status ≡ Negative)
        → (left : List ℕ) × (written : List ℕ) × (run.left_now ≡ Some left) × (run.written_now ≡ Some (before ++ written))
        × Headline session.settings.staff_keys (shelf_of files session.base) 1 session.entries came left written }
{
    headline_law();
}
