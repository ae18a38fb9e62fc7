//! What follows of every run that asks for a session, or for a file in the fixed form.

ghost use Rattle.std.specs.Prelude.{◌≡◌, ℕ, List, Option, Some, None};
ghost use Rattle.venue_types.specs.declared.folder_file.File.{File};
ghost use Rattle.venue_session.specs.Venues.{SeenVenue};
ghost use Rattle.venue_ports.specs.Causes.{Rose};
ghost use Rattle.venue_ports.specs.Files.{StoredFile};
ghost use Rattle.venue_commands.specs.declared.status.Status.{Status};
ghost use Rattle.venue_commands.specs.Checked.{NoVenue, HasVenue};
ghost use Rattle.venue_commands.specs.Commands.{Canon, Session, IsAsked, words_of};
ghost use Rattle.venue_commands.specs.Complete.{IsServedOut, IsWrittenOut};
ghost use Rattle.venue_commands.specs.Ends.{Ends};
ghost use Rattle.venue_commands.specs.Headlines.{SaysHeadline};
ghost use Rattle.venue_commands.specs.Runs.{Run};

use venue_session::{headline_law, one_outcome};

/// However a run ends, the headline holds of it.
pub fn run_headline_law()
    ensures { (words : List (List ℕ)) (files : Option (List StoredFile)) (run : Run) (status : Status)
        → Ends words files run status → SaysHeadline words files run status }
{
    headline_law();
}

/// A folder is no venue, or it makes one. Where it makes one, no count rises and the words ask for its session, that is served until
/// it ends by itself or memory runs out; where they ask for a file of it, that file in the fixed form is printed, or memory runs out.
pub fn run_complete_law()
    ensures not_both { (files : List StoredFile) (base folder text : List ℕ) (status : Status) (venue : SeenVenue)
        → NoVenue files base folder text status → HasVenue files base folder venue → ⊥ }
    ensures served { (words : List (List ℕ)) (base folder : List ℕ) (files : List StoredFile) (venue : SeenVenue) (run : Run) (status : Status)
        → IsAsked (Session base folder None) → words ≡ words_of (Session base folder None) → HasVenue files base folder venue
        → (Rose run.console run.console_now → ⊥) → (Rose run.folders run.folders_now → ⊥)
        → Ends words (Some files) run status → IsServedOut words (Some files) run status }
    ensures written { (words : List (List ℕ)) (base folder : List ℕ) (file : File) (files : List StoredFile) (venue : SeenVenue) (run : Run) (status : Status)
        → IsAsked (Canon base folder file) → words ≡ words_of (Canon base folder file) → HasVenue files base folder venue
        → (Rose run.console run.console_now → ⊥) → (Rose run.folders run.folders_now → ⊥)
        → Ends words (Some files) run status → IsWrittenOut venue file run status }
{
    one_outcome();
}
