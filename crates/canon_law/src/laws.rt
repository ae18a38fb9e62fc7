//! What becomes of a folder that makes a venue when it is written in its fixed form.

ghost use Rattle.std.specs.Prelude.{◌≡◌, length};
ghost use Rattle.venue_types.specs.declared.files.Files.{Files};
ghost use Rattle.venue_types.specs.declared.settings.Settings.{Settings};
ghost use Rattle.venue_types.specs.declared.finding.Report.{Report};
ghost use Rattle.venue_build.specs.Venues.{SeenVenue as Venue};
ghost use Rattle.venue_build.specs.Built.{IsRejected, IsVenueOf};
ghost use Rattle.writing_law.specs.Written.{written, IsWithinLimit};
ghost use Rattle.canon_law.specs.Rewritten.{rewritten};

use venue_build::one_outcome;
use writing_law::{notes_law, writer_law};

/// A folder that makes a venue makes one of the same rows when it is written in its fixed form, if no file of that has more
/// bytes than are read: under the same settings, and with the same notes, less those on the text of a restriction. It makes
/// no other, and it isn't rejected.
pub fn canon_checked()
    ensures venue { (files : Files) (settings : Settings) (venue : Venue) → length files.slots ≡ 17 → IsVenueOf files settings venue
        → IsWithinLimit venue.features → IsVenueOf (written venue.features) settings (rewritten venue) }
    ensures only { (files : Files) (settings : Settings) (venue again : Venue) → length files.slots ≡ 17 → IsVenueOf files settings venue
        → IsWithinLimit venue.features → IsVenueOf (written venue.features) settings again → again ≡ rewritten venue }
    ensures accepted { (files : Files) (settings : Settings) (venue : Venue) (report : Report) → length files.slots ≡ 17
        → IsVenueOf files settings venue → IsWithinLimit venue.features → ¬ IsRejected (written venue.features) settings report }
{
    writer_law();
    notes_law();
    one_outcome();
}
