//! What `links` and `route` print, `verify` proves.

ghost use Rattle.std.specs.Prelude.{◌≡◌, ℕ, List, codes};
ghost use Rattle.venue_types.specs.declared.feature_id.FeatureId.{FeatureId};
ghost use Rattle.venue_ports.specs.Files.{StoredFile};
ghost use Rattle.line_forms.specs.Lines.{line};
ghost use Rattle.venue_commands.specs.declared.status.Status.{Status as AStatus};
ghost use Rattle.venue_commands.specs.declared.status.Status.TheVariants.{Done};
ghost use Rattle.venue_commands.specs.Kept.{AreKept, HaveAnswered, IsProvedBy};
ghost use Rattle.venue_commands.specs.Verified.{VerifyOutput};

use route_certificate::{answer_law, table_law, verdict_law};
use venue_session::one_outcome;

/// What `route` prints over a folder is proved by the table that `links` prints for the same words, and true of it; and where
/// both texts are kept as the files of a base, whichever, `verify` prints `proved`.
pub fn route_is_proved()
    ensures shown { (files : List StoredFile) (base folder name table answer : List ℕ) (from to : FeatureId) → HaveAnswered files base folder name from to table answer
        → IsProvedBy table answer }
    ensures proved { (files kept : List StoredFile) (base folder name desk table answer text : List ℕ) (from to : FeatureId) (judged : AStatus)
        → HaveAnswered files base folder name from to table answer → AreKept kept desk table answer → VerifyOutput kept desk text judged
        → (text ≡ line (codes "proved")) × (judged ≡ Done) }
{
    one_outcome();
    table_law();
    answer_law();
    verdict_law();
}
