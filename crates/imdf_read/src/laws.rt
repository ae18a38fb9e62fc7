//! What the rows of a folder without findings of the first phase are.

ghost use Rattle.std.specs.Prelude.{◌≡◌, length, All};
ghost use Rattle.venue_types.specs.declared.files.Files.{Files};
ghost use Rattle.venue_types.specs.declared.features.Features.{Features};
ghost use Rattle.venue_types.specs.declared.finding.Finding.{Finding};
ghost use Rattle.imdf_rows.specs.Folder.{AreFeatures};
ghost use Rattle.imdf_read.specs.Broken.{IsBroken};
ghost use Rattle.feature_rows.specs.Sound.{AreSound};
ghost use Rattle.imdf_read.specs.Ordinals.{IsInRange};

use exact_json::laws::one_json_law;
use geo_shapes::{one_line_law, one_point_law, one_shape_law};

/// Where the first phase finds nothing in the files, their rows are sound: one venue, the limits kept, each position
/// on the earth, each figure of its form.
pub fn sound_reading_law()
    ensures { (files : Files) (features : Features) → length files.slots ≡ 17 → ((x : Finding) → ¬ IsBroken files x)
        → AreFeatures files features → AreSound features }
{}

/// Where the first phase finds nothing in the files, they have one reading.
pub fn one_reading_law()
    ensures { (files : Files) (one other : Features) → length files.slots ≡ 17 → ((x : Finding) → ¬ IsBroken files x)
        → AreFeatures files one → AreFeatures files other → one ≡ other }
{
    one_json_law();
    one_point_law();
    one_line_law();
    one_shape_law();
}

/// Where the first phase finds nothing in the files, the ordinals of their levels lie from -180 to 180.
pub fn ordinals_law()
    ensures { (files : Files) (features : Features) → ((x : Finding) → ¬ IsBroken files x)
        → AreFeatures files features → All IsInRange features.levels }
{}
