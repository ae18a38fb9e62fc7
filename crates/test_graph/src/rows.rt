//! Rows that are read of files and that the first two phases accept, and what is made of them.

ghost use Rattle.std.specs.Prelude.{◌≡◌, IfOk, length};
ghost use Rattle.imdf_read.specs.Figures.{judged_positions};
ghost use Rattle.imdf_read.specs.Rows.{HaveOwnIds};
ghost use Rattle.imdf_read.specs.Sound.{AreSound};
ghost use Rattle.plane_exact.specs.Figure.{AllClose};
ghost use Rattle.plane_exact.specs.Opening.{AreTouches};

use imdf_read::{ReadOut, read_folder, sound_reading_law};
use imdf_refs::{own_ids_law, reference_findings};
use opening_match::{Matches, touches};
use ring_rules::is_spread;
use std::alloc::Global;
use std::test::Fail;
use test_station::station_settings;
use venue_nodes::{Crowding, Nodes, Rows, crowding_by, first_crowding};
use venue_types::{Features, Files, Inside, Settings, Touches};

/// The rows of a folder in which the first phase finds nothing.
fn sound(alloc: Global, files: &Files) -> Result<Features, Fail>
    requires { length files.now.slots ≡ 17 }
    ensures { IfOk result AreSound }
{
    sound_reading_law();
    let ReadOut {
        features,
        findings,
        notes: _,
    } = read_folder(alloc, files)?;
    if !findings.is_empty() {
        return Err(Fail::new("the files are refused"));
    }
    Ok(features)
}

/// Which openings of a folder touch which of its units, within a tolerance.
pub(crate) fn touches_of(alloc: Global, files: &Files, tolerance: u32) -> Result<Touches, Fail>
    requires { length files.now.slots ≡ 17 }
{
    let features = sound(alloc, files)?;
    if is_spread(&features) {
        return Err(Fail::new("the folder is spread"));
    }
    let mut settings = station_settings(alloc)?;
    settings.border_tol = tolerance.min(100_000);
    each_touch(alloc, &features, &settings)
}

/// The touches of a folder in which no venue's limit on them is passed.
fn each_touch(alloc: Global, features: &Features, settings: &Settings) -> Result<Touches, Fail>
    requires sound { AreSound features.now }
    requires close { AllClose (judged_positions features.now) }
    ensures { IfOk result (AreTouches settings.now.border_tol features.now) }
{
    match touches(alloc, features, settings)? {
        Matches::Each(touches) => Ok(touches),
        Matches::Many(_) => Err(Fail::new("more openings than any venue may have")),
    }
}

/// The references of these rows name what is there, and no two rows have one identifier.
fn judge_names(alloc: Global, features: &Features) -> Result<(), Fail>
    requires { AreSound features.now }
    ensures { IfOk result (λ _. HaveOwnIds features.now) }
{
    own_ids_law();
    let findings = reference_findings(alloc, features)?;
    if !findings.is_empty() {
        return Err(Fail::new("a name is wrong"));
    }
    Ok(())
}

/// The rows of a folder in which the first three phases find nothing.
fn judged(alloc: Global, files: &Files) -> Result<Features, Fail>
    requires { length files.now.slots ≡ 17 }
    ensures sound { IfOk result AreSound }
    ensures own_ids { IfOk result HaveOwnIds }
    ensures close { IfOk result (λ features. AllClose (judged_positions features)) }
{
    let features = sound(alloc, files)?;
    judge_names(alloc, &features)?;
    if is_spread(&features) {
        return Err(Fail::new("the folder is spread"));
    }
    Ok(features)
}

/// The settings of the station, in which ways go so through a room.
fn settings_for(alloc: Global, inside: Inside) -> Result<Settings, Fail> {
    let mut settings = station_settings(alloc)?;
    settings.inside = inside;
    Ok(settings)
}

/// The members of the units of a folder, and the limit that they pass first.
pub(crate) fn rows_of(
    alloc: Global,
    files: &Files,
    inside: Inside,
) -> Result<(Rows, Option<Crowding>), Fail>
    requires { length files.now.slots ≡ 17 }
{
    let features = judged(alloc, files)?;
    let settings = settings_for(alloc, inside)?;
    let touches = each_touch(alloc, &features, &settings)?;
    let rows = Rows::of(alloc, &features, &settings, &touches)?;
    let limit = first_crowding(&features, &settings, &rows);
    Ok((rows, limit))
}

/// The nodes of a folder.
pub(crate) fn nodes_of(alloc: Global, files: &Files, inside: Inside) -> Result<Nodes, Fail>
    requires { length files.now.slots ≡ 17 }
{
    let features = judged(alloc, files)?;
    let settings = settings_for(alloc, inside)?;
    Ok(Nodes::of(alloc, &features, &settings)?)
}

/// The limit that a folder passes by so many openings at each of its first units.
pub(crate) fn crowding_of(alloc: Global, files: &Files, counts: &[usize]) -> Result<Crowding, Fail>
    requires { length files.now.slots ≡ 17 }
{
    let features = judged(alloc, files)?;
    let settings = settings_for(alloc, Inside::Straight)?;
    Ok(crowding_by(alloc, &features, &settings, counts)?)
}
