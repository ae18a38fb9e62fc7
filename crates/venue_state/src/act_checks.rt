//! Whether an act can be done.

ghost use Rattle.std.specs.Prelude.{◌≡◌, ◌≢◌, ◌<◌, ◌↔◌, IfOk, IfErr, IsTrue};
ghost use Rattle.venue_history.specs.Versions.{AreProfiles, Fits, MayFollow};
ghost use Rattle.venue_state.specs.Boards.{IsStand, version_of};
ghost use Rattle.venue_state.specs.Preparing.{HasSettings, IsDue, IsUnready};
ghost use Rattle.venue_state.specs.Replaying.{IsClosureAct};
ghost use Rattle.venue_state.specs.declared.unready.Unready.TheVariants as unready;

use crate::stand::Stand;
use crate::unready::Unready;
use venue_history::{Act, every_venue};
use venue_types::{ProfileSet, Settings};

// Whether there is a profile in a set, and each is one of the settings.
fn are_profiles(settings: &Settings, set: ProfileSet) -> bool
    ensures { IsTrue result ↔ AreProfiles settings.now set }
{
    !set.is_empty() && set.within(settings.profiles.len() as u32)
}

/// Whether a closure or a reopening is for profiles of the settings, and for one at least.
pub(crate) fn has_settings(stand: &Stand, act: &Act) -> bool
    requires { IsClosureAct act.now }
    ensures { IsTrue result ↔ HasSettings (version_of stand.now) act.now }
{
    match act {
        Act::Published(_) => unreachable!(),
        Act::Closed(it) => are_profiles(&stand.settings, it.profiles),
        Act::Reopened(it) => are_profiles(&stand.settings, it.profiles),
    }
}

/// Whether an act of a worker may follow what stands.
pub(crate) fn may_follow(stand: &Stand, act: &Act, worker: u8) -> bool
    requires stands { IsStand stand.now }
    requires settings { HasSettings (version_of stand.now) act.now }
    ensures { IsTrue result ↔ MayFollow (version_of stand.now) (record { worker = worker; act = act.now }) }
{
    if worker < 1 || worker > 16 {
        return false;
    }
    stand.order_law();
    match judge(stand, act) {
        Ok(()) => true,
        Err(_) => false,
    }
}

/// Tells why an act can't be done at what stands. Takes no memory.
pub(crate) fn judge(stand: &Stand, act: &Act) -> Result<(), Unready>
    requires stands { IsStand stand.now }
    requires settings { HasSettings (version_of stand.now) act.now }
    ensures room { IfOk result (λ _. (version_of stand.now).number < (version_of stand.now).settings.last_version) }
    ensures fits { IfOk result (λ _. Fits (version_of stand.now) act.now) }
    ensures unready { IfErr result (λ why. IsUnready (version_of stand.now) act.now why) }
    ensures free { IfErr result (λ why. why ≢ unready.OutOfMemory) }
{
    judge_feature(stand, act)?;
    if stand.has_room() {
        Ok(())
    } else {
        Err(Unready::Full)
    }
}

// Tells why it can't be done there, but for the number.
fn judge_feature(stand: &Stand, act: &Act) -> Result<(), Unready>
    requires stands { IsStand stand.now }
    requires settings { HasSettings (version_of stand.now) act.now }
    ensures due { IfOk result (λ _. IsDue (version_of stand.now) act.now) }
    ensures fits { IfOk result (λ _. Fits (version_of stand.now) act.now) }
    ensures unready { IfErr result (λ why. IsUnready (version_of stand.now) act.now why) }
    ensures free { IfErr result (λ why. why ≢ unready.OutOfMemory) }
{
    match act {
        Act::Published(venue) => {
            every_venue(venue);
            Ok(())
        }
        Act::Closed(it) => match stand.state(it.feature) {
            None => Err(Unready::NoFeature),
            Some(set) => {
                if set.has_all_of(it.profiles) {
                    Err(Unready::Unchanged)
                } else {
                    Ok(())
                }
            }
        },
        Act::Reopened(it) => match stand.state(it.feature) {
            None => Err(Unready::NoFeature),
            Some(set) => {
                if set.has_any_of(it.profiles) {
                    Ok(())
                } else {
                    Err(Unready::Unchanged)
                }
            }
        },
    }
}
