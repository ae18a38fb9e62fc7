//! Venues of eight rooms in two rows under a hall, with doors in their walls and passages one way, made by arithmetic.

ghost use Rattle.std.specs.Prelude.{◌<◌};

use crate::folders::{Folder, Place, add, between, feature, moved, name, opening, unit};
use crate::members::{LEVEL, level};
use crate::station::venue_in;
use std::alloc::{AllocError, Global};
use std::sync::Arc;
use std::test::Fail;
use venue_build::Venue;

const SIDE: i64 = 100_000;

const CATEGORIES: [&str; 4] = ["room", "stairs", "elevator", "column"];

/// The tail of the door in no wall, which leads nowhere.
pub(super) const STRAY: u128 = 0x3008;

/// A number below the limit, by arithmetic alone, which moves the state on.
pub(super) fn drawn(state: &mut u64, limit: u32) -> u32
    requires { 0 < limit }
    ensures { result < limit }
{
    *state = (*state)
        .wrapping_mul(6_364_136_223_846_793_005)
        .wrapping_add(1_442_695_040_888_963_407);
    ((*state >> 33) % u64::from(limit)) as u32
}

fn corner(k: u32) -> Place {
    (i64::from(k % 4) * SIDE, i64::from(k / 4) * SIDE)
}

fn room(alloc: Global, k: u32, state: &mut u64) -> Result<String, AllocError> {
    let ring = between(corner(k), moved(corner(k), SIDE, SIDE));
    let category = CATEGORIES[drawn(state, 4) as usize];
    let number = (k as usize).saturating_add(1_000);
    unit(alloc, number, LEVEL, category, &ring, &[])
}

// From a drawn room one may get to another, or to the same, and not back.
fn passage(alloc: Global, k: u32, state: &mut u64) -> Result<String, AllocError> {
    let category = ["elevator", "escalator"][drawn(state, 2) as usize];
    let from = name(alloc, 1_000 + drawn(state, 8) as usize)?;
    let to = name(alloc, 1_000 + drawn(state, 8) as usize)?;
    let properties = format!(in alloc;
        "\"category\":\"{category}\",\"direction\":\"directed\",\"origin\":{{\"id\":{from},\"feature_type\":\"unit\"}},\"destination\":{{\"id\":{to},\"feature_type\":\"unit\"}}"
    )?;
    let number = (k as usize).saturating_add(4_000);
    feature(alloc, "relationship", number, "null", properties.as_str())
}

fn add_door(
    folder: &mut Folder,
    alloc: Global,
    number: u32,
    place: Place,
) -> Result<(), AllocError> {
    let door = opening(alloc, number as usize, LEVEL, &[place, place])?;
    add(&mut folder.openings, door.as_str())
}

// A door to the south of a room, and to the west two at one place.
fn add_doors(
    folder: &mut Folder,
    alloc: Global,
    k: u32,
    state: &mut u64,
) -> Result<(), AllocError> {
    let along = i64::from(drawn(state, 3)) * 25_000 + 25_000;
    let west = moved(corner(k), 0, along);
    add_door(folder, alloc, k.saturating_add(3_000), west)?;
    add_door(
        folder,
        alloc,
        k.saturating_add(3_010),
        moved(corner(k), along, 0),
    )?;
    add_door(folder, alloc, k.saturating_add(3_020), west)
}

/// A venue, as drawn.
pub(super) fn made_venue(alloc: Global, state: &mut u64) -> Result<Arc<Venue>, Fail> {
    let mut folder = Folder::empty(alloc);
    folder.levels = level(alloc)?;
    let around = between((0, 0), (4 * SIDE, 2 * SIDE));
    folder.units = unit(alloc, 1_008, LEVEL, "lobby", &around, &[])?;
    add_door(&mut folder, alloc, 3_008, (500_000, 0))?;
    for k in 0..8u32 {
        add(&mut folder.units, room(alloc, k, state)?.as_str())?;
        add(
            &mut folder.relationships,
            passage(alloc, k, state)?.as_str(),
        )?;
        add_doors(&mut folder, alloc, k, state)?;
    }
    venue_in(alloc, &folder.files(alloc)?)
}
