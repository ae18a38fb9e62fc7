//! The numbers of a building's features.

ghost use Rattle.std.specs.Prelude.{◌≡◌, ◌<◌};
ghost use Rattle.gen_text.specs.Numbers as numbers;

/// The place of the lift's opening among those of a level.
pub(crate) const LIFT_OPENING: u8 = 100;

/// The place of the stairs' opening among those of a level.
pub(crate) const STAIRS_OPENING: u8 = 101;

/// The place of the lift among the ways up from a level.
pub(crate) const LIFT_RELATIONSHIP: u8 = 0;

/// The place of the stairs among the ways up from a level.
pub(crate) const STAIRS_RELATIONSHIP: u8 = 1;

/// The place of the corridor among the units of a level.
pub(crate) const CORRIDOR_UNIT: u8 = 0;

/// The place of the lift among the units of a level.
pub(crate) const LIFT_UNIT: u8 = 101;

/// The place of the stairs among the units of a level.
pub(crate) const STAIRS_UNIT: u8 = 102;

pub(crate) fn opening_count(levels: u8) -> u32
    ensures { result ≡ numbers.opening_count levels }
{
    102 * levels as u32
}

pub(crate) fn relationship_count(levels: u8) -> u32
    ensures { result ≡ numbers.relationship_count levels }
{
    2 * levels.saturating_sub(1) as u32
}

pub(crate) fn unit_count(levels: u8) -> u32
    ensures { result ≡ numbers.unit_count levels }
{
    103 * levels as u32
}

fn first_opening(levels: u8) -> u32
    ensures { result ≡ numbers.first_opening levels }
{
    1 + levels as u32
}

fn first_relationship(levels: u8) -> u32
    ensures { result ≡ numbers.first_relationship levels }
{
    first_opening(levels) + opening_count(levels)
}

fn first_unit(levels: u8) -> u32
    ensures { result ≡ numbers.first_unit levels }
{
    first_relationship(levels) + relationship_count(levels)
}

pub(crate) fn venue_number(levels: u8) -> u32
    ensures { result ≡ numbers.venue_number levels }
{
    first_unit(levels) + unit_count(levels)
}

pub(crate) fn level_number(level: u8) -> u32
    ensures { result ≡ numbers.level_number level }
{
    1 + level as u32
}

pub(crate) fn opening_number(levels: u8, level: u8, place: u8) -> u32
    ensures { result ≡ numbers.opening_number levels level place }
{
    first_opening(levels) + 102 * level as u32 + place as u32
}

pub(crate) fn relationship_number(levels: u8, level: u8, place: u8) -> u32
    ensures { result ≡ numbers.relationship_number levels level place }
{
    first_relationship(levels) + 2 * level as u32 + place as u32
}

pub(crate) fn unit_number(levels: u8, level: u8, place: u8) -> u32
    ensures { result ≡ numbers.unit_number levels level place }
{
    first_unit(levels) + 103 * level as u32 + place as u32
}

/// The number of a room, by its level and its place among the hundred rooms of that level, both from 0.
pub fn room_number(levels: u8, level: u8, room: u8) -> u32
    requires { room < 100 }
    ensures { result ≡ numbers.unit_number levels level (numbers.room_unit room) }
{
    unit_number(levels, level, 1 + room)
}

/// The number of the lift of a level, from 0.
pub fn lift_number(levels: u8, level: u8) -> u32
    ensures { result ≡ numbers.unit_number levels level numbers.lift_unit }
{
    unit_number(levels, level, LIFT_UNIT)
}
