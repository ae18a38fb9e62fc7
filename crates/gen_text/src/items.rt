//! Writing features. Each gets a comma after it.

ghost use Rattle.std.specs.Prelude.{◌≡◌, ◌<◌, ◌++◌, map, codes, OnOk};
ghost use Rattle.gen_text.specs.Texts.{item_front, item, ordinal, level_properties, opening_properties, unit_properties, reference, relationship_properties};
ghost use Rattle.gen_text.specs.Texts.{rooms, level_item, opening_item, room_opening_item, opening_items, unit_item, room_unit_item, unit_items};
ghost use Rattle.gen_text.specs.Texts.{lift_relationship_item, stairs_relationship_item, relationship_items, venue_item};
ghost use Rattle.gen_text.specs.Ended.{with_comma, ended};

use crate::geometry::{Place, push_box, push_line};
use crate::identifiers::{push_identifier, push_signed};
use crate::numbers::{
    CORRIDOR_UNIT, LIFT_OPENING, LIFT_RELATIONSHIP, LIFT_UNIT, STAIRS_OPENING, STAIRS_RELATIONSHIP,
    STAIRS_UNIT, level_number, opening_number, relationship_number, unit_number, venue_number,
};
use std::alloc::AllocError;

const ROOMS: u8 = 100;

// The building's first corner, and the one across.
const FIRST: Place = Place { x: 0, y: 0 };

const LAST: Place = Place { x: 400, y: 18 };

fn push_front(out: &mut Vec<u8>, feature_type: &[u8], number: u32) -> Result<(), AllocError>
    ensures { OnOk result (out.new.items ≡ out.old.items ++ item_front feature_type.now number) }
{
    out.extend_from_slice(br#"{"type":"Feature","id":""#)?;
    push_identifier(out, number)?;
    out.extend_from_slice(br#"","feature_type":""#)?;
    out.extend_from_slice(feature_type)?;
    out.extend_from_slice(br#"","geometry":"#)?;
    Ok(())
}

// A level's ordinal.
fn ordinal(level: u8) -> i16
    ensures { result ≡ ordinal level }
{
    level as i16 - 100
}

fn push_level_properties(out: &mut Vec<u8>, level: u8) -> Result<(), AllocError>
    ensures { OnOk result (out.new.items ≡ out.old.items ++ level_properties level) }
{
    out.extend_from_slice(br#"{"ordinal":"#)?;
    push_signed(out, ordinal(level))?;
    out.extend_from_slice(b"}")?;
    Ok(())
}

fn push_opening_properties(out: &mut Vec<u8>, level: u8) -> Result<(), AllocError>
    ensures { OnOk result (out.new.items ≡ out.old.items ++ opening_properties level) }
{
    out.extend_from_slice(br#"{"level_id":""#)?;
    push_identifier(out, level_number(level))?;
    out.extend_from_slice(br#""}"#)?;
    Ok(())
}

fn push_unit_properties(out: &mut Vec<u8>, level: u8, category: &[u8]) -> Result<(), AllocError>
    ensures { OnOk result (out.new.items ≡ out.old.items ++ unit_properties level category.now) }
{
    out.extend_from_slice(br#"{"level_id":""#)?;
    push_identifier(out, level_number(level))?;
    out.extend_from_slice(br#"","category":""#)?;
    out.extend_from_slice(category)?;
    out.extend_from_slice(br#""}"#)?;
    Ok(())
}

fn push_reference(out: &mut Vec<u8>, feature_type: &[u8], number: u32) -> Result<(), AllocError>
    ensures { OnOk result (out.new.items ≡ out.old.items ++ reference feature_type.now number) }
{
    out.extend_from_slice(br#"{"id":""#)?;
    push_identifier(out, number)?;
    out.extend_from_slice(br#"","feature_type":""#)?;
    out.extend_from_slice(feature_type)?;
    out.extend_from_slice(br#""}"#)?;
    Ok(())
}

fn push_relationship_properties(
    out: &mut Vec<u8>,
    category: &[u8],
    feature_type: &[u8],
    origin: u32,
    destination: u32,
) -> Result<(), AllocError>
    ensures { OnOk result (out.new.items ≡ out.old.items ++ relationship_properties category.now feature_type.now origin destination) }
{
    out.extend_from_slice(br#"{"category":""#)?;
    out.extend_from_slice(category)?;
    out.extend_from_slice(br#"","direction":"undirected","origin":"#)?;
    push_reference(out, feature_type, origin)?;
    out.extend_from_slice(br#","destination":"#)?;
    push_reference(out, feature_type, destination)?;
    out.extend_from_slice(b"}")?;
    Ok(())
}

/// Adds a level.
pub(crate) fn push_level(out: &mut Vec<u8>, level: u8) -> Result<(), AllocError>
    ensures { OnOk result (out.new.items ≡ out.old.items ++ with_comma (level_item level)) }
{
    push_front(out, b"level", level_number(level))?;
    push_box(out, FIRST, LAST)?;
    out.extend_from_slice(br#","properties":"#)?;
    push_level_properties(out, level)?;
    out.extend_from_slice(b"},")?;
    Ok(())
}

fn push_opening(
    out: &mut Vec<u8>,
    levels: u8,
    level: u8,
    place: u8,
    from: Place,
    to: Place,
) -> Result<(), AllocError>
    ensures { OnOk result (out.new.items ≡ out.old.items ++ with_comma (opening_item levels level place from to)) }
{
    push_front(out, b"opening", opening_number(levels, level, place))?;
    push_line(out, from, to)?;
    out.extend_from_slice(br#","properties":"#)?;
    push_opening_properties(out, level)?;
    out.extend_from_slice(b"},")?;
    Ok(())
}

fn push_room_opening(out: &mut Vec<u8>, levels: u8, level: u8, room: u8) -> Result<(), AllocError>
    ensures { OnOk result (out.new.items ≡ out.old.items ++ with_comma (room_opening_item levels level room)) }
{
    let west = 4 * room as u16;
    let (from, to) = (Place { x: west + 1, y: 10 }, Place { x: west + 3, y: 10 });
    push_opening(out, levels, level, room, from, to)?;
    Ok(())
}

fn push_room_openings(out: &mut Vec<u8>, levels: u8, level: u8) -> Result<(), AllocError>
    ensures { OnOk result (out.new.items ≡ out.old.items ++ ended (map (room_opening_item levels level) rooms)) }
{
    for room in 0..ROOMS {
        push_room_opening(out, levels, level, room)?;
    }
    Ok(())
}

/// Adds the openings of a level.
pub(crate) fn push_openings(out: &mut Vec<u8>, levels: u8, level: u8) -> Result<(), AllocError>
    ensures { OnOk result (out.new.items ≡ out.old.items ++ ended (opening_items levels level)) }
{
    push_room_openings(out, levels, level)?;
    let (from, to) = (Place { x: 1, y: 14 }, Place { x: 3, y: 14 });
    push_opening(out, levels, level, LIFT_OPENING, from, to)?;
    let (from, to) = (Place { x: 397, y: 14 }, Place { x: 399, y: 14 });
    push_opening(out, levels, level, STAIRS_OPENING, from, to)?;
    Ok(())
}

fn push_unit(
    out: &mut Vec<u8>,
    levels: u8,
    level: u8,
    place: u8,
    category: &[u8],
    from: Place,
    to: Place,
) -> Result<(), AllocError>
    ensures { OnOk result (out.new.items ≡ out.old.items ++ with_comma (unit_item levels level place category.now from to)) }
{
    push_front(out, b"unit", unit_number(levels, level, place))?;
    push_box(out, from, to)?;
    out.extend_from_slice(br#","properties":"#)?;
    push_unit_properties(out, level, category)?;
    out.extend_from_slice(b"},")?;
    Ok(())
}

fn push_room_unit(out: &mut Vec<u8>, levels: u8, level: u8, room: u8) -> Result<(), AllocError>
    requires { room < 255 }
    ensures { OnOk result (out.new.items ≡ out.old.items ++ with_comma (room_unit_item levels level room)) }
{
    let west = 4 * room as u16;
    let (from, to) = (Place { x: west, y: 0 }, Place { x: west + 4, y: 10 });
    push_unit(out, levels, level, 1 + room, b"room", from, to)?;
    Ok(())
}

fn push_room_units(out: &mut Vec<u8>, levels: u8, level: u8) -> Result<(), AllocError>
    ensures { OnOk result (out.new.items ≡ out.old.items ++ ended (map (room_unit_item levels level) rooms)) }
{
    for room in 0..ROOMS {
        push_room_unit(out, levels, level, room)?;
    }
    Ok(())
}

/// Adds the units of a level.
pub(crate) fn push_units(out: &mut Vec<u8>, levels: u8, level: u8) -> Result<(), AllocError>
    ensures { OnOk result (out.new.items ≡ out.old.items ++ ended (unit_items levels level)) }
{
    let (from, to) = (Place { x: 0, y: 10 }, Place { x: 400, y: 14 });
    push_unit(out, levels, level, CORRIDOR_UNIT, b"walkway", from, to)?;
    push_room_units(out, levels, level)?;
    let (from, to) = (Place { x: 0, y: 14 }, Place { x: 4, y: 18 });
    push_unit(out, levels, level, LIFT_UNIT, b"elevator", from, to)?;
    let (from, to) = (Place { x: 396, y: 14 }, LAST);
    push_unit(out, levels, level, STAIRS_UNIT, b"stairs", from, to)?;
    Ok(())
}

fn push_relationship(
    out: &mut Vec<u8>,
    number: u32,
    category: &[u8],
    feature_type: &[u8],
    origin: u32,
    destination: u32,
) -> Result<(), AllocError>
    ensures { OnOk result (out.new.items ≡ out.old.items ++ with_comma (item (codes "relationship") number (codes "null") (relationship_properties category.now feature_type.now origin destination))) }
{
    push_front(out, b"relationship", number)?;
    out.extend_from_slice(b"null")?;
    out.extend_from_slice(br#","properties":"#)?;
    push_relationship_properties(out, category, feature_type, origin, destination)?;
    out.extend_from_slice(b"},")?;
    Ok(())
}

fn push_lift_relationship(out: &mut Vec<u8>, levels: u8, level: u8) -> Result<(), AllocError>
    requires { level < 255 }
    ensures { OnOk result (out.new.items ≡ out.old.items ++ with_comma (lift_relationship_item levels level)) }
{
    let number = relationship_number(levels, level, LIFT_RELATIONSHIP);
    let origin = unit_number(levels, level, LIFT_UNIT);
    let destination = unit_number(levels, level + 1, LIFT_UNIT);
    push_relationship(out, number, b"elevator", b"unit", origin, destination)?;
    Ok(())
}

fn push_stairs_relationship(out: &mut Vec<u8>, levels: u8, level: u8) -> Result<(), AllocError>
    requires { level < 255 }
    ensures { OnOk result (out.new.items ≡ out.old.items ++ with_comma (stairs_relationship_item levels level)) }
{
    let number = relationship_number(levels, level, STAIRS_RELATIONSHIP);
    let origin = opening_number(levels, level, STAIRS_OPENING);
    let destination = opening_number(levels, level + 1, STAIRS_OPENING);
    push_relationship(out, number, b"stairs", b"opening", origin, destination)?;
    Ok(())
}

/// Adds the ways from a level to the next.
pub(crate) fn push_relationships(out: &mut Vec<u8>, levels: u8, level: u8) -> Result<(), AllocError>
    requires { level < 255 }
    ensures { OnOk result (out.new.items ≡ out.old.items ++ ended (relationship_items levels level)) }
{
    push_lift_relationship(out, levels, level)?;
    push_stairs_relationship(out, levels, level)?;
    Ok(())
}

/// Adds the venue.
pub(crate) fn push_venue(out: &mut Vec<u8>, levels: u8) -> Result<(), AllocError>
    ensures { OnOk result (out.new.items ≡ out.old.items ++ with_comma (venue_item levels)) }
{
    push_front(out, b"venue", venue_number(levels))?;
    push_box(out, FIRST, LAST)?;
    out.extend_from_slice(br#","properties":"#)?;
    out.extend_from_slice(b"{}")?;
    out.extend_from_slice(b"},")?;
    Ok(())
}
