//! Writing geometries.

ghost use Rattle.std.specs.Prelude.{◌≡◌, ◌++◌, OnOk, codes};
ghost use Rattle.gen_text.specs.Geometry.{position, ring, box_text, line_text};

use crate::identifiers::push_padded;
use std::alloc::AllocError;

/// A place in metres east and north of the building's first corner.
#[derive(Clone, Copy)]
pub(crate) struct Place {
    pub(crate) x: u16,
    pub(crate) y: u16,
}

fn push_position(out: &mut Vec<u8>, place: Place) -> Result<(), AllocError>
    ensures { OnOk result (out.new.items ≡ out.old.items ++ position place) }
{
    out.extend_from_slice(b"[10.00")?;
    push_padded(out, 3, place.x as u32)?;
    out.extend_from_slice(b",50.00")?;
    push_padded(out, 3, place.y as u32)?;
    out.push(b']')?;
    Ok(())
}

// A comma and a position.
fn push_next(out: &mut Vec<u8>, place: Place) -> Result<(), AllocError>
    ensures { OnOk result (out.new.items ≡ out.old.items ++ codes "," ++ position place) }
{
    out.push(b',')?;
    push_position(out, place)?;
    Ok(())
}

// The corners of the box between two of them, and the first one again.
fn push_ring(out: &mut Vec<u8>, from: Place, to: Place) -> Result<(), AllocError>
    ensures { OnOk result (out.new.items ≡ out.old.items ++ ring from to) }
{
    push_position(out, from)?;
    push_next(out, Place { x: to.x, y: from.y })?;
    push_next(out, to)?;
    push_next(out, Place { x: from.x, y: to.y })?;
    push_next(out, from)?;
    Ok(())
}

/// Adds a polygon of one ring, the box between two corners.
pub(crate) fn push_box(out: &mut Vec<u8>, from: Place, to: Place) -> Result<(), AllocError>
    ensures { OnOk result (out.new.items ≡ out.old.items ++ box_text from to) }
{
    out.extend_from_slice(br#"{"type":"Polygon","coordinates":[["#)?;
    push_ring(out, from, to)?;
    out.extend_from_slice(b"]]}")?;
    Ok(())
}

/// Adds a line from one place to another.
pub(crate) fn push_line(out: &mut Vec<u8>, from: Place, to: Place) -> Result<(), AllocError>
    ensures { OnOk result (out.new.items ≡ out.old.items ++ line_text from to) }
{
    out.extend_from_slice(br#"{"type":"LineString","coordinates":["#)?;
    push_position(out, from)?;
    push_next(out, to)?;
    out.extend_from_slice(b"]}")?;
    Ok(())
}
