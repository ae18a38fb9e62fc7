//! Many rings with the octagons of their halves.

ghost use Rattle.std.specs.Prelude.{◌≡◌, IfSome};
ghost use Rattle.plane_trees.specs.Groves.{AreGroveHalves};

use crate::octagons::Octagon;
use crate::ring_bands::RingBands;
use venue_types::Point;

/// What is kept over the rings of a shape: octagons counted from the origin, how often the row of rings is halved, and whether
/// each of them is known to be closed.
#[derive(Drop)]
pub(crate) struct Over {
    pub origin: Point,
    pub closed: bool,
    pub depth: usize,
    pub octagons: Vec<Octagon>,
}

/// Some rings. Of the octagons, the first lies round them all, the first half of the others belongs to the first half of the
/// rings, and the second half to the second, until `depth` halvings are done.
#[derive(Clone, Copy)]
pub(crate) struct Grove<'a> {
    pub rings: &'a [RingBands<'a>],
    pub depth: usize,
    pub octagons: &'a [Octagon],
}

/// The two halves of the rings, unless they are to be looked at one by one.
pub(crate) fn grove_halves<'a>(grove: Grove<'a>) -> Option<(Grove<'a>, Grove<'a>)>
    ensures { IfSome result (λ both. AreGroveHalves grove.entry both.0 both.1) }
{
    if grove.depth == 0 {
        return None;
    }
    let below = match grove.octagons {
        [] => return None,
        [_, below @ ..] => below,
    };
    let (front, back) = grove.rings.split_at(grove.rings.len() / 2);
    let (front_octagons, back_octagons) = below.split_at(below.len() / 2);
    let first = Grove {
        rings: front,
        depth: grove.depth - 1,
        octagons: front_octagons,
    };
    let second = Grove {
        rings: back,
        depth: grove.depth - 1,
        octagons: back_octagons,
    };
    Some((first, second))
}
