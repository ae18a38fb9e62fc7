//! The nodes of the station, worked out by hand: a metre is 10,000 nanodegrees. A feature is named by the last digits of its
//! identifier.

use crate::station::{id, venue_of};
use std::process::Abort;
use std::test::Fail;
use venue_build::{every_name, every_venue};
use venue_nodes::Nodes;

/// A feature, its node, and its number among what can be closed.
static WANTED: [(u128, Option<u32>, Option<u32>); 10] = [
    (0x31, Some(0), None),
    (0x51, Some(1), None),
    (0x42, Some(2), None),
    (0x52, Some(2), None),
    (0x101, Some(3), Some(0)),
    (0x300, Some(19), Some(20)),
    (0x404, Some(30), Some(32)),
    (0x307, None, Some(27)),
    (0x21, None, Some(16)),
    (0x10, None, None),
];

fn judge(rt: &impl Abort, nodes: &Nodes) {
    for (tail, node, closable) in &WANTED {
        assert!(rt; nodes.node_of(id(*tail)) == *node);
        assert!(rt; nodes.closable(id(*tail)) == *closable);
    }
    assert!(rt; nodes.len() == 31);
    assert!(rt; nodes.closables() == 33);
    let hall = nodes.node(19);
    assert!(rt; hall.id == id(0x300));
    assert!(rt; (hall.spot.x, hall.spot.y) == (20_001_000_000, 100_000_500_000));
    assert!(rt; nodes.closable_id(16) == id(0x21));
}

#[test]
fn a_station_has_its_nodes(rt: HostRuntime) -> Result<(), Fail> {
    let venue = venue_of(rt.alloc(), &[])?;
    every_venue(&venue);
    every_name(&venue);
    let nodes = Nodes::of(rt.alloc(), venue.features(), venue.settings())?;
    judge(&rt, &nodes);
    Ok(())
}
