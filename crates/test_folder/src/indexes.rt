//! Places of identifiers, worked out by hand.

use imdf_read::Index;
use std::test::Fail;
use venue_types::{AnchorRow, FeatureId, Point};

#[test]
fn finds_the_first_place(rt: HostRuntime) -> Result<(), Fail> {
    // The identifiers of rows, one that is sought, and its place.
    let table: [(&[u128], u128, Option<usize>); 9] = [
        (&[], 7, None),
        (&[7], 7, Some(0)),
        (&[7], 6, None),
        (&[7], 8, None),
        (&[7, 3, 9, 0], 9, Some(2)),
        (&[7, 3, 9, 0], 0, Some(3)),
        (&[7, 3, 9, 0], 8, None),
        (&[7, 3, u128::MAX], u128::MAX, Some(2)),
        (&[9, 5, 8, 5, 5], 5, Some(1)),
    ];
    for (ids, sought, want) in table {
        let mut rows = Vec::new(rt.alloc());
        for id in ids {
            rows.push(AnchorRow {
                id: FeatureId(*id),
                point: Point { x: 0, y: 0 },
                unit: FeatureId(sought),
                address: None,
            })?;
        }
        let index = Index::of(rt.alloc(), &rows)?;
        assert!(rt; index.place_of(FeatureId(sought)) == want);
    }
    Ok(())
}
