//! What is told of some buildings, worked out by hand.

use std::test::Fail;
use venue_program::tell_building;

static LINES: [(u8, &str); 3] = [
    (
        1,
        "features 207\nnodes 205\nlinks 10710\nwheelchair 40600\nversion 2\nwheelchair 40600\nwalk 40600\n",
    ),
    (
        2,
        "features 415\nnodes 410\nlinks 21424\nwheelchair 44403\nversion 2\nwheelchair none\nwalk 42503\n",
    ),
    (
        3,
        "features 623\nnodes 615\nlinks 32138\nwheelchair 47403\nversion 2\nwheelchair none\nwalk 44003\n",
    ),
];

#[test]
fn buildings_are_told(rt: HostRuntime) -> Result<(), Fail> {
    for (levels, text) in LINES {
        let told = tell_building(rt.alloc(), levels)?;
        assert!(rt; told.accepted);
        assert!(rt; told.text.as_str() == text);
    }
    Ok(())
}
