//! Each call once.

ghost use Rattle.std.specs.Prelude.{◌≡◌, ◌<◌};

use std::marker::Brand;
use std::mem::size_of;
use std::sync::ledger::{Blank, Ledger};
use walk_laws::Steps;

// So many steps from the first on.
fn walked<L: Ledger>(blank: Blank, count: u32) -> Steps<L>
    requires some { 0 < L.parts }
    requires name { blank.name ≡ L.name }
    requires parts { blank.parts ≡ L.parts }
    ensures { result ≡ count }
{
    let mut steps = Steps::begin(blank);
    for _i in 0..count {
        steps.tick();
    }
    steps
}

// The same, over a ledger that is picked here.
fn walk<L: Ledger>(blank: Blank, count: u32)
    requires some { 0 < L.parts }
    requires name { blank.name ≡ L.name }
    requires parts { blank.parts ≡ L.parts }
{
    let _steps = walked::<L>(blank, count);
}

#[test]
fn steps_take_no_bytes(rt: HostRuntime) {
    walk::<Brand>(Blank::new(1), 3);
    assert!(rt; size_of::<Steps<Brand>>() == 0);
}
