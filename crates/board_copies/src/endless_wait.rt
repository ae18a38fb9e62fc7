//! A call that never returns.

use std::sync::Wait;

/// Stands where no step that keeps the rule can lead, though the steps' clauses don't say so.
pub fn wait_for_ever<R: Wait>(rt: &R)
    ensures { ⊥ }
{
    for _ in rt.forever() {}
    unreachable!()
}
