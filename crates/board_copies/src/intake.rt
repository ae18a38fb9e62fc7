//! How a copy takes in what is published next: it becomes that board, of which both copies then have one. That takes no memory.

ghost use Rattle.std.specs.Arc.{arc_value};

use crate::held::{Held, Ready, Side};
use left_right::Absorb;
use std::alloc::AllocError;
use std::sync::Arc;

impl Absorb<Ready> for Side {
    type State = Held;

    ghost state = { λ copy. arc_value copy.held };

    ghost applied = { λ held ready. arc_value ready.held };

    fn absorb_first(&mut self, operation: &Ready, _other: &Side) -> Result<(), AllocError> {
        self.held = Arc::try_clone(&operation.held)?;
        Ok(())
    }

    fn absorb_second(&mut self, operation: Ready, _other: &Side) -> Result<(), Ready> {
        let Ready { held } = operation;
        self.held = held;
        Ok(())
    }
}
