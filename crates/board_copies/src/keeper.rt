//! The writer of the two copies, where it lies under a lock.

ghost use Rattle.std.specs.Prelude.{◌≡◌};

use crate::held::{Ready, Side};
use crate::rule::Law;
use crate::view::View;
use crossbeam_utils::rule::Protocol;
use left_right::Absorb;
use left_right::writer::Writer;
use std::mem::ManuallyDrop;

/// A writer that may be let go: its copies then stay in memory, since giving them back would wait. Take it apart in place of that.
pub struct Keep<T: Absorb<O> + Drop, O: Drop, V, P: Protocol<T, V>> {
    pub writer: Writer<T, O, V, P>,
}

impl<T: Absorb<O> + Drop, O: Drop, V, P: Protocol<T, V>> Drop for Keep<T, O, V, P> {
    fn drop(self) {
        let Self { writer } = self;
        let _kept = unsafe { ManuallyDrop::new_unchecked(writer) };
    }
}

impl<T: Absorb<O> + Drop, O: Drop, V, P: Protocol<T, V>> Keep<T, O, V, P> {
    pub fn into_writer(self) -> Writer<T, O, V, P>
        ensures { result ≡ self.writer }
    {
        let Self { writer } = self;
        writer
    }
}

/// The writer of the two copies of the board.
pub type Keeper = Keep<Side, Ready, View, Law>;
