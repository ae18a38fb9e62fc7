//! The two copies made, and readers of them.

ghost use Rattle.std.specs.Prelude.{◌≡◌, ◌<◌, ◌^◌, [], drop, IfOk};
ghost use Rattle.std.specs.Arc.{arc_value};
ghost use Rattle.left_right.specs.Sides.{view};
ghost use Rattle.board_copies.specs.Rules.{Knows};

use crate::held::{Held, Side};
use crate::reader_side::meet_in;
use crate::rule::{Notes, SideReader, SideWriter};
use std::alloc::Global;
use std::sync::Arc;
use venue_types::OutOfMemory;

/// Two copies of one board, with room for so many readers. The writer knows nothing of them until it has settled.
pub fn make_writer(alloc: Global, held: Held, readers: usize) -> Result<SideWriter, OutOfMemory>
    requires some { 0 < readers }
    requires range { readers < 2 ^ 32 }
    ensures shown { IfOk result (λ writer. arc_value writer.desk.shown.value.held ≡ held) }
    ensures idle { IfOk result (λ writer. drop writer.behind writer.log.items ≡ []) }
{
    let held = Arc::new(alloc, held)?;
    let other = Arc::try_clone(&held)?;
    let writer = SideWriter::new(alloc, Side { held }, Side { held: other }, readers)?;
    Ok(writer)
}

/// A reader that knows all of the copy that is published, unless memory ran out or there is no room for one more.
pub fn make_reader(writer: &mut SideWriter) -> Result<SideReader, OutOfMemory>
    requires { Knows (view writer.old.desk.place) writer.old.desk.shown.value }
    ensures reader { IfOk result (λ reader. Knows (view reader.place) writer.old.desk.shown.value) }
    ensures shown { writer.new.desk.shown.value ≡ writer.old.desk.shown.value }
    ensures queued { drop writer.new.behind writer.new.log.items ≡ drop writer.old.behind writer.old.log.items }
    ensures known { view writer.new.desk.place ≡ view writer.old.desk.place }
{
    let mut reader = writer.factory().reader()?;
    reader.learn::<Notes>(writer.tell::<Notes>());
    if meet_in(&mut reader, &writer.published().held) {
        Ok(reader)
    } else {
        Err(OutOfMemory)
    }
}
