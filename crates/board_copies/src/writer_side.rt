//! What the writer does with the two copies.

ghost use Rattle.std.specs.Prelude.{◌≡◌, [], drop, OnOk, OnErr};
ghost use Rattle.std.specs.Arc.{arc_value};
ghost use mathlib.Core.List.{IsPrefix};
ghost use Rattle.left_right.specs.Sides.{view};
ghost use Rattle.board_copies.specs.Queues.{EndsWith};
ghost use Rattle.board_copies.specs.Rules.{list_of, book_of, Knows, IsOneLonger};
ghost use Rattle.board_copies.specs.Stamps.{entries_of};

use crate::endless_wait::wait_for_ever;
use crate::held::{Held, Ready};
use crate::rule::{Publishing, SideWriter};
use std::sync::{Arc, Wait};
use venue_types::OutOfMemory;

/// Queues what is ready behind all that is queued, unless memory ran out: the last step that wants any. Nothing is published.
pub fn queue(writer: SideWriter, ready: Ready) -> (SideWriter, Result<(), OutOfMemory>)
    ensures shown { result.0.desk.shown.value ≡ writer.desk.shown.value }
    ensures known { view result.0.desk.place ≡ view writer.desk.place }
    ensures queued { OnOk result.1 (EndsWith (drop result.0.behind result.0.log.items) (arc_value ready.held)) }
    ensures kept { OnErr result.1 (drop result.0.behind result.0.log.items ≡ drop writer.behind writer.log.items) }
{
    let mut writer = writer;
    if writer.append(ready).is_err() {
        return (writer, Err(OutOfMemory));
    }
    (writer, Ok(()))
}

// Publishes all that is queued, of which `last` is the last: its list begins with the published one.
fn show_last<R: Wait>(writer: SideWriter, rt: &R, last: Arc<Held>) -> SideWriter
    requires last { EndsWith (drop writer.behind writer.log.items) (arc_value last) }
    requires book { (arc_value last).stamp.seen.book ≡ book_of writer.desk.shown.value }
    requires begins { IsPrefix (list_of writer.desk.shown.value) (entries_of (arc_value last).stamp) }
    ensures shown { arc_value result.desk.shown.value.held ≡ arc_value last }
    ensures idle { drop result.behind result.log.items ≡ [] }
    ensures known { Knows (view result.desk.place) result.desk.shown.value }
{
    let (writer, published) = writer.publish_as::<Publishing, R>(rt);
    if published.is_err() {
        // The owners of a board are too many to count: it never comes here.
        wait_for_ever(rt);
        unreachable!()
    }
    writer
}

/// Publishes all that is queued, of which `last` is the last, whatever else is queued before it. It waits for the readers of the copy
/// that isn't published.
pub fn show<R: Wait>(writer: SideWriter, rt: &R, last: Arc<Held>) -> (SideWriter, ())
    requires last { EndsWith (drop writer.behind writer.log.items) (arc_value last) }
    requires book { (arc_value last).stamp.seen.book ≡ book_of writer.desk.shown.value }
    requires longer { IsOneLonger (list_of writer.desk.shown.value) (entries_of (arc_value last).stamp) }
    ensures shown { arc_value result.0.desk.shown.value.held ≡ arc_value last }
    ensures idle { drop result.0.behind result.0.log.items ≡ [] }
    ensures known { Knows (view result.0.desk.place) result.0.desk.shown.value }
{
    (show_last(writer, rt, last), ())
}

/// Lets go of all that is queued, and the board that is published stays: a handle of it is queued behind the rest, and all is published. It
/// waits as `show` does. Where memory runs out what is queued stays so, and whatever is shown next takes it along.
pub fn fall_back<R: Wait>(writer: SideWriter, rt: &R) -> (SideWriter, Result<(), OutOfMemory>)
    ensures shown { arc_value result.0.desk.shown.value.held ≡ arc_value writer.desk.shown.value.held }
    ensures idle { OnOk result.1 (drop result.0.behind result.0.log.items ≡ []) }
    ensures queued { OnErr result.1 (drop result.0.behind result.0.log.items ≡ drop writer.behind writer.log.items) }
    ensures known { Knows (view writer.desk.place) writer.desk.shown.value → Knows (view result.0.desk.place) result.0.desk.shown.value }
{
    let Ok(held) = Arc::try_clone(&writer.published().held) else {
        return (writer, Err(OutOfMemory));
    };
    let Ok(last) = Arc::try_clone(&held) else {
        return (writer, Err(OutOfMemory));
    };
    let (writer, behind) = queue(writer, Ready { held });
    if behind.is_err() {
        return (writer, Err(OutOfMemory));
    }
    (show_last(writer, rt, last), Ok(()))
}

/// Queues a board and publishes it, unless memory ran out: then what is published stays, and what the writer knows. It waits as `show` does.
pub fn publish<R: Wait>(
    writer: SideWriter,
    rt: &R,
    held: Arc<Held>,
) -> (SideWriter, Result<(), OutOfMemory>)
    requires book { (arc_value held).stamp.seen.book ≡ book_of writer.desk.shown.value }
    requires longer { IsOneLonger (list_of writer.desk.shown.value) (entries_of (arc_value held).stamp) }
    ensures ok { OnOk result.1 (arc_value result.0.desk.shown.value.held ≡ arc_value held) }
    ensures err { OnErr result.1 (result.0.desk.shown.value ≡ writer.desk.shown.value) }
    ensures kept { OnErr result.1 (drop result.0.behind result.0.log.items ≡ drop writer.behind writer.log.items) }
    ensures book { book_of result.0.desk.shown.value ≡ book_of writer.desk.shown.value }
    ensures known { Knows (view writer.desk.place) writer.desk.shown.value → Knows (view result.0.desk.place) result.0.desk.shown.value }
{
    let Ok(last) = Arc::try_clone(&held) else {
        return (writer, Err(OutOfMemory));
    };
    let (writer, queued) = queue(writer, Ready { held });
    if queued.is_err() {
        return (writer, Err(OutOfMemory));
    }
    let (writer, ()) = show(writer, rt, last);
    (writer, Ok(()))
}

/// Publishes nothing new: the writer then knows all of the copy that is published. It waits as a publication does.
pub fn settle<R: Wait>(writer: SideWriter, rt: &R) -> SideWriter
    requires idle { drop writer.behind writer.log.items ≡ [] }
    ensures shown { arc_value result.desk.shown.value.held ≡ arc_value writer.desk.shown.value.held }
    ensures idle { drop result.behind result.log.items ≡ [] }
    ensures known { Knows (view result.desk.place) result.desk.shown.value }
{
    let (writer, published) = writer.publish_as::<Publishing, R>(rt);
    if published.is_err() {
        wait_for_ever(rt);
        unreachable!()
    }
    writer
}
