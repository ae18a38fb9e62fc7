//! The ends of the two copies, as types that hold one see them: by what it knows, or shows and has queued. Such a type has its end as a
//! parameter: whether it may go to another thread isn't found beside a real one.

use crate::held::{Ready, Side};
use crate::keeper::Keeper;
use crate::rule::SideReader;
use crate::view::View;

/// A reader, by what it knows.
pub trait Reads: Drop {
    ghost use Rattle.board_copies.specs.declared.view.View.{View};

    ghost client: { Self → View };
}

impl Reads for SideReader {
    ghost client = { λ r. r.place.me.0.client };
}

/// A writer, by the copy that is published and what is queued.
pub trait Writes: Drop {
    ghost use Rattle.std.specs.Prelude.{List};
    ghost use Rattle.board_copies.specs.declared.held.Side.{Side};
    ghost use Rattle.board_copies.specs.declared.held.Ready.{Ready};

    ghost shown: { Self → Side };

    ghost pending: { Self → List Ready };
}

impl Writes for Keeper {
    ghost use Rattle.std.specs.Prelude.{drop};

    ghost shown = { λ k. k.writer.desk.shown.value };

    ghost pending = { λ k. drop k.writer.behind k.writer.log.items };
}
