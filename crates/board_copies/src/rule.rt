//! The rule over the two copies, and the steps that keep it.

use crate::held::{Ready, Side};
use crate::view::View;
use atomic_table::{Join, Split};
use crossbeam_utils::rule::{Outcome, Protocol};
use left_right::reader::Reader;
use left_right::writer::Writer;

/// Every list that anyone saw is a beginning of the published one.
pub struct Law;

impl Protocol<Side, View> for Law {
    ghost use Rattle.board_copies.specs.Rules.{Kept, nobody};

    ghost holds = { Kept };

    ghost first = { nobody };
}

/// A reader enters.
pub struct Seeing;

impl Outcome<Side, View> for Seeing {
    ghost use Rattle.board_copies.specs.Rules.{Sees};

    ghost then = { Sees };
}

/// The writer publishes.
pub struct Publishing;

impl Outcome<Side, View> for Publishing {
    ghost use Rattle.board_copies.specs.Rules.{Publishes};

    ghost then = { Publishes };
}

/// The writer tells what it knows, and a reader learns of it which book it is.
pub struct Notes;

impl Split<View> for Notes {
    ghost left = { λ v. v };

    ghost right = { λ v. v };
}

impl Join<View> for Notes {
    ghost use Rattle.board_copies.specs.Rules.{informed, nobody};

    ghost both = { informed };

    ghost spent = { nobody };
}

/// Who reads the published copy.
pub type SideReader = Reader<Side, View, Law>;

/// Who changes the other copy, and publishes it.
pub type SideWriter = Writer<Side, Ready, View, Law>;
