//! What holds of every run of messages.

ghost use Rattle.std.specs.Prelude.{◌≡◌, ◌+◌, ◌≤◌, ℕ, List, [], ◌∷◌, ◌++◌, drop};
ghost use mathlib.Core.List.{IsPrefix};
ghost use Rattle.venue_hall.specs.Histories.{IsLegal};
ghost use Rattle.venue_hall.specs.Facts.{Facts, IsSameHall};
ghost use Rattle.venue_session.specs.Acting.{Acted, text_of, IsActed, AreOpen, Acts, told_in};

use venue_wire::{message_length_law, message_more_law};

/// Behind messages of which none closes, one more is acted on.
pub fn acts_push_law()
    ensures { (keys : List (List ℕ)) (old mid new : Facts) (bytes out rest : List ℕ) (ms : List Acted) (m : Acted)
        → Acts keys old bytes ms out mid rest → AreOpen ms → IsActed keys mid rest m new
        → Acts keys old bytes (ms ++ m ∷ []) (out ++ text_of m) new (drop m.length rest) }
{}

/// The messages that were acted on stay so whatever bytes follow, which then follow the rest: they don't depend on where the
/// stream was cut.
pub fn acts_more_law()
    ensures { (keys : List (List ℕ)) (old new : Facts) (bytes out rest more : List ℕ) (ms : List Acted)
        → Acts keys old bytes ms out new rest → Acts keys old (bytes ++ more) ms out new (rest ++ more) }
{
    message_more_law();
    message_length_law();
}

/// Behind messages of which none closes, the rest is acted on as if they were one run.
pub fn acts_then_law()
    ensures { (keys : List (List ℕ)) (old mid new : Facts) (bytes out rest behind last : List ℕ) (ms others : List Acted)
        → Acts keys old bytes ms out mid rest → AreOpen ms → Acts keys mid rest others behind new last
        → Acts keys old bytes (ms ++ others) (out ++ behind) new last }
{}

/// Of the messages that were acted on only the last may close.
pub fn acts_close_law()
    ensures { (keys : List (List ℕ)) (old new : Facts) (bytes out rest : List ℕ) (front : List Acted) (last : Acted)
        → Acts keys old bytes (front ++ last ∷ []) out new rest → AreOpen front }
{}

/// A run of messages keeps the hall: what it sees at most grows and stays a legal history, each accepted change that was told is
/// counted once, and faults are not forgotten.
pub fn acts_hall_law()
    ensures grows { (keys : List (List ℕ)) (old new : Facts) (bytes out rest : List ℕ) (ms : List Acted)
        → Acts keys old bytes ms out new rest → IsPrefix old.seen new.seen }
    ensures legal { (keys : List (List ℕ)) (old new : Facts) (bytes out rest : List ℕ) (ms : List Acted)
        → Acts keys old bytes ms out new rest → IsLegal old.seen → IsLegal new.seen }
    ensures same { (keys : List (List ℕ)) (old new : Facts) (bytes out rest : List ℕ) (ms : List Acted)
        → Acts keys old bytes ms out new rest → IsSameHall old new }
    ensures made { (keys : List (List ℕ)) (old new : Facts) (bytes out rest : List ℕ) (ms : List Acted)
        → Acts keys old bytes ms out new rest → new.made ≡ old.made + told_in ms }
    ensures faults { (keys : List (List ℕ)) (old new : Facts) (bytes out rest : List ℕ) (ms : List Acted)
        → Acts keys old bytes ms out new rest → old.faults ≤ new.faults }
{}
