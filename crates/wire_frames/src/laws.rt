//! What follows from the definitions alone.

ghost use Rattle.std.specs.Prelude.{◌≡◌, ◌+◌, ◌<◌, ℕ, List, ◌++◌, length, Some};
ghost use Rattle.httparse.specs.Grammar.{RequestHead, IsRequestHead, print_request};
ghost use Rattle.wire_frames.specs.declared.refusals.Refusal.{Refusal};
ghost use Rattle.wire_frames.specs.Frames.{IsShort, IsRefused, PlainFrame, HasFrame};
ghost use Rattle.wire_frames.specs.Heads.{head_extent};

/// A front is one thing alone: short, refused for one reason, or one frame.
pub fn one_front_law()
    ensures short_or_refused { (bytes : List ℕ) (r : Refusal) → IsShort bytes → ¬ IsRefused bytes r }
    ensures short_or_framed { (bytes : List ℕ) (f : PlainFrame) → IsShort bytes → ¬ HasFrame bytes f }
    ensures refused_or_framed { (bytes : List ℕ) (r : Refusal) (f : PlainFrame) → IsRefused bytes r → ¬ HasFrame bytes f }
    ensures one_refusal { (bytes : List ℕ) (r q : Refusal) → IsRefused bytes r → IsRefused bytes q → r ≡ q }
    ensures one_frame { (bytes : List ℕ) (f g : PlainFrame) → HasFrame bytes f → HasFrame bytes g → f ≡ g }
{}

/// What is refused or framed stays so, whatever bytes follow.
pub fn front_more_law()
    ensures refused { (bytes more : List ℕ) (r : Refusal) → IsRefused bytes r → IsRefused (bytes ++ more) r }
    ensures framed { (bytes more : List ℕ) (f : PlainFrame) → HasFrame bytes f → HasFrame (bytes ++ more) f }
{}

/// A front that is short has room in 81,920 bytes, the greatest head and the greatest body.
pub fn short_law()
    ensures { (bytes : List ℕ) → IsShort bytes → length bytes < 81920 }
{}

/// A head of the grammar ends where its print ends, whatever follows, with a line for its start and one for each field.
pub fn head_extent_law()
    ensures { (h : RequestHead) (rest : List ℕ) → IsRequestHead h → head_extent (print_request h ++ rest)
        ≡ Some (record { length = length (print_request h); lines = length h.fields + 1 }) }
{}
