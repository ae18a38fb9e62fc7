//! What the compact text is, and what becomes of pieces that are added to a draft.

ghost use Rattle.std.specs.Prelude.{◌≡◌, ℕ, ◌≤◌, ◌<◌, ◌-◌, ◌^◌, List, [], ◌++◌, length, take, min};
ghost use Rattle.exact_json.specs.Grammar.{IsJson};
ghost use Rattle.exact_json.specs.Json.{Json, AllNumbers, HasTexts};
ghost use Rattle.exact_json.specs.Number.{IsNumber};
ghost use Rattle.json_text.specs.Compact.{compact};
ghost use Rattle.json_text.specs.Drafts.{Drafted, fresh, onto};

/// A value's compact text is a JSON text of that value, where the value's numbers are number tokens and its texts are UTF-8.
pub fn compact_law()
    ensures { (v : Json) → AllNumbers IsNumber v → HasTexts v → IsJson (compact v) v }
{}

/// Two pieces that are added one behind the other are added as one, and an empty piece changes nothing.
pub fn onto_law()
    ensures twice { (d : Drafted) (s t : List ℕ) → onto (onto d s) t ≡ onto d (s ++ t) }
    ensures nothing { (d : Drafted) → onto d [] ≡ d }
{}

/// Of a text in a fresh draft a front is held that fills the room, all of it where there is room for all; and its bytes are counted, as far as 64 bits go.
pub fn fresh_law()
    ensures front { (n : ℕ) (s : List ℕ) → (onto (fresh n) s).bytes ≡ take n s }
    ensures held { (n : ℕ) (s : List ℕ) → length s ≤ n → (onto (fresh n) s).bytes ≡ s }
    ensures counted { (n : ℕ) (s : List ℕ) → (onto (fresh n) s).len ≡ min (length s) (2 ^ 64 - 1) }
    ensures room { (n : ℕ) (s : List ℕ) → (onto (fresh n) s).room ≡ n }
{}
