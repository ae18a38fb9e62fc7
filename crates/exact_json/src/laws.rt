//! Laws of JSON texts, as functions that do nothing: what they ensure holds of all texts.

ghost use Rattle.std.specs.Prelude.{◌≡◌, ℕ, List};
ghost use Rattle.exact_json.specs.Json.{Json, depth, AllNumbers};
ghost use Rattle.exact_json.specs.Number.{IsNumber};
ghost use Rattle.exact_json.specs.Grammar.{IsJson, bare};
ghost use Rattle.exact_json.specs.Nesting.{nesting};

/// A text has at most one value.
pub fn one_json_law()
    ensures { (b : List ℕ) → (j k : Json) → IsJson b j → IsJson b k → j ≡ k }
{}

/// A value is as deep as its text nests.
pub fn nesting_law()
    ensures { (b : List ℕ) → (j : Json) → IsJson b j → depth j ≡ nesting (bare b) }
{}

/// The token of each number in the value of a text is a number (RFC 8259, section 6).
pub fn numbers_law()
    ensures { (b : List ℕ) → (j : Json) → IsJson b j → AllNumbers IsNumber j }
{}
