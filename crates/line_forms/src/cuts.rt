//! Cutting a text at a byte or after a prefix.

ghost use Rattle.std.specs.Prelude.{◌≡◌, ℕ, List, ◌++◌, IfSome, IfNone};
ghost use Rattle.line_forms.specs.Fronts.{Lacks, IsSplitAt};

/// The bytes before the first such byte, and those after it.
pub fn cut_at(text: &[u8], stop: u8) -> Option<(&[u8], &[u8])>
    ensures found { IfSome result (λ parts. IsSplitAt stop text.now parts.0.now parts.1.now) }
    ensures none { IfNone result (Lacks stop text.now) }
{
    for (place, byte) in text.iter().enumerate() {
        if *byte == stop {
            return Some((&text[..place], &text[place + 1..]));
        }
    }
    None
}

/// What follows a front.
pub fn after<'a>(text: &'a [u8], front: &[u8]) -> Option<&'a [u8]>
    ensures found { IfSome result (λ rest. text.now ≡ front.now ++ rest.now) }
    ensures none { IfNone result ((rest : List ℕ) → text.now ≡ front.now ++ rest → ⊥) }
{
    text.strip_prefix(front)
}
