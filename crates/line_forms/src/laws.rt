//! What follows from the definitions alone.

ghost use Rattle.std.specs.Prelude.{◌≡◌, ℕ, List};
ghost use Rattle.line_forms.specs.Fronts.{IsFront, IsUnique};
ghost use Rattle.line_forms.specs.Faults.{IsFaultLine};

/// A form of texts.
pub trait Form {
    ghost is_text: { List ℕ → Type 0 };
}

/// Items that are spelled in a text, those that fit.
pub trait Spelled {
    ghost spelling: { Self → List ℕ };

    ghost fits: { Self → Type 0 };
}

/// A text has at most one faulty line of a form.
pub fn fault_line_law<F: Form>()
    ensures { (text : List ℕ) (m n : ℕ) → IsFaultLine F.is_text text m → IsFaultLine F.is_text text n → m ≡ n }
{}

/// Where no spelling begins another's, a text begins with the items of one list alone.
pub fn front_law<S: Spelled>()
    ensures { IsUnique S.spelling S.fits → (xs ys : List S) (text rest tail : List ℕ)
        → IsFront S.spelling S.fits xs text rest → IsFront S.spelling S.fits ys text tail → (xs ≡ ys) × (rest ≡ tail) }
{}
