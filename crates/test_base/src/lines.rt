//! Each call on values that were worked out by hand.

ghost use Rattle.std.specs.Prelude.{ℕ, List, [], ◌∷◌};

use line_forms::{
    Form, Spelled, after, cut_at, fault_line_law, front_law, number, number_word, push_number,
};
use std::process::Abort;

struct Empty;

impl Form for Empty {
    ghost is_text = { λ _. ⊥ };
}

// A byte, which is spelled as itself.
struct Letter(u8);

impl Spelled for Letter {
    ghost spelling = { λ letter. letter.0 ∷ [] };

    ghost fits = { λ _. Unit {0} };
}

// A word, and the number that it spells.
static WORDS: [(&str, Option<u64>); 10] = [
    ("0", Some(0)),
    ("7", Some(7)),
    ("18446744073709551615", Some(18_446_744_073_709_551_615)),
    ("18446744073709551616", None),
    ("184467440737095516150", None),
    ("", None),
    ("00", None),
    ("07", None),
    ("+7", None),
    ("7a", None),
];

fn judge_words(rt: &impl Abort, rows: &[(&str, Option<u64>)]) {
    for (word, want) in rows {
        assert!(rt; number(word.as_bytes()) == *want);
    }
}

fn judge_parts(rt: &impl Abort) {
    assert!(rt; cut_at(b"a b c", b' ') == Some((b"a".as_slice(), b"b c".as_slice())));
    assert!(rt; after(b"step 4", b"step ") == Some(b"4".as_slice()));
    assert!(rt; number_word(b"40 2") == Some((40, b"2".as_slice())));
}

#[test]
fn reads_and_writes(rt: HostRuntime) {
    judge_words(&rt, &WORDS);
    judge_parts(&rt);
    let mut out = Vec::new(rt.alloc());
    push_number(&mut out, 18_446_744_073_709_551_615).expect(&rt, "memory");
    assert!(rt; out.as_slice() == b"18446744073709551615".as_slice());
    fault_line_law::<Empty>();
    front_law::<Letter>();
}
