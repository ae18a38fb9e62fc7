//! The words of categories, and what each stands for.

ghost use Rattle.std.specs.Prelude.{◌≡◌, ◌==◌, ◌<◌, map, length, IfSome};
ghost use Rattle.std.specs.List.{position_from};
ghost use Rattle.imdf_access.specs.Categories.{before_dot, meaning_of, meaning_among};
ghost use Rattle.imdf_access.specs.Table.{word_of};

/// What the first part of a category stands for.
#[derive(Clone, Copy, Debug, PartialEq, Eq)]
pub enum Meaning {
    Elevator,
    Escalator,
    Movingwalkway,
    Ramp,
    Stairs,
    /// A unit that is passed as stairs are, and no passage between units.
    Steps,
    /// A passage between units, and no unit.
    Traversal,
    /// A unit that is crossed as a floor.
    Ground,
    /// A unit that nobody walks through.
    Solid,
    /// No word of the table.
    Unknown,
}

static WORDS: [(&[u8], Meaning); 22] = [
    (b"elevator", Meaning::Elevator),
    (b"escalator", Meaning::Escalator),
    (b"movingwalkway", Meaning::Movingwalkway),
    (b"ramp", Meaning::Ramp),
    (b"stairs", Meaning::Stairs),
    (b"steps", Meaning::Steps),
    (b"traversal", Meaning::Traversal),
    (b"walkway", Meaning::Ground),
    (b"room", Meaning::Ground),
    (b"restroom", Meaning::Ground),
    (b"lobby", Meaning::Ground),
    (b"platform", Meaning::Ground),
    (b"nonpublic", Meaning::Ground),
    (b"opentobelow", Meaning::Solid),
    (b"column", Meaning::Solid),
    (b"brick", Meaning::Solid),
    (b"concrete", Meaning::Solid),
    (b"drywall", Meaning::Solid),
    (b"glass", Meaning::Solid),
    (b"wood", Meaning::Solid),
    (b"structure", Meaning::Solid),
    (b"vegetation", Meaning::Solid),
];

// The place of the first dot.
fn first_dot(bytes: &[u8]) -> Option<usize>
    ensures place { result ≡ position_from (λ byte. byte == 46) 0 bytes.now }
    ensures within { IfSome result (λ dot. dot < length bytes.now) }
{
    bytes.iter().position(|byte| *byte == b'.')
}

/// The bytes before the first dot, and all where there is none: the word that decides what a category or a door is.
pub fn before_dot(bytes: &[u8]) -> &[u8]
    ensures { result.now ≡ before_dot bytes.now }
{
    match first_dot(bytes) {
        Some(dot) => &bytes[..dot],
        None => bytes,
    }
}

// What the word stands for in the table.
fn find(table: &[(&[u8], Meaning)], word: &[u8]) -> Meaning
    ensures { result ≡ meaning_among (map word_of table.now) word.now }
{
    for (text, meaning) in table {
        if *text == word {
            return *meaning;
        }
    }
    Meaning::Unknown
}

/// What the category stands for, by its part before the first dot.
#[tactic(auto, unfolding(crate::specs::Categories::meaning_of))]
pub fn category_meaning(category: &[u8]) -> Meaning
    ensures { result ≡ meaning_of category.now }
{
    find(&WORDS, before_dot(category))
}
