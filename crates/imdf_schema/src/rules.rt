//! The rules by which folders are judged, and the notes: their numbers and names.

ghost use Rattle.std.specs.Prelude.{◌≡◌, Some};
ghost use Rattle.imdf_schema.specs.declared.rules.Rule.{Rule as ARule};
ghost use Rattle.imdf_schema.specs.declared.rules.NoteKind.{NoteKind as ANote};
ghost use Rattle.imdf_schema.specs.Rules.{from_one, rule_number, rule_numbered, rule_name, note_number, note_numbered, note_name};

/// A rule, by what holds where it is kept. A finding tells where it is broken.
#[derive(Clone, Copy, Debug, PartialEq, Eq)]
pub enum Rule {
    /// The manifest is there.
    F1,
    /// A file has at most 33,554,432 bytes.
    F2,
    /// A file is a JSON text (RFC 8259).
    F3,
    /// Its lists and objects nest at most 64 deep.
    F4,
    /// The manifest's version is "1.0.0".
    M1,
    /// The manifest's `created` is a text.
    M2,
    /// The manifest's `language` is null or a text.
    M3,
    /// A feature file is a FeatureCollection (RFC 7946, section 3.3).
    C1,
    /// An item is a Feature with properties (RFC 7946, section 3.2).
    C2,
    /// A feature's `id` is an identifier.
    C3,
    /// A feature's type is that of its file.
    C4,
    /// A feature's geometry is of the type that its file asks for.
    C5,
    /// A property is of its form.
    C6,
    /// There is exactly one venue.
    V1,
    /// A level's ordinal, rounded to billionths, is a whole number from -180 to 180.
    L1,
    /// A relationship's direction is one of two words.
    Q1,
    /// There are at most 100,000 items.
    S1,
    /// There are at most 1,000,000 positions.
    S2,
    /// A ring has at most 20,000 positions.
    S3,
    /// A relationship has at most 65 elements.
    S4,
    /// A position is one.
    G1,
    /// A geometry is of its form.
    G2,
    /// No earlier feature, by file, then by index, has the same identifier.
    C7,
    /// A reference names a feature.
    X1,
    /// A reference that names a feature names one of the type that is asked for.
    X2,
    /// No two judged positions lie too far apart.
    G6,
    /// No two edges of a ring cross.
    G3,
    /// Each vertex of a hole is inside the border of its polygon or on it.
    G4,
    /// The area of a ring isn't 0.
    G5,
    /// Each vertex of a unit is inside its level or near it.
    K1,
    /// An anchor's point is inside its unit or near it.
    K2,
    /// An amenity's point is inside one of its units or near one.
    K3,
    /// Each vertex of an opening is inside its level or near it.
    K4,
    /// A walkable unit has at most 4,096 members.
    S5,
    /// The squares of the numbers of members of all walkable units sum to at most 20,000,000.
    S6,
    /// There are at most 400,000 nodes.
    S7,
    /// The squares of the numbers of members, each times the unit's edges, of all walkable units but moving walkways sum to at most
    /// 2,000,000,000.
    S8,
}

/// What is worth a note.
#[derive(Clone, Copy, Debug, PartialEq, Eq)]
pub enum NoteKind {
    /// The category of a unit is unknown.
    N1,
    /// The category of a relationship makes no passage.
    N2,
    /// An element of a passage has no node.
    N3,
    /// An opening touches no unit.
    N4,
    /// The restriction of a unit is an unknown text.
    N5,
}

// The rules in the order of their numbers.
static RULES: [Rule; 37] = [
    Rule::F1,
    Rule::F2,
    Rule::F3,
    Rule::F4,
    Rule::M1,
    Rule::M2,
    Rule::M3,
    Rule::C1,
    Rule::C2,
    Rule::C3,
    Rule::C4,
    Rule::C5,
    Rule::C6,
    Rule::V1,
    Rule::L1,
    Rule::Q1,
    Rule::S1,
    Rule::S2,
    Rule::S3,
    Rule::S4,
    Rule::G1,
    Rule::G2,
    Rule::C7,
    Rule::X1,
    Rule::X2,
    Rule::G6,
    Rule::G3,
    Rule::G4,
    Rule::G5,
    Rule::K1,
    Rule::K2,
    Rule::K3,
    Rule::K4,
    Rule::S5,
    Rule::S6,
    Rule::S7,
    Rule::S8,
];

// The notes in the order of their numbers.
static NOTES: [NoteKind; 5] = [
    NoteKind::N1,
    NoteKind::N2,
    NoteKind::N3,
    NoteKind::N4,
    NoteKind::N5,
];

// The item of a number, counted from 1.
fn from_one<T: Copy>(items: &[T], number: u8) -> Option<T>
    ensures { result ≡ from_one items.now number }
{
    match number {
        0 => None,
        _ => items.get(number as usize - 1).copied(),
    }
}

impl Rule {
    /// The number that stands in findings.
    pub fn number(self) -> u8
        ensures { result ≡ rule_number self }
    {
        match self {
            Rule::F1 => 1,
            Rule::F2 => 2,
            Rule::F3 => 3,
            Rule::F4 => 4,
            Rule::M1 => 5,
            Rule::M2 => 6,
            Rule::M3 => 7,
            Rule::C1 => 8,
            Rule::C2 => 9,
            Rule::C3 => 10,
            Rule::C4 => 11,
            Rule::C5 => 12,
            Rule::C6 => 13,
            Rule::V1 => 14,
            Rule::L1 => 15,
            Rule::Q1 => 16,
            Rule::S1 => 17,
            Rule::S2 => 18,
            Rule::S3 => 19,
            Rule::S4 => 20,
            Rule::G1 => 21,
            Rule::G2 => 22,
            Rule::C7 => 23,
            Rule::X1 => 24,
            Rule::X2 => 25,
            Rule::G6 => 26,
            Rule::G3 => 27,
            Rule::G4 => 28,
            Rule::G5 => 29,
            Rule::K1 => 30,
            Rule::K2 => 31,
            Rule::K3 => 32,
            Rule::K4 => 33,
            Rule::S5 => 34,
            Rule::S6 => 35,
            Rule::S7 => 36,
            Rule::S8 => 37,
        }
    }

    /// The rule of this number, if there is one. There is no rule 0.
    pub fn from_number(number: u8) -> Option<Rule>
        ensures { result ≡ rule_numbered number }
    {
        from_one(&RULES, number)
    }

    /// Its name, by which it is printed.
    pub fn name(self) -> &'static str
        ensures { result.now ≡ rule_name self }
    {
        match self {
            Rule::F1 => "F1",
            Rule::F2 => "F2",
            Rule::F3 => "F3",
            Rule::F4 => "F4",
            Rule::M1 => "M1",
            Rule::M2 => "M2",
            Rule::M3 => "M3",
            Rule::C1 => "C1",
            Rule::C2 => "C2",
            Rule::C3 => "C3",
            Rule::C4 => "C4",
            Rule::C5 => "C5",
            Rule::C6 => "C6",
            Rule::V1 => "V1",
            Rule::L1 => "L1",
            Rule::Q1 => "Q1",
            Rule::S1 => "S1",
            Rule::S2 => "S2",
            Rule::S3 => "S3",
            Rule::S4 => "S4",
            Rule::G1 => "G1",
            Rule::G2 => "G2",
            Rule::C7 => "C7",
            Rule::X1 => "X1",
            Rule::X2 => "X2",
            Rule::G6 => "G6",
            Rule::G3 => "G3",
            Rule::G4 => "G4",
            Rule::G5 => "G5",
            Rule::K1 => "K1",
            Rule::K2 => "K2",
            Rule::K3 => "K3",
            Rule::K4 => "K4",
            Rule::S5 => "S5",
            Rule::S6 => "S6",
            Rule::S7 => "S7",
            Rule::S8 => "S8",
        }
    }
}

impl NoteKind {
    /// The number that stands in notes.
    pub fn number(self) -> u8
        ensures { result ≡ note_number self }
    {
        match self {
            NoteKind::N1 => 1,
            NoteKind::N2 => 2,
            NoteKind::N3 => 3,
            NoteKind::N4 => 4,
            NoteKind::N5 => 5,
        }
    }

    /// The note of this number, if there is one. There is no note 0.
    pub fn from_number(number: u8) -> Option<NoteKind>
        ensures { result ≡ note_numbered number }
    {
        from_one(&NOTES, number)
    }

    /// Its name, by which it is printed.
    pub fn name(self) -> &'static str
        ensures { result.now ≡ note_name self }
    {
        match self {
            NoteKind::N1 => "N1",
            NoteKind::N2 => "N2",
            NoteKind::N3 => "N3",
            NoteKind::N4 => "N4",
            NoteKind::N5 => "N5",
        }
    }
}

/// A rule and a note are known by their numbers.
pub fn rule_numbers_law()
    ensures rules { (rule : ARule) → rule_numbered (rule_number rule) ≡ Some rule }
    ensures notes { (note : ANote) → note_numbered (note_number note) ≡ Some note }
{}
