//! What fixes a report, and what the report of one phase after another is.

ghost use Rattle.std.specs.Prelude.{◌≡◌, ◌≢◌, ◌↔◌, List, []};
ghost use Rattle.venue_types.specs.declared.finding.Finding.{Finding};
ghost use Rattle.venue_types.specs.declared.finding.Note.{Note};
ghost use Rattle.venue_types.specs.declared.finding.Report.{Report};
ghost use Rattle.rule_reports.specs.Reports.{IsReport, IsNoteList, First, IsShortReport};

/// A phase of rules: at which places one is broken. Any predicate is one.
pub trait Phase {
    ghost breaks: { Finding → Type 0 };
}

/// What is worth a note: at which places. Any predicate is one.
pub trait Noting {
    ghost notes: { Note → Type 0 };
}

/// A phase has one report at most.
pub fn one_report<P: Phase>()
    ensures { (xs ys : List Finding) → IsReport P.breaks xs → IsReport P.breaks ys → xs ≡ ys }
{}

/// Its first findings and their number are fixed.
pub fn one_short_report<P: Phase>()
    ensures { (short other : Report) → IsShortReport P.breaks short → IsShortReport P.breaks other → short ≡ other }
{}

/// Of one phase after another, the first phase's report is the whole one unless it is empty, and then the second's is.
pub fn phase_after_phase<P: Phase, Q: Phase>()
    ensures stops { (findings : List Finding) → findings ≢ [] → IsReport P.breaks findings → IsReport (First P.breaks Q.breaks) findings }
    ensures goes_on { (findings : List Finding) → IsReport P.breaks [] → IsReport Q.breaks findings → IsReport (First P.breaks Q.breaks) findings }
{}

/// What is worth a note makes one list at most.
pub fn one_list_of_notes<N: Noting>()
    ensures { (xs ys : List Note) → IsNoteList N.notes xs → IsNoteList N.notes ys → xs ≡ ys }
{}

/// Phases in which the same is broken share their report, and its first findings.
pub fn shared_report<P: Phase, Q: Phase>()
    ensures report { ((x : Finding) → P.breaks x ↔ Q.breaks x) → (findings : List Finding) → IsReport P.breaks findings → IsReport Q.breaks findings }
    ensures short { ((x : Finding) → P.breaks x ↔ Q.breaks x) → (short : Report) → IsShortReport P.breaks short → IsShortReport Q.breaks short }
{}

/// What is worth a note by two predicates that agree on every place is one list.
pub fn shared_notes<N: Noting, M: Noting>()
    ensures list { ((x : Note) → N.notes x ↔ M.notes x) → (notes : List Note) → IsNoteList N.notes notes → IsNoteList M.notes notes }
    ensures one { ((x : Note) → N.notes x ↔ M.notes x) → (xs ys : List Note) → IsNoteList N.notes xs → IsNoteList M.notes ys → xs ≡ ys }
{}
