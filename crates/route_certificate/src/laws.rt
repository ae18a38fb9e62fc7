//! What follows from the forms alone.

ghost use Rattle.std.specs.Prelude.{◌≡◌, ◌≤◌, ℕ, List};
ghost use Rattle.route_certificate.specs.declared.table.Table.{Table};
ghost use Rattle.route_certificate.specs.declared.table.WalkIn.{WalkIn};
ghost use Rattle.route_certificate.specs.declared.answer.AnswerIn.{AnswerIn};
ghost use Rattle.route_certificate.specs.Forms.{IsTable, IsWalkText};
ghost use Rattle.route_certificate.specs.Answers.{IsAnswerText, FitsAnswer};
ghost use Rattle.route_certificate.specs.declared.answer.Verdict.{Verdict};
ghost use Rattle.route_certificate.specs.Verdicts.{IsJudged, IsProved, IsTrueAnswer};

use crate::families::TableLinks;
use walk_laws::{cut_law, least_law};

/// A text is the text of at most one table, and a table has at most one text.
pub fn table_law()
    ensures one_table { (text : List ℕ) (a b : Table) → IsTable text a → IsTable text b → a ≡ b }
    ensures one_text { (a b : List ℕ) (table : Table) → IsTable a table → IsTable b table → a ≡ b }
{}

/// A text is the text of at most one walk over a table, and a walk has at most one text.
pub fn walk_law()
    ensures one_walk { (text : List ℕ) (table : Table) (a b : WalkIn) → IsWalkText text table a → IsWalkText text table b → a ≡ b }
    ensures one_text { (a b : List ℕ) (table : Table) (walk : WalkIn) → IsWalkText a table walk → IsWalkText b table walk → a ≡ b }
{}

/// A text is the text of at most one answer over a table, an answer has at most one text, and what is an answer over
/// a table is one over every table with as many nodes or more.
pub fn answer_law()
    ensures one_answer { (text : List ℕ) (table : Table) (a b : AnswerIn) → IsAnswerText text table a → IsAnswerText text table b → a ≡ b }
    ensures one_text { (a b : List ℕ) (table : Table) (answer : AnswerIn) → IsAnswerText a table answer → IsAnswerText b table answer → a ≡ b }
    ensures more_nodes { (m n : ℕ) (answer : AnswerIn) → m ≤ n → FitsAnswer m answer → FitsAnswer n answer }
{}

/// An answer over a table has one verdict, and what is proved is true of the table.
pub fn verdict_law()
    ensures one_verdict { (table : Table) (answer : AnswerIn) (a b : Verdict) → IsJudged table answer a → IsJudged table answer b → a ≡ b }
    ensures truth { (table : Table) (answer : AnswerIn) → IsProved table answer → IsTrueAnswer table answer }
{
    least_law::<TableLinks>();
    cut_law::<TableLinks>();
}
