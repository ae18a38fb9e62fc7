//! Tables of links, walks over them and answers: their text forms, what a walk costs, and whether an answer proves its claim.
#![tactic(auto)]

mod answer;
mod answer_lines;
mod answer_text;
mod answer_writer;
mod families;
mod form_end;
mod laws;
mod table;
mod table_lines;
mod table_text;
mod table_writer;
mod verdicts;
mod walk_lines;
mod walk_price;
mod walk_text;

pub use answer::{AnswerIn, Claim, FailedClause, Verdict};
pub use answer_text::{read_answer, write_answer};
pub use laws::{answer_law, table_law, verdict_law, walk_law};
pub use table::{FormFault, Priced, Table, TableLink, WalkIn};
pub use table_text::{read_table, write_table};
pub use verdicts::verify;
pub use walk_price::price;
pub use walk_text::read_walk;
