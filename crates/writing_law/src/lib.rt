//! Why a folder in its fixed form may be trusted: what is written is read back to the same rows.
#![tactic(auto)]

mod laws;

pub use laws::{
    canon_again, field_law, file_law, fit_law, notes_law, row_law, rule_law, writer_law,
};
