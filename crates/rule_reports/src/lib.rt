//! What it is to be the report of a predicate on places: these findings, each once, in this order, and no others.
//!
//! A phase of rules is a predicate `IsBroken : Finding → Type 0` of the layer above, and its promise is
//! `IsReport IsBroken findings`; phases chain by `First`. `add` gathers what tests find, each pass says with `Adds`
//! what it adds to what was gathered before it, and `in_order` makes the report of what was gathered. `proofs.Adding`
//! says what a test adds, one pass after another, and a loop over items.
#![tactic(auto)]

mod findings;
mod laws;
mod order;

pub use findings::add;
pub use laws::{
    Noting, Phase, one_list_of_notes, one_report, one_short_report, phase_after_phase,
    shared_notes, shared_report,
};
pub use order::{in_order, notes_in_order, shortened};
