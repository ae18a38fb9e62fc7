//! The rows of a folder's features, each field taken from its member.
#![tactic(auto)]

mod display;
mod feature_row;
mod fields;
mod figure;
mod gather;
mod labels;
mod laws;
mod levels;
mod members;
mod ordinals;
mod rows;
mod ways;

pub use feature_row::FeatureRow;
pub use figure::Figure;
pub use gather::push_row;
pub use laws::{doors_law, items_have_texts_law, labels_law, passages_law, tags_law};
pub use ordinals::ordinal;
