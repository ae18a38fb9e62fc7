//! What a venue's folder may hold (IMDF 1.0.0): its files, the table of properties, the forms that members have, and
//! small readers of a member. The rules by which it is judged, by number and name, and what is reported of a feature in it.
#![tactic(auto)]

mod feature_at;
mod features;
mod forms;
mod rules;
mod table;
mod texts;
mod values;

pub use feature_at::FeatureAt;
pub use features::{
    fits_geometry, geometry, is_collection, is_feature, items, property, unlisted_property,
};
pub use forms::{Form, fits, is_reference, item_fits, list_of, type_of};
pub use rules::{NoteKind, Rule, rule_numbers_law};
pub use table::{Property, PropertyRow, ReferenceTarget, properties};
pub use values::{
    id, is_id, is_list, is_null, is_object, is_text, is_word, list, member, object, text,
};
pub use venue_types::{ALL_FILES, File, Geometry, feature_files, file_numbers_law, file_of_type};
