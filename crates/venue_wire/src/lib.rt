//! A framed message as a question or a change: paths, methods, staff keys, queries and bodies.
#![tactic(auto)]

mod bodies;
mod calls;
mod forms;
mod front;
mod laws;
mod messages;
mod next_message;
mod paths;
mod query_pairs;
mod query_values;
mod stops;

pub use front::Front;
pub use laws::{
    message_length_law, message_more_law, more_is_short_law, one_message_law, path_law,
};
pub use messages::{Message, Taken};
pub use next_message::take;
pub use paths::Path;
