//! What the words of a command line ask for, answered over folders and a console: all commands but the service at doors.
#![tactic(auto)]

mod base;
mod base_venue;
mod building;
mod canon_command;
mod check_command;
mod command;
mod commands;
mod console_text;
mod file_word;
mod gen_command;
mod laws;
mod links_command;
mod load;
mod price_command;
mod printout;
mod prints;
mod reached;
mod route_command;
mod route_law;
mod session_command;
mod settings;
mod start;
mod status;
mod verify_command;
mod words;

pub use building::{Told, tell_building};
pub use command::{
    Base, CanonOf, Command, FolderOf, JournalOf, KeptServiceOf, Levels, LinksOf, LocalCommand,
    RouteOf, ServiceOf,
};
pub use commands::run_alone;
pub use console_text::write_all;
pub use laws::{run_complete_law, run_headline_law};
pub use printout::{Printout, printed};
pub use prints::tell;
pub use reached::{Reached, open_folder, reach_folder};
pub use route_law::route_is_proved;
pub use settings::settings_of;
pub use start::Start;
pub use status::Status;
pub use version_board::{Alone, Built, Hall, Unopened, Venue, build};
pub use words::read_command;
