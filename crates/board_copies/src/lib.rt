//! Two copies of the board under one rule: readers that wait for nobody, and a writer that changes one copy while they read the other.
#![tactic(auto)]

mod copies;
mod counter;
mod endless_wait;
mod ends;
mod held;
mod intake;
mod keeper;
mod next_held;
mod reader_side;
mod resuming;
mod roll;
mod rule;
mod seen;
mod stamp;
mod thread_bounds;
mod view;
mod writer_side;

pub use copies::{make_reader, make_writer};
pub use counter::{Counting, Tried};
pub use endless_wait::wait_for_ever;
pub use ends::{Reads, Writes};
pub use held::{Held, Ready, Side};
pub use keeper::{Keep, Keeper};
pub use reader_side::{meet, meet_in, read, read_in};
pub use resuming::{Awaiting, Resumed, Resuming};
pub use roll::Roll;
pub use rule::{Law, Notes, Publishing, Seeing, SideReader, SideWriter};
pub use seen::Seen;
pub use stamp::Stamp;
pub use venue_state::{
    BaseFolders, NextBoard, Outcome, Unready, first_law, following_law, judge_files, read_folder,
    ready_change, ready_venue,
};
pub use view::View;
pub use writer_side::{fall_back, publish, queue, settle, show};
