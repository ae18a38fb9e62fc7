//! The outside of the program: folders, streams, doors and disks as traits, each with a meaning and a count of faults, and
//! what implements them in memory and for real.
#![tactic(auto)]

mod disk;
mod disk_calls;
mod disk_laws;
mod doors;
mod file_disk;
mod file_disks;
mod folders;
mod laws;
mod limits;
mod memory;
mod memory_disk;
mod memory_disks;
mod memory_doors;
mod memory_folders;
mod memory_stream;
mod output;
mod outside;
mod plan;
mod quiet;
mod read_log;
mod reports;
mod room;
mod sockets;
mod spare_record;
mod stream;
mod tcp;
mod tcp_link;
mod waits;

pub use disk::{Disk, Disks};
pub use disk_calls::{DiskCall, DiskCallKind};
pub use disk_laws::{left_law, read_is_left_law};
pub use doors::Doors;
pub use file_disk::FileDisk;
pub use file_disks::FileDisks;
pub use folders::{Folders, ReadFault};
pub use laws::{asked_law, same_files_law};
pub use memory::OutOfMemory;
pub use memory_disk::MemoryDisk;
pub use memory_disks::MemoryDisks;
pub use memory_doors::MemoryDoors;
pub use memory_folders::{MemoryFile, MemoryFolders};
pub use memory_stream::MemoryStream;
pub use outside::{Console, DirFolders};
pub use quiet::{QuietDoors, QuietFolders};
pub use stream::{Failed, Stream};
pub use tcp::TcpDoors;
pub use tcp_link::TcpLink;
