//! The file of a folder that a word names.

ghost use Rattle.std.specs.Prelude.{◌≡◌, IfSome, IfNone};
ghost use Rattle.venue_types.specs.declared.folder_file.File.{File as AFile};
ghost use Rattle.venue_types.specs.FolderFiles.{file_name};
ghost use Rattle.venue_commands.specs.ReadCommands.{named_among};

use venue_types::{ALL_FILES, File};

// The first of the files that has this name.
fn find(files: &[File], name: &str) -> Option<File>
    ensures { result ≡ named_among files.now name.now }
{
    for file in files {
        if file.name() == name {
            return Some(*file);
        }
    }
    None
}

/// The file of a folder that has this name, byte for byte.
pub(crate) fn file_named(name: &str) -> Option<File>
    ensures found { IfSome result (λ file. name.now ≡ file_name file) }
    ensures none { IfNone result ((file : AFile) → name.now ≡ file_name file → ⊥) }
{
    find(&ALL_FILES, name)
}
