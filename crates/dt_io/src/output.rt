//! A file written whole.
ghost use Rattle.dt_io.specs.Files.{IsHeld};
ghost use Rattle.dt_io.specs.Outputs.{Outputs, file_seen};
ghost use Rattle.dt_io.specs.Sinks.{Writes};

use crate::folder_sink::FolderSink;
use crate::folders::Folder;
use crate::sinks::{Failed, write_all};

/// Makes a file that holds this text: all of it, or a part of it up to the first change that failed. No other file
/// changes.
#[tactic(auto, using(crate::proofs::Named::held_created, crate::proofs::Named::written_file))]
pub fn write_output<D: Folder>(folder: &mut D, name: &str, text: &[u8]) -> Result<(), Failed>
    ensures { Outputs (D.seen folder.old) (D.seen folder.new) name.now text.now result }
{
    folder.create(name)?;
    match append_all(folder, name, text) {
        Ok(()) => Ok(()),
        Err(failed) => Err(failed),
    }
}

// Puts the text behind a file.
fn append_all<D: Folder>(folder: &mut D, name: &str, text: &[u8]) -> Result<(), Failed>
    requires { IsHeld (D.seen folder.old).files name.now }
    ensures writes { Writes (file_seen (D.seen folder.old) name.now 0) (file_seen (D.seen folder.new) name.now 0)
        text.now result }
{
    let mut sink = FolderSink::new(folder, name);
    write_all(&mut sink, text)
}
