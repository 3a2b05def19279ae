//! A sink over one file of a folder.
ghost use Rattle.std.specs.Prelude.{◌≡◌};
ghost use Rattle.dt_io.specs.Files.{IsHeld};
ghost use Rattle.dt_io.specs.Outputs.{BesideFile, file_seen};

use crate::folders::Folder;
use crate::sinks::{Failed, Sink};

/// A sink that puts its bytes behind a file of a folder. Where the files are known, the file is held.
#[derive(Drop)]
pub struct FolderSink<'a, D: Folder> {
    pub folder: &'a mut D,
    pub name: &'a str,
    ghost held: { IsHeld (D.seen folder.now).files name.now },
}

impl<'a, D: Folder> FolderSink<'a, D> {
    /// A sink over the file of this name.
    pub fn new(folder: &'a mut D, name: &'a str) -> FolderSink<'a, D>
        requires { IsHeld (D.seen folder.old).files name.now }
        ensures folder { result.folder.now ≡ folder.old }
        ensures reference { result.folder.ghost_name ≡ folder.entry.ghost_name }
        ensures name { result.name.now ≡ name.now }
    {
        FolderSink { folder, name }
    }
}

impl<'a, D: Folder> Sink for FolderSink<'a, D> {
    ghost Rest = { BesideFile };

    ghost seen = { λ s. file_seen (D.seen s.folder.now) s.name.now s.folder.ghost_name };

    #[tactic(auto, using(crate::proofs::Named::file_at_grown, crate::proofs::Named::without_grown, crate::proofs::Named::held_grown))]
    fn write(&mut self, piece: &[u8]) -> Result<usize, Failed> {
        self.folder.append(self.name, piece)
    }
}
