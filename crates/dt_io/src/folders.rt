//! Folders of files that are read and changed.
ghost use Rattle.std.specs.Prelude.{◌≡◌, IfOk};
ghost use Rattle.std.specs.Io.{ReadsAtMost};
ghost use Rattle.dt_io.specs.Bytes.{TakesSome};
ghost use Rattle.dt_io.specs.Causes.{one_more};
ghost use Rattle.dt_io.specs.Files.{Held, ReadsAt, created, grown, removed};
ghost use Rattle.dt_io.specs.Folders.{FolderSeen, Changes, HasReadCause, IsOnlyRead};

use crate::sinks::Failed;
use thiserror::Error;

/// Why bytes of a file weren't read. The folder's counts say so.
#[derive(Clone, Copy, Debug, PartialEq, Eq, Error)]
pub enum FolderFault {
    /// There is no file of this name.
    #[error("there is no such file")]
    Missing,
    /// The outside refused to read.
    #[error("the file cannot be read")]
    Failed,
}

/// A folder of files. A count's last value is 2^64 - 1, where it stands still.
pub trait Folder {
    /// What is seen of it.
    ghost seen: { Self → FolderSeen };

    /// Reads bytes of a file, from the place `at` on, to the start of the buffer, and says how
    /// many: 0 at the file's end, and at an empty buffer.
    fn read(&mut self, name: &str, at: u64, buf: &mut [u8]) -> Result<usize, FolderFault>
        ensures bound { ReadsAtMost result buf.new }
        ensures bytes { IfOk result (λ n. Held (seen self.old).files name.now
            (λ file. ReadsAt file at n buf.old buf.new)) }
        ensures cause { HasReadCause (seen self.old) (seen self.new) name.now result }
        ensures only { IsOnlyRead (seen self.old) (seen self.new) }
        ensures counted { (seen self.new).reads ≡ one_more (seen self.old).reads };

    /// Makes a file empty. One that isn't there is made.
    fn create(&mut self, name: &str) -> Result<(), Failed>
        ensures { Changes (seen self.old) (seen self.new) (created (seen self.old).files name.now result) result };

    /// Puts some of the piece behind a file, from the piece's start, and says how many bytes. A file that isn't there
    /// is made first, also for an empty piece.
    fn append(&mut self, name: &str, piece: &[u8]) -> Result<usize, Failed>
        ensures some { TakesSome result piece.now }
        ensures change { Changes (seen self.old) (seen self.new)
            (grown (seen self.old).files name.now piece.now result) result };

    /// Removes a file. One that isn't there is no fault.
    fn remove(&mut self, name: &str) -> Result<(), Failed>
        ensures { Changes (seen self.old) (seen self.new) (removed (seen self.old).files name.now result) result };
}
