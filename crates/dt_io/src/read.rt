//! A file read whole, up to a limit.
ghost use Rattle.std.specs.Prelude.{false, ◌≡◌, ◌≤◌, ◌<◌, ◌+◌, ◌-◌, ◌↔◌, ◌++◌, All, take, drop, vec_len, length};
ghost use Rattle.std.specs.Prelude.{OnOk, IfOk, IsErrOf, IsTrue};
ghost use Rattle.dt_io.specs.Files.{Held};
ghost use Rattle.dt_io.specs.Folders.{HasReadCause, IsOnlyRead};
ghost use Rattle.dt_io.specs.Loads.{HasLoadCause, LoadsUnlessFailed, load_fault};

use crate::folders::{Folder, FolderFault};
use std::alloc::Global;
use thiserror::Error;

/// Why a file wasn't loaded.
#[derive(Clone, Copy, Debug, PartialEq, Eq, Error)]
pub enum LoadFault {
    /// The folder holds no file of this name.
    #[error("there is no such file")]
    Missing,
    /// A read failed.
    #[error("the file cannot be read")]
    Failed,
    /// The file has more bytes than the limit.
    #[error("the file is too large")]
    TooLarge,
    /// Memory ran out.
    #[error("out of memory")]
    NoMemory,
}

impl From<FolderFault> for LoadFault {
    ghost from_gives = { λ fault load. load ≡ load_fault fault };

    fn from(fault: FolderFault) -> LoadFault {
        match fault {
            FolderFault::Missing => LoadFault::Missing,
            FolderFault::Failed => LoadFault::Failed,
        }
    }
}

/// Whether the file goes past the limit.
fn is_longer<D: Folder>(folder: &mut D, name: &str, limit: u64) -> Result<bool, FolderFault>
    ensures longer { IfOk result (λ longer. Held (D.seen folder.old).files name.now
        (λ file. IsTrue longer ↔ (limit < length file))) }
    ensures cause { HasReadCause (D.seen folder.old) (D.seen folder.new) name.now result }
    ensures only { IsOnlyRead (D.seen folder.old) (D.seen folder.new) }
    ensures once { (D.seen folder.new).reads ≤ (D.seen folder.old).reads + 1 }
{
    let mut next = [0];
    let count = folder.read(name, limit, &mut next)?;
    Ok(count != 0)
}

/// Puts the next bytes of the file behind those that are there. False says that there were none.
fn read_more<D: Folder>(
    folder: &mut D,
    name: &str,
    bytes: &mut Vec<u8>,
    limit: u64,
) -> Result<bool, LoadFault>
    requires { vec_len bytes.old < limit }
    ensures next { OnOk result (Held (D.seen folder.old).files name.now
        (λ file. bytes.new.items ≡ bytes.old.items
        ++ take (vec_len bytes.new - vec_len bytes.old) (drop (vec_len bytes.old) file))) }
    ensures end { IfOk result (λ more. Held (D.seen folder.old).files name.now
        (λ file. more ≡ false → length file ≤ vec_len bytes.new)) }
    ensures progress { IfOk result (λ more. IsTrue more → vec_len bytes.old < vec_len bytes.new) }
    ensures limit { OnOk result (vec_len bytes.new ≤ limit) }
    ensures bytes { OnOk result (All (λ b. b < 256) bytes.new.items) }
    ensures cause { HasLoadCause (D.seen folder.old) (D.seen folder.new) name.now limit result }
    ensures large { IsErrOf result LoadFault.TooLarge → ⊥ }
    ensures only { IsOnlyRead (D.seen folder.old) (D.seen folder.new) }
    ensures once { (D.seen folder.new).reads ≤ (D.seen folder.old).reads + 1 }
{
    let mut buffer = [0; 4096];
    let at = bytes.len() as u64;
    let room = (limit - at).min(4096) as usize;
    let (piece, _) = buffer.split_at_mut(room);
    let count = folder.read(name, at, piece)?;
    let (read, _) = piece.split_at(count);
    bytes
        .extend_from_slice(read)
        .map_err(|_| LoadFault::NoMemory)?;
    Ok(count != 0)
}

/// The whole file, if it has no more than `limit` bytes. The count of reads rises by at most
/// `limit` + 2.
pub fn read_all<D: Folder>(
    alloc: Global,
    folder: &mut D,
    name: &str,
    limit: u64,
) -> Result<Vec<u8>, LoadFault>
    ensures file { IfOk result (λ bytes. Held (D.seen folder.old).files name.now (λ file. bytes.items ≡ file)) }
    ensures limit { IfOk result (λ bytes. vec_len bytes ≤ limit) }
    ensures bytes { IfOk result (λ bytes. All (λ b. b < 256) bytes.items) }
    ensures cause { HasLoadCause (D.seen folder.old) (D.seen folder.new) name.now limit result }
    ensures otherwise { LoadsUnlessFailed (D.seen folder.old) (D.seen folder.new) name.now limit result }
    ensures only { IsOnlyRead (D.seen folder.old) (D.seen folder.new) }
    ensures reads { (D.seen folder.new).reads ≤ (D.seen folder.old).reads + limit + 2 }
{
    if is_longer(folder, name, limit)? {
        return Err(LoadFault::TooLarge);
    }
    let mut bytes = Vec::new(alloc);
    while (bytes.len() as u64) < limit {
        if !read_more(folder, name, &mut bytes, limit)? {
            return Ok(bytes);
        }
    }
    Ok(bytes)
}
