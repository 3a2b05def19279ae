//! A folder over the system's files.
ghost use Rattle.std.specs.Prelude.{◌≡◌, None, IfOk};
ghost use Rattle.std.specs.Io.{ReadsAtMost};
ghost use Rattle.dt_io.specs.Bytes.{TakesSome};
ghost use Rattle.dt_io.specs.Causes.{one_more};
ghost use Rattle.dt_io.specs.Files.{Held, ReadsAt, created, grown, removed};
ghost use Rattle.dt_io.specs.Folders.{Changes, HasReadCause, IsOnlyRead, after_answer, after_change, counts_seen};

use crate::faults::raise;
use crate::folders::{Folder, FolderFault};
use crate::sinks::Failed;
use std::fs::{self, OpenOptions};
use std::io::{self, ErrorKind, Read, Seek, SeekFrom, Write};
use std::marker::Model;
use std::rt::Files;

/// The folder that the program runs in, of which nothing is known but how many reads were made,
/// how often one failed, how often a file was missing and how often a change failed, each up to
/// 2^64 - 1. What is no regular file, as a folder, a pipe or a device, isn't read. A file is open
/// during one call alone.
#[derive(Drop)]
pub struct RealFolder<'a, R: Files> {
    rt: &'a R,
    misses: u64,
    read_faults: u64,
    write_faults: u64,
    reads: u64,
}

impl<'a, R: Files> Model for RealFolder<'a, R> {
    ghost use Rattle.dt_io.specs.Folders.{FolderCounts};

    ghost Value = { FolderCounts };

    ghost view = { λ s. record {
      misses = s.misses;
      read_faults = s.read_faults;
      write_faults = s.write_faults;
      reads = s.reads;
    } };
}

impl<'a, R: Files> RealFolder<'a, R> {
    /// The folder that the program runs in, with no read and no fault so far.
    pub fn new(rt: &'a R) -> RealFolder<'a, R>
        ensures { result ≡ record { misses = 0; read_faults = 0; write_faults = 0; reads = 0 } }
    {
        RealFolder {
            rt,
            misses: 0,
            read_faults: 0,
            write_faults: 0,
            reads: 0,
        }
    }
}

/// What an error of the system says of a file.
fn fault_of(error: &io::Error) -> FolderFault {
    if error.kind() == ErrorKind::NotFound {
        FolderFault::Missing
    } else {
        FolderFault::Failed
    }
}

/// Reads bytes of a regular file of the system, from a place on.
fn read_at<R: Files>(rt: &R, name: &str, at: u64, buf: &mut [u8]) -> Result<usize, FolderFault>
    ensures { ReadsAtMost result buf.new }
{
    match fs::metadata(rt, name) {
        Ok(metadata) if metadata.is_file() => {}
        Ok(_) => return Err(FolderFault::Failed),
        Err(error) => return Err(fault_of(&error)),
    }
    let mut file = match fs::open(rt, name) {
        Ok(file) => file,
        Err(error) => return Err(fault_of(&error)),
    };
    if file.seek(SeekFrom::Start(at)).is_err() {
        return Err(FolderFault::Failed);
    }
    match file.read(buf) {
        Ok(count) => Ok(count),
        Err(_) => Err(FolderFault::Failed),
    }
}

/// Puts some of the piece behind a file of the system, which is made if it isn't there.
fn append_to<R: Files>(rt: &R, name: &str, piece: &[u8]) -> Result<usize, Failed>
    ensures { TakesSome result piece.now }
{
    let mut options = OpenOptions::new();
    options.append(true).create(true);
    let Ok(mut file) = options.open(rt, name) else {
        return Err(Failed);
    };
    match file.write(piece) {
        Ok(count) if count > 0 || piece.is_empty() => Ok(count),
        _ => Err(Failed),
    }
}

/// Removes a file of the system. One that isn't there is no fault.
fn remove_file<R: Files>(rt: &R, name: &str) -> Result<(), Failed> {
    match fs::remove_file(rt, name) {
        Ok(()) => Ok(()),
        Err(error) if error.kind() == ErrorKind::NotFound => Ok(()),
        Err(_) => Err(Failed),
    }
}

impl<'a, R: Files> Folder for RealFolder<'a, R> {
    ghost seen = { counts_seen };

    fn read(&mut self, name: &str, at: u64, buf: &mut [u8]) -> Result<usize, FolderFault>
        ensures bound { ReadsAtMost result buf.new }
        ensures bytes { IfOk result (λ n. Held None name.now (λ file. ReadsAt file at n buf.old buf.new)) }
        ensures cause { HasReadCause (counts_seen self.old) (counts_seen self.new) name.now result }
        ensures only { IsOnlyRead (counts_seen self.old) (counts_seen self.new) }
        ensures counted { self.new.reads ≡ one_more self.old.reads }
        ensures exact { self.new ≡ after_answer self.old result }
    {
        raise(&mut self.reads);
        let answer = read_at(self.rt, name, at, buf);
        match answer {
            Ok(_) => {}
            Err(FolderFault::Missing) => raise(&mut self.misses),
            Err(FolderFault::Failed) => raise(&mut self.read_faults),
        }
        answer
    }

    fn create(&mut self, name: &str) -> Result<(), Failed>
        ensures change { Changes (counts_seen self.old) (counts_seen self.new) (created None name.now result) result }
        ensures exact { self.new ≡ after_change self.old result }
    {
        if fs::create(self.rt, name).is_err() {
            raise(&mut self.write_faults);
            return Err(Failed);
        }
        Ok(())
    }

    fn append(&mut self, name: &str, piece: &[u8]) -> Result<usize, Failed>
        ensures some { TakesSome result piece.now }
        ensures change { Changes (counts_seen self.old) (counts_seen self.new)
            (grown None name.now piece.now result) result }
        ensures exact { self.new ≡ after_change self.old result }
    {
        let answer = append_to(self.rt, name, piece);
        if answer.is_err() {
            raise(&mut self.write_faults);
        }
        answer
    }

    fn remove(&mut self, name: &str) -> Result<(), Failed>
        ensures change { Changes (counts_seen self.old) (counts_seen self.new) (removed None name.now result) result }
        ensures exact { self.new ≡ after_change self.old result }
    {
        let answer = remove_file(self.rt, name);
        if answer.is_err() {
            raise(&mut self.write_faults);
        }
        answer
    }
}
