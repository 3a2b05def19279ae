//! A folder in memory, whose failures are planned.
ghost use Rattle.std.specs.Prelude.{◌≡◌, ◌≤◌, ◌-◌, ◌++◌, min, map, length, take, drop, [], true, false};
ghost use Rattle.std.specs.Prelude.{Some, None, IfOk, IfSome, MatchOption, OnErr, is_err};
ghost use Rattle.std.specs.Io.{ReadsAtMost};
ghost use Rattle.std.specs.Option.{option_copied};
ghost use Rattle.std.specs.FinMap as finite;
ghost use Rattle.dt_io.specs.Bytes.{TakesSome};
ghost use Rattle.dt_io.specs.Causes.{one_more};
ghost use Rattle.dt_io.specs.Files.{Held, ReadsAt, content, created, grown, removed};
ghost use Rattle.dt_io.specs.Folders.{Changes, HasReadCause, IsOnlyRead};
ghost use Rattle.dt_io.specs.MemoryFolders.{HaveDistinctNames, folder_seen, names_of, pairs_of};
ghost use Rattle.dt_io.specs.MemoryFolders.{after_append, after_create, after_read, after_remove};
ghost use Rattle.dt_io.specs.MemoryFolders.{answer_of, append_count, count_said, fails_create, is_listed};
ghost use Rattle.dt_io.specs.Places.{IsNoPlace, IsPlaceOf, appended_in, changed, content_of, file_place, files_of};
ghost use Rattle.dt_io.specs.Places.{grown_in, has_place, output_place};

use crate::faults::raise;
use crate::folders::{Folder, FolderFault};
use crate::sinks::Failed;
use crate::slot::Slot;
use std::alloc::{AllocError, Global};
use std::marker::Model;

/// A folder that keeps its files, and has room for others. A read or an append takes at most `step` bytes. Calls of all
/// kinds are counted from 1, up to 2^64 - 1, and those whose number is listed fail.
#[derive(Drop)]
pub struct MemoryFolder {
    slots: Vec<Slot>,
    step: usize,
    failing: Vec<u64>,
    calls: u64,
    reads: u64,
    misses: u64,
    read_faults: u64,
    write_faults: u64,
}

impl Model for MemoryFolder {
    ghost use Rattle.std.specs.Prelude.{◌≤◌};
    ghost use Rattle.dt_io.specs.MemoryFolders.{FolderMemory};

    ghost Value = { FolderMemory };

    ghost view = { λ s. record {
      places = s.slots.items;
      step = s.step;
      failing = s.failing.items;
      calls = s.calls;
      reads = s.reads;
      misses = s.misses;
      read_faults = s.read_faults;
      write_faults = s.write_faults;
    } };

    ghost invariant = { λ s. 1 ≤ s.step };
}

/// Places for files, and then for outputs.
fn slots_of(
    alloc: Global,
    files: &[(String, Vec<u8>)],
    outputs: &[String],
    room: usize,
) -> Result<Vec<Slot>, AllocError>
    ensures { IfOk result (λ slots. slots.items
        ≡ map (file_place room) (pairs_of files.now) ++ map (output_place room) (names_of outputs.now)) }
{
    let mut slots = file_slots(alloc, files, room)?;
    for name in outputs {
        slots.push(Slot::of_output(alloc, name.as_str(), room)?)?;
    }
    Ok(slots)
}

fn file_slots(
    alloc: Global,
    files: &[(String, Vec<u8>)],
    room: usize,
) -> Result<Vec<Slot>, AllocError>
    ensures { IfOk result (λ slots. slots.items ≡ map (file_place room) (pairs_of files.now)) }
{
    let mut slots = Vec::new(alloc);
    for file in files {
        let slot = Slot::of_file(alloc, file.0.as_str(), file.1.as_slice(), room)?;
        slots.push(slot)?;
    }
    Ok(slots)
}

/// The number of the first place of this name, from 0.
fn place_of(slots: &[Slot], name: &str) -> Option<usize>
    ensures { MatchOption result (IsNoPlace name.now slots.now) (IsPlaceOf name.now slots.now) }
{
    for (number, slot) in slots.iter().enumerate() {
        if slot.name() == name {
            return Some(number);
        }
    }
    None
}

/// The bytes of the file of this name.
fn bytes_of<'a>(slots: &'a [Slot], name: &str) -> Option<&'a [u8]>
    ensures { option_copied result ≡ content_of name.now slots.now }
{
    for slot in slots {
        if slot.name() == name {
            return slot.content();
        }
    }
    None
}

/// Empties the first place of this name, or says that there is none.
#[tactic(auto, using(crate::proofs::Places::files_created))]
fn create_in(slots: &mut Vec<Slot>, name: &str) -> bool
    ensures found { result ≡ has_place name.now slots.old.items }
    ensures places { slots.new.items ≡ changed name.now (Some []) slots.old.items }
    ensures files { result ≡ true
        → files_of slots.new.items ≡ finite.insert (files_of slots.old.items) name.now [] }
    ensures same { result ≡ false → slots.new.items ≡ slots.old.items }
{
    match place_of(slots.as_slice(), name) {
        Some(number) => {
            slots[number].create();
            true
        }
        None => false,
    }
}

/// Puts some of the piece behind the file of this name. None where there is no place or no room.
#[tactic(auto, using(crate::proofs::Places::files_grown))]
fn append_in(slots: &mut Vec<Slot>, name: &str, piece: &[u8], step: usize) -> Option<usize>
    requires { 1 ≤ step }
    ensures count { result ≡ appended_in name.now slots.old.items piece.now step }
    ensures places { slots.new.items ≡ grown_in name.now slots.old.items piece.now result }
    ensures files { IfSome result (λ n. files_of slots.new.items
        ≡ finite.insert (files_of slots.old.items) name.now
        (content (files_of slots.old.items) name.now ++ take n piece.now)) }
{
    match place_of(slots.as_slice(), name) {
        Some(number) => slots[number].append(piece, step),
        None => None,
    }
}

/// Removes the file of this name, if it is held.
#[tactic(auto, using(crate::proofs::Places::files_removed, crate::proofs::Places::files_without))]
fn remove_in(slots: &mut Vec<Slot>, name: &str)
    ensures places { slots.new.items ≡ changed name.now None slots.old.items }
    ensures files { files_of slots.new.items ≡ finite.remove (files_of slots.old.items) name.now }
{
    match place_of(slots.as_slice(), name) {
        Some(number) => slots[number].remove(),
        None => {}
    }
}

/// Copies bytes of a file, from a place on, to the start of the buffer.
fn copy_at(file: &[u8], at: u64, step: usize, buf: &mut [u8]) -> usize
    ensures count { result ≡ min (min step (length buf.old)) (length file.now - at) }
    ensures bytes { take result buf.new ≡ take result (drop at file.now) }
    ensures rest { drop result buf.new ≡ drop result buf.old }
    ensures room { length buf.new ≡ length buf.old }
{
    if at >= file.len() as u64 {
        return 0;
    }
    let (_, rest) = file.split_at(at as usize);
    let count = step.min(buf.len()).min(rest.len());
    let (read, _) = rest.split_at(count);
    let (place, _) = buf.split_at_mut(count);
    place.copy_from_slice(read);
    count
}

impl MemoryFolder {
    /// A folder of copies of these files, with room for outputs of these names, which aren't held before they are made.
    /// It takes all its memory at once: for each file and output `room` bytes, or as many as the file has where that
    /// is more. A removed file's room is kept.
    #[tactic(auto, using(crate::proofs::Places::files_new))]
    pub fn new(
        alloc: Global,
        files: &[(String, Vec<u8>)],
        outputs: &[String],
        room: usize,
        step: usize,
        failing: &[u64],
    ) -> Result<MemoryFolder, AllocError>
        requires names { HaveDistinctNames (pairs_of files.now) (names_of outputs.now) }
        requires step { 1 ≤ step }
        ensures value { IfOk result (λ folder. folder ≡ record {
          places = map (file_place room) (pairs_of files.now)
              ++ map (output_place room) (names_of outputs.now);
          step = step;
          failing = failing.now;
          calls = 0;
          reads = 0;
          misses = 0;
          read_faults = 0;
          write_faults = 0;
        }) }
        ensures tells { IfOk result (λ folder. folder_seen folder ≡ record {
          files = Some (finite.from_entries (pairs_of files.now));
          misses = 0;
          read_faults = 0;
          write_faults = 0;
          reads = 0;
        }) }
    {
        Ok(MemoryFolder {
            slots: slots_of(alloc, files, outputs, room)?,
            step,
            failing: Vec::from_slice(alloc, failing)?,
            calls: 0,
            reads: 0,
            misses: 0,
            read_faults: 0,
            write_faults: 0,
        })
    }

    /// The bytes of the file of this name, if it is held.
    #[tactic(auto, using(crate::proofs::Places::get_files))]
    pub fn file(&self, name: &str) -> Option<&[u8]>
        ensures { option_copied result ≡ finite.get (files_of self.now.places) name.now }
    {
        bytes_of(self.slots.as_slice(), name)
    }
}

impl Folder for MemoryFolder {
    ghost seen = { folder_seen };

    #[tactic(auto, using(crate::proofs::Places::get_files))]
    fn read(&mut self, name: &str, at: u64, buf: &mut [u8]) -> Result<usize, FolderFault>
        ensures bound { ReadsAtMost result buf.new }
        ensures bytes { IfOk result (λ n. Held (Some (files_of self.old.places)) name.now
            (λ file. ReadsAt file at n buf.old buf.new)) }
        ensures cause { HasReadCause (folder_seen self.old) (folder_seen self.new) name.now result }
        ensures only { IsOnlyRead (folder_seen self.old) (folder_seen self.new) }
        ensures counted { self.new.reads ≡ one_more self.old.reads }
        ensures exact { self.new ≡ after_read self.old name.now }
        ensures answer { result ≡ answer_of self.old name.now at (length buf.old) }
        ensures rest { IfOk result (λ n. drop n buf.new ≡ drop n buf.old) }
        ensures same { OnErr result (buf.new ≡ buf.old) }
    {
        raise(&mut self.calls);
        raise(&mut self.reads);
        if self.failing.contains(&self.calls) {
            raise(&mut self.read_faults);
            return Err(FolderFault::Failed);
        }
        match bytes_of(self.slots.as_slice(), name) {
            Some(file) => Ok(copy_at(file, at, self.step, buf)),
            None => {
                raise(&mut self.misses);
                Err(FolderFault::Missing)
            }
        }
    }

    fn create(&mut self, name: &str) -> Result<(), Failed>
        ensures change { Changes (folder_seen self.old) (folder_seen self.new)
            (created (Some (files_of self.old.places)) name.now result) result }
        ensures exact { self.new ≡ after_create self.old name.now }
        ensures failed { is_err result ≡ fails_create self.old name.now }
    {
        raise(&mut self.calls);
        if self.failing.contains(&self.calls) || !create_in(&mut self.slots, name) {
            raise(&mut self.write_faults);
            return Err(Failed);
        }
        Ok(())
    }

    fn append(&mut self, name: &str, piece: &[u8]) -> Result<usize, Failed>
        ensures some { TakesSome result piece.now }
        ensures change { Changes (folder_seen self.old) (folder_seen self.new)
            (grown (Some (files_of self.old.places)) name.now piece.now result) result }
        ensures exact { self.new ≡ after_append self.old name.now piece.now }
        ensures answer { count_said result ≡ append_count self.old name.now piece.now }
    {
        raise(&mut self.calls);
        if self.failing.contains(&self.calls) {
            raise(&mut self.write_faults);
            return Err(Failed);
        }
        match append_in(&mut self.slots, name, piece, self.step) {
            Some(count) => Ok(count),
            None => {
                raise(&mut self.write_faults);
                Err(Failed)
            }
        }
    }

    fn remove(&mut self, name: &str) -> Result<(), Failed>
        ensures change { Changes (folder_seen self.old) (folder_seen self.new)
            (removed (Some (files_of self.old.places)) name.now result) result }
        ensures exact { self.new ≡ after_remove self.old name.now }
        ensures failed { is_err result ≡ is_listed self.old }
    {
        raise(&mut self.calls);
        if self.failing.contains(&self.calls) {
            raise(&mut self.write_faults);
            return Err(Failed);
        }
        remove_in(&mut self.slots, name);
        Ok(())
    }
}
