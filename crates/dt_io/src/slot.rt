//! A place for a file in memory.
ghost use Rattle.std.specs.Prelude.{◌≡◌, ◌≤◌, ◌++◌, [], Some, None, max, length, take, unwrap_or, IfOk, IfSome};
ghost use Rattle.std.specs.Option.{option_copied};
ghost use Rattle.dt_io.specs.Places.{appended_to};

use std::alloc::{AllocError, Global};
use std::marker::Model;

/// A place for a file: its name, the file's bytes while it is held, and the room that it keeps.
#[derive(Drop)]
pub struct Slot {
    name: String,
    bytes: Vec<u8>,
    held: bool,
    room: usize,
}

impl Model for Slot {
    ghost use Rattle.std.specs.Prelude.{◌≤◌, vec_len, vec_capacity, Some, None, if◌then◌else◌};
    ghost use Rattle.std.specs.String.{string_bytes};
    ghost use Rattle.dt_io.specs.Places.{Place};

    ghost Value = { Place };

    ghost view = { λ s. record {
      name = string_bytes s.name;
      content = if s.held then Some s.bytes.items else None;
      room = s.room;
    } };

    ghost invariant = { λ s. (vec_len s.bytes ≤ s.room) × (s.room ≤ vec_capacity s.bytes) };
}

impl Slot {
    /// A place for a file that isn't held yet, with room for so many bytes.
    pub fn of_output(alloc: Global, name: &str, room: usize) -> Result<Slot, AllocError>
        ensures { IfOk result (λ slot. slot ≡ record { name = name.now; content = None; room = room }) }
    {
        Ok(Slot {
            name: String::from_str(alloc, name)?,
            bytes: Vec::with_capacity(alloc, room)?,
            held: false,
            room,
        })
    }

    /// A place for a file, with room for so many bytes or for those that it has, whichever is more.
    pub fn of_file(alloc: Global, name: &str, file: &[u8], room: usize) -> Result<Slot, AllocError>
        ensures { IfOk result (λ slot. slot
            ≡ record { name = name.now; content = Some file.now; room = max room (length file.now) }) }
    {
        let room = room.max(file.len());
        let mut bytes = Vec::with_capacity(alloc, room)?;
        bytes.extend_from_slice(file).unwrap();
        Ok(Slot {
            name: String::from_str(alloc, name)?,
            bytes,
            held: true,
            room,
        })
    }

    /// The name.
    pub fn name(&self) -> &str
        ensures { result.now ≡ self.now.name }
    {
        self.name.as_str()
    }

    /// The file, if it is held.
    pub fn content(&self) -> Option<&[u8]>
        ensures { option_copied result ≡ self.now.content }
    {
        if self.held {
            Some(self.bytes.as_slice())
        } else {
            None
        }
    }

    /// Holds an empty file.
    pub fn create(&mut self)
        ensures { self.new ≡ record self.old { content = Some [] } }
    {
        self.bytes.clear();
        self.held = true;
    }

    /// Holds no file.
    pub fn remove(&mut self)
        ensures { self.new ≡ record self.old { content = None } }
    {
        self.held = false;
    }

    /// Puts some of the piece behind the file, at most `step` bytes, and says how many. None where there is no room.
    pub fn append(&mut self, piece: &[u8], step: usize) -> Option<usize>
        requires { 1 ≤ step }
        ensures count { result ≡ appended_to self.old piece.now step }
        ensures bytes { IfSome result (λ n. self.new
            ≡ record self.old { content = Some (unwrap_or self.old.content [] ++ take n piece.now) }) }
        ensures full { result ≡ None → self.new ≡ self.old }
    {
        let len = if self.held { self.bytes.len() } else { 0 };
        let room = self.room - len;
        if room == 0 && !piece.is_empty() {
            return None;
        }
        if !self.held {
            self.create();
        }
        let count = piece.len().min(step).min(room);
        let (taken, _) = piece.split_at(count);
        self.bytes.extend_from_slice(taken).unwrap();
        Some(count)
    }
}
