//! A sink in memory that grows.

ghost use Rattle.std.specs.Prelude.{◌≡◌, ◌<◌, ◌++◌, [], length, Some, IfOk, OnErr, OnOk};
ghost use Rattle.dt_io.specs.Causes.{one_more};
ghost use Rattle.dt_io.specs.Bytes.{TakesSome, extend, taken_bytes};
ghost use Rattle.dt_io.specs.Sinks.{IsOnlyWritten, WriteFailed};
ghost use Rattle.dt_text.specs.Growing.{growing_sink, growing_state};
ghost use Rattle.dt_text.specs.Puts.{Puts};

use crate::out::Out;
use dt_io::{Failed, Sink};
use std::alloc::{AllocError, Global};
use std::marker::Model;

/// A sink that grows. A write fails where memory runs out.
#[derive(Drop)]
pub struct GrowingSink {
    bytes: Vec<u8>,
    faults: u64,
}

impl Model for GrowingSink {
    ghost use Rattle.dt_text.specs.Growing.{GrowingMemory};

    ghost Value = { GrowingMemory };

    ghost view = { λ s. record { written = s.bytes.items; faults = s.faults } };
}

impl GrowingSink {
    /// An empty sink.
    pub fn new(alloc: Global) -> GrowingSink
        ensures { result ≡ record { written = []; faults = 0 } }
    {
        GrowingSink {
            bytes: Vec::new(alloc),
            faults: 0,
        }
    }

    /// The whole text, unless memory ran out.
    pub fn into_text(self) -> Result<Vec<u8>, AllocError>
        ensures text { IfOk result (λ text. text.items ≡ self.written) }
        ensures whole { OnOk result (self.faults ≡ 0) }
        ensures lost { OnErr result (0 < self.faults) }
    {
        if self.faults > 0 {
            return Err(AllocError);
        }
        Ok(self.bytes)
    }
}

impl Sink for GrowingSink {
    ghost Rest = { Unit {0} };

    ghost seen = { growing_sink };

    fn write(&mut self, piece: &[u8]) -> Result<usize, Failed>
        ensures some { TakesSome result piece.now }
        ensures bytes { Some self.new.written ≡ extend (Some self.old.written) (taken_bytes result piece.now) }
        ensures cause { OnErr result (WriteFailed (growing_sink self.old) (growing_sink self.new)) }
        ensures only { IsOnlyWritten (growing_sink self.old) (growing_sink self.new) }
        ensures all { OnOk result (self.new ≡ record self.old { written = self.old.written ++ piece.now }) }
        ensures none { OnErr result (self.new ≡ record self.old { faults = one_more self.old.faults }) }
        ensures full { OnErr result (0 < length piece.now) }
    {
        if self.bytes.extend_from_slice(piece).is_err() {
            self.faults = self.faults.saturating_add(1);
            return Err(Failed);
        }
        Ok(piece.len())
    }
}

impl Out for GrowingSink {
    ghost Rest = { Unit {0} };

    ghost state = { growing_state };

    #[tactic(auto, using(crate::proofs::Growth::puts_written))]
    fn put(&mut self, bytes: &[u8]) {
        if self.faults == 0 {
            let _ = self.write(bytes);
        }
    }
}
