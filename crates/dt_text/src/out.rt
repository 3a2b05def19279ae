//! Where text goes.

ghost use Rattle.std.specs.Prelude.{◌≡◌, false, true, OnErr, OnOk};
ghost use Rattle.dt_text.specs.Puts.{State, Puts};

use dt_io::{Failed, Sink, write_all};

/// Where text goes, piece after piece. After a write that fails nothing more is written.
pub trait Out {
    /// The type of what no write changes.
    ghost Rest: { Type 0 };

    /// What is seen of it.
    ghost state: { Self → State Rest };

    /// Puts the bytes behind what is there.
    fn put(&mut self, bytes: &[u8])
        ensures { Puts (state self.old) (state self.new) bytes.now };
}

/// A sink that takes no more after its first failure.
#[derive(Drop)]
pub struct Writer<'a, S: Sink> {
    sink: &'a mut S,
    failed: bool,
}

impl<'a, S: Sink> Writer<'a, S> {
    /// A writer to this sink, which hasn't failed yet.
    pub fn new(sink: &'a mut S) -> Writer<'a, S>
        ensures sink { result.sink ≡ sink.entry }
        ensures failed { result.failed ≡ false }
    {
        Writer {
            sink,
            failed: false,
        }
    }

    /// Whether a write failed.
    pub fn answer(&self) -> Result<(), Failed>
        ensures ok { OnOk result (self.now.failed ≡ false) }
        ensures err { OnErr result (self.now.failed ≡ true) }
    {
        if self.failed { Err(Failed) } else { Ok(()) }
    }
}

impl<'a, S: Sink> Out for Writer<'a, S> {
    ghost use Rattle.std.specs.Prelude.{ℕ};

    ghost Rest = { S.Rest × ℕ };

    ghost state = { λ w. let seen = S.seen w.sink.now in record {
      sink = record {
        written = seen.written;
        faults = seen.faults;
        rest = (seen.rest, w.sink.ghost_name);
      };
      failed = w.failed;
    } };

    fn put(&mut self, bytes: &[u8]) {
        if !self.failed && write_all(self.sink, bytes).is_err() {
            self.failed = true;
        }
    }
}
