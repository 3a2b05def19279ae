//! How a run ended.

ghost use Rattle.std.specs.Prelude.{◌≡◌};

/// How a run ended.
#[derive(Clone, Copy, PartialEq, Eq)]
pub enum Outcome {
    /// All that the command writes was written.
    Done,
    /// A rule of the command is broken.
    Refused,
    /// The words are no command.
    Usage,
    /// An input isn't there, or a read of it failed.
    ReadFault,
    /// A write failed.
    WriteFault,
    /// Memory ran out, before anything was written.
    NoMemory,
}

/// How a run ended, with the exit status of the program.
#[derive(Clone, Copy)]
pub struct Status {
    pub outcome: Outcome,
    pub number: u8,
}

impl Status {
    ghost use Rattle.dt_tool.specs.Statuses.{exit_status};

    /// The status of an outcome. Under a test for errors the numbers of success and of a refusal change places.
    pub fn of(outcome: Outcome, test: bool) -> Status
        ensures outcome { result.outcome ≡ outcome }
        ensures number { result.number ≡ exit_status test outcome }
    {
        let number = match outcome {
            Outcome::Done if test => 1,
            Outcome::Done => 0,
            Outcome::Refused if test => 0,
            Outcome::Refused => 1,
            Outcome::Usage => 2,
            Outcome::ReadFault => 3,
            Outcome::WriteFault => 4,
            Outcome::NoMemory => 5,
        };
        Status { outcome, number }
    }
}
