//! What answers the calls of a decoder.

ghost use Rattle.std.specs.Prelude.{◌≡◌};
ghost use Rattle.dt_host.specs.Calls.{handed};
ghost use Rattle.dt_host.specs.Hosts.{Host as HostRecord};

use dt_values::{Name, Values};

/// What answers the calls of a decoder: a translator for each pattern, and the functions of fields. Its state, the name
/// and the values determine what it answers and the state after a call. A function changes nothing.
pub trait Host {
    /// The type of its states.
    ghost State: { Type 0 };

    /// What it answers in each of them, and the state after each call.
    ghost host: { Self → HostRecord State };

    /// The state that it is in.
    ghost state: { Self → State };

    /// Hands the values of a pattern's arguments to the translator of this name. True where it translates them.
    fn translate(&mut self, name: Name, values: &Values) -> bool
        ensures outcome { result ≡ (host self.old).outcome (state self.old)
            (handed name values.now.members.now values.now.items) }
        ensures next { state self.new ≡ (host self.old).next (state self.old)
            (handed name values.now.members.now values.now.items) }
        ensures same { host self.new ≡ host self.old };

    /// What the function of this name answers to a number, or without one.
    fn function(&self, name: Name, arg: Option<i32>) -> i32
        ensures { result ≡ (host self.now).answer (state self.now) name arg };
}
