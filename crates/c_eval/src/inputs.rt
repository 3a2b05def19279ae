//! What expressions read in an extraction, and in the decoder.

ghost use Rattle.std.specs.Prelude.{◌≡◌, ◌≤◌, length, option_map};
ghost use Rattle.c_eval.specs.LiveSet.{live_seen};
ghost use Rattle.c_eval.specs.Runs.{held_of};
ghost use Rattle.c_subset.specs.View.{program_of};

use crate::declared::Setting;
use crate::expr::Inputs;
use crate::live::Live;
use dt_host::Host;
use dt_values::{Member, Name};

/// In an extraction: the arguments of its set, without the set's name.
#[derive(Drop)]
pub struct InExtraction<'a, H> {
    pub members: &'a [Member],
    pub live: &'a Live,
    pub host: &'a H,
    pub ghost few: { length members.now ≤ 32 },
}

impl<'a, H: Host> Inputs for InExtraction<'a, H> {
    ghost use Rattle.c_eval.specs.LiveSet.{held_in};
    ghost use Rattle.c_eval.specs.Runs.{in_extraction};

    ghost held = { λ s. in_extraction (held_in s.members.now s.live.now.items s.live.now.held) };

    ghost answer = { λ s. (H.host s.host.now).answer (H.state s.host.now) };

    fn held(&self, set: Option<Name>, name: Name) -> Option<i128> {
        match set {
            None => self.live.held(self.members, name),
            Some(_) => None,
        }
    }

    fn answer(&self, name: Name, argument: Option<i32>) -> i32 {
        self.host.function(name, argument)
    }
}

/// In the decoder: the arguments of the live set, with the set's name.
#[derive(Drop)]
pub struct InDecoder<'a, H> {
    pub setting: &'a Setting<'a>,
    pub live: &'a Option<Live>,
    pub host: &'a H,
}

impl<'a, H: Host> Inputs for InDecoder<'a, H> {
    ghost use Rattle.c_eval.specs.Runs.{in_decoder};

    ghost held = { λ s. in_decoder
        (option_map (live_seen (program_of s.setting.now.program.now) s.setting.now.outside.now) s.live.now) };

    ghost answer = { λ s. (H.host s.host.now).answer (H.state s.host.now) };

    fn held(&self, set: Option<Name>, name: Name) -> Option<i128> {
        match set {
            None => None,
            Some(set) => held_of(self.setting, self.live, set, name),
        }
    }

    fn answer(&self, name: Name, argument: Option<i32>) -> i32 {
        self.host.function(name, argument)
    }
}

// What an argument of this set holds. None where it is lost, or the set isn't live.
#[tactic(auto, using(crate::proofs::LiveTurns::arguments_are))]
fn held_of(setting: &Setting, live: &Option<Live>, set: Name, name: Name) -> Option<i128>
    ensures { result ≡ held_of (option_map (live_seen (program_of setting.now.program.now) setting.now.outside.now)
        live.now) set name }
{
    let Some(live) = live else {
        return None;
    };
    if set != live.set {
        return None;
    }
    match setting.members(live.set) {
        Some(members) => live.held(members, name),
        None => None,
    }
}
