//! What an extraction, an assignment and a call make of a run.

ghost use Rattle.std.specs.Prelude.{◌≡◌, ◌≤◌, IfSome, List, length, map, option_map, take};
ghost use Rattle.c_eval.specs.LiveSet.{held_in, live_seen, live_with};
ghost use Rattle.c_eval.specs.Meaning.{helper_bits};
ghost use Rattle.c_eval.specs.Places.{place_of};
ghost use Rattle.c_eval.specs.Runs.{Standing as Stand, all_assigned, assigned, held_after_assignment};
ghost use Rattle.c_eval.specs.Runs.{held_after_extraction, held_of, place_in_extraction, run_one, values_of_call};
ghost use Rattle.c_eval.specs.Turns.{Stands, Turned};
ghost use Rattle.c_exprs.specs.View.{term_of};
ghost use Rattle.c_subset.specs.Programs.{Program, assign, call, extract};
ghost use Rattle.c_subset.specs.View.{assignment_of, program_of};
ghost use Rattle.dt_values.specs.declared.set.SetDef.{SetDef};
ghost use Rattle.dt_values.specs.Members.{type_in};

use crate::declared::Setting;
use crate::expr::{Inputs, evaluate};
use crate::inputs::{InDecoder, InExtraction};
use crate::live::Live;
use crate::turn::{Ended, Standing, Turn, after_call, live_turn};
use c_exprs::Expr;
use dt_host::Host;
use dt_values::{Member, Name, Values, Width};

/// The extraction of this format, for this set.
#[tactic(auto, using(crate::proofs::Going::turned_live))]
pub(crate) fn extract<H: Host>(
    setting: &Setting,
    format: Name,
    set: Name,
    standing: Standing,
    host: &H,
) -> Turn
    ensures { (r : Stand H.State)
        → Stands (program_of setting.now.program.now) setting.now.outside.now r standing (H.state host.now)
        → Turned (program_of setting.now.program.now) setting.now.outside.now
        (run_one (program_of setting.now.program.now) setting.now.outside.now (H.host host.now) setting.now.word
        (extract format set) r) result (H.state host.now) }
{
    live_turn(
        extracted(setting, format, set, &standing.live, host),
        standing,
    )
}

/// The assignment of an expression to an argument of this set.
#[tactic(auto, using(crate::proofs::Going::turned_live))]
pub(crate) fn assign<H: Host>(
    setting: &Setting,
    set: Name,
    name: Name,
    value: &Expr,
    standing: Standing,
    host: &H,
) -> Turn
    ensures { (r : Stand H.State)
        → Stands (program_of setting.now.program.now) setting.now.outside.now r standing (H.state host.now)
        → Turned (program_of setting.now.program.now) setting.now.outside.now
        (run_one (program_of setting.now.program.now) setting.now.outside.now (H.host host.now) setting.now.word
        (assign set name (term_of value.now)) r) result (H.state host.now) }
{
    live_turn(
        assigned(setting, set, name, value, &standing.live, host),
        standing,
    )
}

/// The call of this pattern, with this set.
#[tactic(auto, using(crate::proofs::Going::turned_call))]
pub(crate) fn call<H: Host>(
    setting: &Setting,
    name: Name,
    set: Name,
    standing: Standing,
    host: &mut H,
) -> Turn
    ensures turned { (r : Stand H.State)
        → Stands (program_of setting.now.program.now) setting.now.outside.now r standing (H.state host.old)
        → Turned (program_of setting.now.program.now) setting.now.outside.now
        (run_one (program_of setting.now.program.now) setting.now.outside.now (H.host host.old) setting.now.word
        (call name set) r) result (H.state host.new) }
    ensures same { H.host host.new ≡ H.host host.old }
{
    match values_of_call(setting, name, set, &standing.live) {
        Some(values) => after_call(host.translate(name, &values), standing),
        None => Turn::Ended(Ended::Stuck, standing),
    }
}

// The set, with what its arguments hold after an extraction. None where it is stuck.
fn extracted<H: Host>(
    setting: &Setting,
    format: Name,
    set: Name,
    live: &Option<Live>,
    host: &H,
) -> Option<Live>
    ensures { (r : Stand H.State)
        → r.live ≡ option_map (live_seen (program_of setting.now.program.now) setting.now.outside.now) live.now
        → r.state ≡ H.state host.now
        → option_map (live_seen (program_of setting.now.program.now) setting.now.outside.now) result
        ≡ option_map (live_with set) (held_after_extraction (program_of setting.now.program.now)
        setting.now.outside.now (H.host host.now) setting.now.word format set r) }
{
    let Some(members) = setting.members(set) else {
        return None;
    };
    let Some(assigns) = setting.assigns(format, set) else {
        return None;
    };
    all_assigned(
        setting.program.width,
        setting.word,
        members,
        assigns,
        live_set(live, set),
        host,
    )
}

// The same after an assignment.
fn assigned<H: Host>(
    setting: &Setting,
    set: Name,
    name: Name,
    value: &Expr,
    live: &Option<Live>,
    host: &H,
) -> Option<Live>
    ensures { (r : Stand H.State)
        → r.live ≡ option_map (live_seen (program_of setting.now.program.now) setting.now.outside.now) live.now
        → r.state ≡ H.state host.now
        → option_map (live_seen (program_of setting.now.program.now) setting.now.outside.now) result
        ≡ option_map (live_with set) (held_after_assignment (program_of setting.now.program.now)
        setting.now.outside.now (H.host host.now) setting.now.word set name (term_of value.now) r) }
{
    let Some(members) = setting.members(set) else {
        return None;
    };
    let inputs = InDecoder {
        setting,
        live,
        host,
    };
    assign_value(
        setting.program.width,
        setting.word,
        &inputs,
        members,
        name,
        value,
        &live_set(live, set),
    )
}

// Assignments in order.
fn all_assigned<H: Host>(
    width: Width,
    word: u64,
    members: &[Member],
    assigns: &[(Name, Expr)],
    live: Live,
    host: &H,
) -> Option<Live>
    requires { length members.now ≤ 32 }
    ensures held { option_map (λ live. held_in members.now live.items live.held) result
        ≡ all_assigned (helper_bits width) word ((H.host host.now).answer (H.state host.now)) members.now
        (map assignment_of assigns.now) (held_in members.now live.items live.held) }
    ensures set { IfSome result (λ made. made.set ≡ live.set) }
{
    let mut live = live;
    for (name, value) in assigns {
        match assign_in_extraction(width, word, members, *name, value, &live, host) {
            Some(next) => live = next,
            None => return None,
        }
    }
    Some(live)
}

fn assign_in_extraction<H: Host>(
    width: Width,
    word: u64,
    members: &[Member],
    name: Name,
    value: &Expr,
    live: &Live,
    host: &H,
) -> Option<Live>
    requires { length members.now ≤ 32 }
    ensures held { option_map (λ live. held_in members.now live.items live.held) result
        ≡ assigned (place_in_extraction (helper_bits width) word ((H.host host.now).answer (H.state host.now))
        (held_in members.now live.now.items live.now.held)) (type_in members.now name) name (term_of value.now)
        (held_in members.now live.now.items live.now.held) }
    ensures set { IfSome result (λ made. made.set ≡ live.now.set) }
{
    let inputs = InExtraction {
        members,
        live,
        host,
    };
    assign_value(width, word, &inputs, members, name, value, live)
}

// The set after an argument is assigned the value of an expression.
fn assign_value<I: Inputs>(
    width: Width,
    word: u64,
    inputs: &I,
    members: &[Member],
    name: Name,
    value: &Expr,
    live: &Live,
) -> Option<Live>
    requires { length members.now ≤ 32 }
    ensures held { option_map (λ live. held_in members.now live.items live.held) result
        ≡ assigned (place_of width word (I.held inputs.now) (I.answer inputs.now)) (type_in members.now name) name
        (term_of value.now) (held_in members.now live.now.items live.now.held) }
    ensures set { IfSome result (λ made. made.set ≡ live.now.set) }
{
    match evaluate(width, word, inputs, value) {
        Some(number) => live.assigned(members, name, number),
        None => None,
    }
}

// The set as it is live, or with all its arguments lost.
#[tactic(auto, using(crate::proofs::LiveTurns::live_here))]
fn live_set(live: &Option<Live>, set: Name) -> Live
    ensures set { result.set ≡ set }
    ensures held { (program : Program) (outside : List SetDef) → live_seen program outside result
        ≡ live_with set (held_of (option_map (live_seen program outside) live.now) set) }
{
    match live {
        Some(live) => {
            if set == live.set {
                *live
            } else {
                Live::lost(set)
            }
        }
        None => Live::lost(set),
    }
}

// What a call hands over. None where it is stuck.
fn values_of_call<'a>(
    setting: &Setting<'a>,
    name: Name,
    set: Name,
    live: &Option<Live>,
) -> Option<Values<'a>>
    ensures { option_map (λ values. take (length values.members.now) values.items) result
        ≡ values_of_call (program_of setting.now.program.now) setting.now.outside.now name set
        (option_map (live_seen (program_of setting.now.program.now) setting.now.outside.now) live.now) }
{
    let Some(members) = setting.members(set) else {
        return None;
    };
    let Some(live) = live else {
        return None;
    };
    if !setting.is_pattern(name, set) || set != live.set {
        return None;
    }
    live.handed(members)
}
