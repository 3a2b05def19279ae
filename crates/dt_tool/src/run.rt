//! The commands' runs over a folder and sinks.

ghost use Rattle.std.specs.Prelude.{◌≡◌, ◌≢◌, ◌≤◌, IsSome, OnErr, OnOk, length};
ghost use Rattle.dt_io.specs.Sinks.{Reports};
ghost use Rattle.dt_model.specs.Options.{IsOptions};
ghost use Rattle.dt_model.specs.declared.limits.TheConstants.{MOST_FILES};
ghost use Rattle.dt_tool.specs.Delivery.{Delivers};
ghost use Rattle.dt_tool.specs.Due.{gen_task};
ghost use Rattle.dt_tool.specs.Evaluations.{eval_task};
ghost use Rattle.dt_tool.specs.Messages as said;
ghost use Rattle.dt_tool.specs.Outcomes.{IsRightTask, run_seen};
ghost use Rattle.dt_tool.specs.View.{asked_seen, evaluation_seen, message_of, outcome_of};

use crate::evaluate::evaluate;
use crate::generate::generate;
use crate::messages;
use crate::request::{Evaluation, Request};
use crate::status::Outcome;
use crate::stop::Stop;
use dt_io::{Failed, Folder, Sink, report, write_all, write_output};
use dt_words::Text;
use std::alloc::Global;

/// Makes the C text, and writes it to `out` or to the file that is asked for.
pub fn run_gen<D: Folder, O: Sink, E: Sink>(
    alloc: Global,
    request: Request,
    folder: &mut D,
    out: &mut O,
    err: &mut E,
) -> Outcome
    requires fit { IsOptions request.options.now }
    requires few { length request.files.now ≤ MOST_FILES }
    ensures right { IsRightTask (gen_task (asked_seen request.entry)) (run_seen result
        (D.seen folder.old) (D.seen folder.new) (O.seen out.old) (O.seen out.new) (E.seen err.old) (E.seen err.new)) }
    ensures untouched { result ≢ Outcome.Done → result ≢ Outcome.WriteFault → out.new ≡ out.old }
    ensures to_file { IsSome request.entry.output.now → out.new ≡ out.old }
    ensures quiet { result ≡ Outcome.Done → err.new ≡ err.old }
{
    match generate(alloc, request, folder) {
        Ok(text) => deliver(text.as_slice(), request.output, folder, out, err),
        Err(stop) => report_stop(&stop, err),
    }
}

/// Runs the C text, and writes to `out` what it did.
pub fn run_eval<D: Folder, O: Sink, E: Sink>(
    alloc: Global,
    request: Evaluation,
    folder: &mut D,
    out: &mut O,
    err: &mut E,
) -> Outcome
    ensures right { IsRightTask (eval_task (evaluation_seen request.entry)) (run_seen result
        (D.seen folder.old) (D.seen folder.new) (O.seen out.old) (O.seen out.new) (E.seen err.old) (E.seen err.new)) }
    ensures untouched { result ≢ Outcome.Done → result ≢ Outcome.WriteFault → out.new ≡ out.old }
    ensures quiet { result ≡ Outcome.Done → err.new ≡ err.old }
{
    match evaluate(alloc, request, folder) {
        Ok(text) => deliver(text.as_slice(), &None, folder, out, err),
        Err(stop) => report_stop(&stop, err),
    }
}

// Writes the text to `out` or to the file, and says where that fails.
fn deliver<D: Folder, O: Sink, E: Sink>(
    text: &[u8],
    output: &Option<Text>,
    folder: &mut D,
    out: &mut O,
    err: &mut E,
) -> Outcome
    ensures delivers { Delivers output.now text.now (run_seen result
        (D.seen folder.old) (D.seen folder.new) (O.seen out.old) (O.seen out.new) (E.seen err.old) (E.seen err.new)) }
    ensures to_file { IsSome output.now → out.new ≡ out.old }
    ensures quiet { result ≡ Outcome.Done → err.new ≡ err.old }
{
    match output {
        Some(name) => report_write(write_output(folder, name.as_str(), text), err),
        None => report_write(write_all(out, text), err),
    }
}

// Says that a write failed, if it did.
fn report_write<E: Sink>(written: Result<(), Failed>, err: &mut E) -> Outcome
    ensures whole { OnOk written (result ≡ Outcome.Done) }
    ensures quiet { OnOk written (err.new ≡ err.old) }
    ensures fault { OnErr written (result ≡ Outcome.WriteFault) }
    ensures said { OnErr written (Reports (E.seen err.old) (E.seen err.new) said.cannot_write) }
{
    match written {
        Ok(()) => Outcome::Done,
        Err(_) => {
            report(err, messages::CANNOT_WRITE);
            Outcome::WriteFault
        }
    }
}

// Says why no text is written.
fn report_stop<E: Sink>(stop: &Stop, err: &mut E) -> Outcome
    ensures outcome { result ≡ outcome_of stop.now }
    ensures said { Reports (E.seen err.old) (E.seen err.new) (message_of stop.now) }
{
    match stop {
        Stop::ReadFault(message) => {
            report(err, message.as_slice());
            Outcome::ReadFault
        }
        Stop::Refused(message) => {
            report(err, message.as_slice());
            Outcome::Refused
        }
        Stop::NoMemory => {
            report(err, messages::NO_MEMORY);
            Outcome::NoMemory
        }
    }
}
