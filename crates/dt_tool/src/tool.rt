//! The command: reads what the words name, and writes what is due.

ghost use Rattle.std.specs.Prelude.{◌≡◌, ◌≢◌, ◌⊎◌, ◌<◌, IfSome, IsSome, [], false, get_or, length};
ghost use Rattle.std.specs.Option.{option_map};
ghost use Rattle.dt_io.specs.Sinks.{Reports};
ghost use Rattle.dt_words.specs.Commands.{command_of};
ghost use Rattle.dt_words.specs.View.{texts, value_seen};
ghost use Rattle.dt_tool.specs.Messages as said;
ghost use Rattle.dt_tool.specs.Outcomes.{IsRight, output_named, run_seen};
ghost use Rattle.dt_tool.specs.Statuses.{exit_status, tests_errors};

use crate::messages;
use crate::request::{Evaluation, Request};
use crate::run::{run_eval, run_gen};
use crate::status::{Outcome, Status};
use dt_io::{Folder, Sink, report};
use dt_words::{Command, Usage, WordFault, read_words};
use std::alloc::Global;

/// Does what the words say: makes the C decoder of the pattern files that they name, and writes it to `out` or to a
/// file of the folder; or runs a C text at a word, and writes to `out` what it did. What went wrong is said on `err`,
/// whose own failures change no status.
/// `words` doesn't hold the program's name. All memory is taken before the first byte is written and before a file is
/// made.
pub fn tool<D: Folder, O: Sink, E: Sink>(
    alloc: Global,
    words: &[String],
    folder: &mut D,
    out: &mut O,
    err: &mut E,
) -> Status
    ensures number { result.number ≡ exit_status (tests_errors (command_of (texts words.now))) result.outcome }
    ensures right { IsRight (texts words.now) (command_of (texts words.now)) (run_seen result.outcome
        (D.seen folder.old) (D.seen folder.new) (O.seen out.old) (O.seen out.new) (E.seen err.old) (E.seen err.new)) }
    ensures untouched { result.outcome ≢ Outcome.Done → result.outcome ≢ Outcome.WriteFault → out.new ≡ out.old }
    ensures to_file { IsSome (output_named (command_of (texts words.now))) → out.new ≡ out.old }
    ensures unread { result.outcome ≡ Outcome.Usage → folder.new ≡ folder.old }
    ensures quiet { result.outcome ≡ Outcome.Done → err.new ≡ err.old }
{
    match read_words(alloc, words) {
        Ok(
            Command::Gen {
                options,
                output,
                files,
                test,
            },
        ) => {
            let request = Request {
                options: &options,
                output: &output,
                files: files.items(),
            };
            Status::of(run_gen(alloc, request, folder, out, err), test)
        }
        Ok(
            Command::Eval {
                text,
                word,
                word_place,
                outcomes,
                answers,
            },
        ) => {
            let request = Evaluation {
                text: &text,
                word,
                given: words[word_place].as_str(),
                outcomes: outcomes.items(),
                answers: answers.items(),
            };
            Status::of(run_eval(alloc, request, folder, out, err), false)
        }
        Err(WordFault::Bad(usage, place)) => {
            Status::of(refuse_words(alloc, words, usage, place, err), false)
        }
        Err(WordFault::NoMemory) => no_memory(err),
    }
}

/// Says that memory ran out.
pub fn no_memory<E: Sink>(err: &mut E) -> Status
    ensures outcome { result.outcome ≡ Outcome.NoMemory }
    ensures number { result.number ≡ exit_status false Outcome.NoMemory }
    ensures said { Reports (E.seen err.old) (E.seen err.new) said.no_memory }
{
    report(err, messages::NO_MEMORY);
    Status::of(Outcome::NoMemory, false)
}

// Says what is wrong with the words.
fn refuse_words<E: Sink>(
    alloc: Global,
    words: &[String],
    usage: Usage,
    place: Option<usize>,
    err: &mut E,
) -> Outcome
    requires { IfSome place (λ place. place < length words.now) }
    ensures either { (result ≡ Outcome.Usage) ⊎ (result ≡ Outcome.NoMemory) }
    ensures usage { result ≡ Outcome.Usage
        → Reports (E.seen err.old) (E.seen err.new) (said.usage_message (texts words.now) (usage, place)) }
    ensures no_memory { result ≡ Outcome.NoMemory → Reports (E.seen err.old) (E.seen err.new) said.no_memory }
{
    match messages::usage_message(alloc, usage, word_at(words, place)) {
        Ok(message) => {
            report(err, message.as_slice());
            Outcome::Usage
        }
        Err(_) => {
            report(err, messages::NO_MEMORY);
            Outcome::NoMemory
        }
    }
}

// The word at a place, if there is one.
fn word_at<'a>(words: &'a [String], place: Option<usize>) -> Option<&'a str>
    requires { IfSome place (λ place. place < length words.now) }
    ensures { value_seen result ≡ option_map (λ place. get_or (texts words.now) place []) place }
{
    match place {
        Some(place) => Some(words[place].as_str()),
        None => None,
    }
}
