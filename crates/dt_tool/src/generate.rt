//! From the files that the words name to the C text, with all that stops it on the way.

ghost use Rattle.std.specs.Prelude.{◌≡◌, ◌≤◌, List, All, None, length, IfErr, IfOk, OnOk};
ghost use Rattle.dt_io.specs.Folders.{IsOnlyRead};
ghost use Rattle.dt_forms.specs.Models.{IsModelOf};
ghost use Rattle.dt_model.specs.Options.{IsOptions};
ghost use Rattle.dt_forms.specs.Rules.{first_fault};
ghost use Rattle.dt_model.specs.Sound.{IsSound};
ghost use Rattle.dt_forms.specs.Sources.{AreSources};
ghost use Rattle.dt_model.specs.Patterns.{FlatPattern};
ghost use Rattle.dt_model.specs.Trees.{Items, items_of};
ghost use Rattle.dt_forms.specs.View.{texts_of};
ghost use Rattle.dt_tree.specs.Entries.{AreInOrder, patterns_of};
ghost use Rattle.dt_tree.specs.Refusals.{KeepGroupRules, IsRefused};
ghost use Rattle.dt_tool.specs.Decoders.{IsDecoderOf};
ghost use Rattle.dt_tool.specs.Due.{IsDueOfFiles, gen_task};
ghost use Rattle.dt_tool.specs.Messages as said;
ghost use Rattle.dt_tool.specs.Refusals.{RefusesEntries, RefusesFault, SaysThis};
ghost use Rattle.dt_tool.specs.Stops.{AnswersTask, MakesDue};
ghost use Rattle.dt_tool.specs.View.{asked_seen, contents};

use crate::inputs::{load_all, sources_of};
use crate::messages;
use crate::messages::Inputs;
use crate::request::Request;
use crate::stop::{Stop, refusal, stop_of};
use c_writer::text::text;
use dt_fields::Rule;
use dt_forms::read_model;
use dt_io::Folder;
use dt_lines::{LARGEST_FILE, Position};
use dt_model::{MOST_FILES, Model, Options};
use dt_tree::{Tree, TreeFault};
use dt_words::Text;
use std::alloc::Global;

/// The C text of the files.
pub fn generate<D: Folder>(alloc: Global, request: Request, folder: &mut D) -> Result<Vec<u8>, Stop>
    requires fit { IsOptions request.options.now }
    requires few { length request.files.now ≤ MOST_FILES }
    ensures answer { AnswersTask (gen_task (asked_seen request.entry)) (D.seen folder.old) (D.seen folder.new) result }
    ensures only { IsOnlyRead (D.seen folder.old) (D.seen folder.new) }
{
    let files = load_all(alloc, request.files, LARGEST_FILE, folder)?;
    text_of_files(alloc, request.options, request.files, files)
}

// The C text of files of these names and bytes.
fn text_of_files(
    alloc: Global,
    options: &Options,
    names: &[Text],
    files: Vec<Vec<u8>>,
) -> Result<Vec<u8>, Stop>
    requires fit { IsOptions options.now }
    requires few { length files.items ≤ MOST_FILES }
    requires small { All (λ file. length file ≤ LARGEST_FILE) (contents files.items) }
    ensures due { MakesDue result (IsDueOfFiles options.now names.now (contents files.items)) }
    ensures decoder { IfOk result (λ text. IsDecoderOf options.now (contents files.items) text.items) }
{
    let sources = sources_of(alloc, options.width, names, files)?;
    let inputs = Inputs {
        width: options.width,
        names,
        sources: sources.as_slice(),
    };
    let model = model_of(alloc, options, inputs)?;
    refuse_entries(alloc, inputs, &model)?;
    match text(alloc, &model, options) {
        Ok(text) => Ok(text),
        Err(_) => Err(Stop::NoMemory),
    }
}

// The model of the inputs.
fn model_of(alloc: Global, options: &Options, inputs: Inputs) -> Result<Model, Stop>
    requires options { IsOptions options.now }
    requires few { length inputs.sources.now ≤ MOST_FILES }
    requires sources { AreSources inputs.sources.now }
    ensures model { IfOk result (IsModelOf options.now (texts_of inputs.entry.sources.now)) }
    ensures sound { IfOk result IsSound }
    ensures kept { OnOk result (first_fault options.now (texts_of inputs.entry.sources.now) ≡ None) }
    ensures stop { IfErr result (λ stop. RefusesFault stop inputs.entry.width inputs.entry.names.now
        (first_fault options.now (texts_of inputs.entry.sources.now))) }
{
    match read_model(alloc, options, inputs.sources) {
        Ok(model) => Ok(model),
        Err(fault) => Err(stop_of(alloc, inputs, fault)),
    }
}

// Stops where a group of the inputs is empty, or entries overlap.
fn refuse_entries(alloc: Global, inputs: Inputs, model: &Model) -> Result<(), Stop>
    requires in_order { AreInOrder model.now }
    requires sources { AreSources inputs.sources.now }
    ensures kept { OnOk result (KeepGroupRules (patterns_of model.now) (items_of model.now.entries)) }
    ensures stop { IfErr result (λ stop. RefusesEntries stop inputs.entry.names.now
        (texts_of inputs.entry.sources.now) (patterns_of model.now) (items_of model.now.entries)) }
{
    match Tree::build(alloc, model) {
        Ok(_) => Ok(()),
        Err(fault) => Err(stop_of_tree(alloc, inputs, fault)),
    }
}

// What is said of a model that has no tree.
fn stop_of_tree(alloc: Global, inputs: Inputs, fault: TreeFault) -> Stop
    requires { AreSources inputs.sources.now }
    ensures { (ps : List FlatPattern) (items : Items) → IsRefused ps items fault
        → RefusesEntries result inputs.entry.names.now (texts_of inputs.entry.sources.now) ps items }
{
    match fault {
        TreeFault::Empty(position) => refuse_entry(alloc, inputs, position, Rule::H1),
        TreeFault::Widths(position) => refuse_entry(alloc, inputs, position, Rule::H3),
        TreeFault::Knot(positions) => {
            refusal(messages::overlap_message(alloc, inputs, positions.items()))
        }
        TreeFault::NoMemory => Stop::NoMemory,
    }
}

// What is said of an entry at this position, which breaks a rule of groups.
fn refuse_entry(alloc: Global, inputs: Inputs, position: Position, rule: Rule) -> Stop
    requires { AreSources inputs.sources.now }
    ensures { SaysThis result (said.entry_message rule inputs.entry.names.now
        (texts_of inputs.entry.sources.now) position) }
{
    refusal(messages::entry_message(alloc, inputs, position, rule))
}
