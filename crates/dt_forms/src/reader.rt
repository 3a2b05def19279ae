//! Reads pattern files.

ghost use Rattle.std.specs.Prelude.{◌≡◌, ◌<◌, ◌≤◌, ◌∷◌, [], length, map, All, IfErr, IfOk, OnOk, None, Some};
ghost use Rattle.std.specs.List.{list_any};
ghost use Rattle.dt_lines.specs.Lines.{logical_lines};
ghost use Rattle.dt_lines.specs.Spans.{AreSpans, IsWithin, line_seen, text_at};
ghost use Rattle.dt_fields.specs.Faults.{first, token};
ghost use Rattle.dt_fields.specs.View.{DefBroken, IsDetailWithin, detail_seen};
ghost use Rattle.dt_forms.specs.FileLines.{all_lines, file_lines, in_file};
ghost use Rattle.dt_forms.specs.HeadedLines.{IsHeaded, first_text, position_of, rest_texts};
ghost use Rattle.dt_forms.specs.Heads.{head_of, opening_text};
ghost use Rattle.dt_forms.specs.Models.{IsModelOf, IsModelOfScope};
ghost use Rattle.dt_scope.specs.Scope.{nothing_defined};
ghost use Rattle.dt_scope.specs.Groups.{innermost, innermost_kind};
ghost use Rattle.dt_model.specs.Options.{IsOptions};
ghost use Rattle.dt_forms.specs.Rules.{after_closing, after_head, after_line, after_lines, after_opening};
ghost use Rattle.dt_forms.specs.Rules.{definition_faults, faults_from, faults_of_file, faults_of_line, first_fault};
ghost use Rattle.dt_forms.specs.Rules.{head_faults, scope_before, unclosed_fault, unclosed_faults};
ghost use Rattle.dt_forms.specs.Structure.{structure_rows};
ghost use Rattle.dt_forms.specs.Positions.{IsFoundOpening};
ghost use Rattle.dt_model.specs.Sound.{IsSound};
ghost use Rattle.dt_forms.specs.Sources.{AreSources, IsSourceAt};
ghost use Rattle.dt_forms.specs.View.{FileBroken, ModelBroken, fault_at, texts_of};

use crate::fault::{Fault, ModelFault};
use crate::head::{Head, head_of};
use crate::position::span_of_line;
use crate::source::Source;
use crate::structure::{check_indentation, check_structure};
use dt_fields::{DefFault, Detail, Rule};
use dt_lines::{Logical, Position, Span};
use dt_model::{EntryList, FormatList, MOST_FILES, Model, Options, PatternList, SetList};
use dt_patterns::{add_format_line, add_pattern_line};
use dt_scope::{Kind, Opening, Scope};
use std::alloc::{AllocError, Global};

/// The model of these files, each read as the source at its place, from 0. Broken has a fault of the least line that
/// breaks a rule, by its file and then its number: the first rule that this line breaks.
pub fn read_model(alloc: Global, options: &Options, files: &[Source]) -> Result<Model, ModelFault>
    requires options { IsOptions options.now }
    requires few { length files.now ≤ MOST_FILES }
    requires sources { AreSources files.now }
    ensures model { IfOk result (IsModelOf options.now (texts_of files.now)) }
    ensures sound { IfOk result IsSound }
    ensures kept { OnOk result (first_fault options.now (texts_of files.now) ≡ None) }
    ensures broken { IfErr result (λ fault.
        ModelBroken files.now fault (first_fault options.now (texts_of files.now))) }
{
    let scope = read_files(alloc, options, files)?;
    match model_of(alloc, options, scope) {
        Ok(model) => Ok(model),
        Err(_) => Err(ModelFault::NoMemory),
    }
}

// The model of what lines define.
fn model_of(alloc: Global, options: &Options, scope: Scope) -> Result<Model, AllocError>
    requires { scope.groups ≡ [] }
    ensures { IfOk result (IsModelOfScope options.now scope) }
{
    let (sets, formats, patterns, entries) = scope.into_parts(alloc)?;
    Ok(Model {
        width: options.width,
        variable: options.variable,
        sets: SetList::of(sets),
        formats: FormatList::of(formats),
        entries: EntryList::of(entries),
        patterns: PatternList::of(patterns),
    })
}

// What the lines of all files define.
fn read_files(alloc: Global, options: &Options, files: &[Source]) -> Result<Scope, ModelFault>
    requires options { IsOptions options.now }
    requires few { length files.now ≤ MOST_FILES }
    requires sources { AreSources files.now }
    ensures scope { IfOk result (λ scope. scope ≡ scope_before options.now (all_lines (texts_of files.now))) }
    ensures closed { IfOk result (λ scope. scope.groups ≡ []) }
    ensures kept { OnOk result (first_fault options.now (texts_of files.now) ≡ None) }
    ensures broken { IfErr result (λ fault.
        ModelBroken files.now fault (first_fault options.now (texts_of files.now))) }
{
    let mut scope = Scope::new(alloc);
    match read_each(alloc, options, files, &mut scope) {
        Ok(()) => Ok(scope),
        Err(fault) => Err(fault),
    }
}

// Adds what the lines of all files define, where nothing is defined yet.
#[tactic(auto, using(crate::proofs::ReadFiles::broken_here))]
fn read_each(
    alloc: Global,
    options: &Options,
    files: &[Source],
    scope: &mut Scope,
) -> Result<(), ModelFault>
    requires options { IsOptions options.now }
    requires few { length files.now ≤ MOST_FILES }
    requires sources { AreSources files.now }
    requires nothing { scope.old ≡ nothing_defined }
    ensures scope { OnOk result (scope.new ≡ scope_before options.now (all_lines (texts_of files.now))) }
    ensures closed { OnOk result (scope.new.groups ≡ []) }
    ensures kept { OnOk result (first_fault options.now (texts_of files.now) ≡ None) }
    ensures broken { IfErr result (λ fault.
        ModelBroken files.now fault (first_fault options.now (texts_of files.now))) }
{
    for (place, source) in files.iter().enumerate() {
        match read_file(alloc, options, place as u16, source, scope) {
            Ok(()) => {}
            Err(fault) => return Err(fault),
        }
    }
    Ok(())
}

// Reads a file, which begins with no open group.
#[tactic(auto, using(crate::proofs::Faults::first_prefix))]
fn read_file(
    alloc: Global,
    options: &Options,
    file: u16,
    source: &Source,
    scope: &mut Scope,
) -> Result<(), ModelFault>
    requires options { IsOptions options.now }
    requires source { IsSourceAt file source.now }
    requires closed { scope.old.groups ≡ [] }
    ensures after { OnOk result (scope.new ≡ after_lines options.now scope.old (file_lines file source.now.bytes)) }
    ensures kept { OnOk result (faults_of_file options.now scope.old file source.now.bytes ≡ []) }
    ensures broken { IfErr result (λ fault. FileBroken source.now.bytes file fault
        (first (faults_of_file options.now scope.old file source.now.bytes))) }
{
    match read_lines(
        alloc,
        options,
        file,
        source.bytes.items(),
        source.lines.items(),
        scope,
    ) {
        Ok(()) => check_closed(file, source, scope),
        Err(fault) => Err(fault),
    }
}

// Refuses a file at whose end a group is open.
fn check_closed(file: u16, source: &Source, scope: &Scope) -> Result<(), ModelFault>
    requires source { IsSourceAt file source.now }
    requires found { All (IsFoundOpening source.now.bytes) scope.now.groups }
    ensures kept { OnOk result (unclosed_faults file source.now.bytes (innermost scope.now.groups) ≡ []) }
    ensures broken { IfErr result (λ fault. FileBroken source.now.bytes file fault
        (first (unclosed_faults file source.now.bytes (innermost scope.now.groups)))) }
{
    match scope.innermost() {
        None => Ok(()),
        Some(opening) => Err(unclosed(file, source, opening)),
    }
}

// The fault of a file at whose end this group is the innermost open one.
fn unclosed(file: u16, source: &Source, opening: Opening) -> ModelFault
    requires source { IsSourceAt file source.now }
    requires found { IsFoundOpening source.now.bytes opening }
    ensures { FileBroken source.now.bytes file result (Some (unclosed_fault file source.now.bytes opening)) }
{
    ModelFault::Broken(Fault {
        file,
        line: source.last_line,
        rule: Rule::L6,
        detail: opening_detail(file, source, opening),
    })
}

// The token that opens a group, as a detail.
fn opening_detail(file: u16, source: &Source, opening: Opening) -> Detail
    requires source { IsSourceAt file source.now }
    requires found { IsFoundOpening source.now.bytes opening }
    ensures seen { detail_seen source.now.bytes result ≡ token (opening_text opening.kind) }
    ensures within { IsDetailWithin source.now.bytes result }
{
    match span_of_line(source.bytes.items(), source.lines.items(), opening.line) {
        Some(span) => Detail::Text(span),
        None => Detail::None,
    }
}

// Reads lines of a file.
#[tactic(auto, using(crate::proofs::ReadLines::after_more, crate::proofs::ReadLines::faults_more, crate::proofs::ReadLines::broken_here))]
fn read_lines(
    alloc: Global,
    options: &Options,
    file: u16,
    source: &[u8],
    lines: &[Logical],
    scope: &mut Scope,
) -> Result<(), ModelFault>
    requires options { IsOptions options.now }
    requires lines { All (λ l. AreSpans (length source.now) l.tokens) lines.now }
    ensures after { OnOk result (scope.new ≡ after_lines options.now scope.old
        (map (in_file file) (map (line_seen source.now) lines.now))) }
    ensures kept { OnOk result (faults_from options.now scope.old
        (map (in_file file) (map (line_seen source.now) lines.now)) ≡ []) }
    ensures broken { IfErr result (λ fault. FileBroken source.now file fault
        (first (faults_from options.now scope.old (map (in_file file) (map (line_seen source.now) lines.now))))) }
{
    for line in lines {
        if let Err(fault) = read_line(alloc, options, file, source, line, scope) {
            return Err(fault_at(file, line.line, fault));
        }
    }
    Ok(())
}

// A line's fault as that of its file.
fn fault_at(file: u16, line: u32, fault: DefFault) -> ModelFault
    ensures { result ≡ fault_at file line fault }
{
    match fault {
        DefFault::NoMemory => ModelFault::NoMemory,
        DefFault::Broken(rule, detail) => ModelFault::Broken(Fault {
            file,
            line,
            rule,
            detail,
        }),
    }
}

// Reads a line, which sees what the lines before it define.
fn read_line(
    alloc: Global,
    options: &Options,
    file: u16,
    source: &[u8],
    line: &Logical,
    scope: &mut Scope,
) -> Result<(), DefFault>
    requires options { IsOptions options.now }
    requires spans { AreSpans (length source.now) line.now.tokens }
    ensures after { OnOk result (scope.new
        ≡ after_line options.now scope.old (in_file file (line_seen source.now line.now))) }
    ensures kept { OnOk result (faults_of_line options.now scope.old (line_seen source.now line.now) ≡ []) }
    ensures broken { IfErr result (λ fault. DefBroken source.now fault
        (faults_of_line options.now scope.old (line_seen source.now line.now))) }
{
    let tokens = line.tokens.items();
    if tokens.is_empty() {
        return check_indentation(scope.depth(), line.indent, source);
    }
    let (first, rest) = split_line(tokens);
    let headed = HeadedLine {
        file,
        source,
        line,
        first,
        rest,
    };
    read_tokens(alloc, options, headed, scope)
}

// The first token and the others.
fn split_line(tokens: &[Span]) -> (Span, &[Span])
    requires { 0 < length tokens.now }
    ensures { tokens.now ≡ result.0 ∷ result.1.now }
{
    let (first, rest) = tokens.split_first().unwrap();
    (*first, rest)
}

/// A line that has a token: the place of its file among all files, from 0, the file's bytes, the line, its first token,
/// and the others.
#[derive(Clone, Copy)]
pub struct HeadedLine<'a> {
    pub file: u16,
    pub source: &'a [u8],
    pub line: &'a Logical,
    pub first: Span,
    pub rest: &'a [Span],
}

// Reads a line that has a token.
#[tactic(auto, using(dt_fields::proofs::FirstFaults::broken_prefix))]
fn read_tokens(
    alloc: Global,
    options: &Options,
    headed: HeadedLine,
    scope: &mut Scope,
) -> Result<(), DefFault>
    requires options { IsOptions options.now }
    requires headed { IsHeaded headed }
    ensures after { OnOk result (scope.new ≡ after_head options.now scope.old (position_of headed.entry)
        (first_text headed.entry) (rest_texts headed.entry) (head_of (first_text headed.entry))) }
    ensures kept { OnOk result (head_faults options.now scope.old headed.entry.line.now.indent
        (first_text headed.entry) (rest_texts headed.entry) (head_of (first_text headed.entry)) ≡ []) }
    ensures broken { IfErr result (λ fault. DefBroken headed.entry.source.now fault (head_faults options.now scope.old
        headed.entry.line.now.indent (first_text headed.entry) (rest_texts headed.entry)
        (head_of (first_text headed.entry)))) }
{
    let head = head_of(headed.first.text(headed.source));
    match check_structure(
        scope,
        headed.line.indent,
        headed.source,
        headed.first,
        headed.rest,
        head,
    ) {
        Ok(()) => add_definition(alloc, options, headed, scope),
        Err(fault) => Err(fault),
    }
}

// Opens a group.
fn open_group(alloc: Global, scope: &mut Scope, opening: Opening) -> Result<(), DefFault>
    ensures after { OnOk result (scope.new ≡ after_opening scope.old opening) }
    ensures memory { IfErr result (λ fault. fault ≡ DefFault.NoMemory) }
{
    scope.open_group(alloc, opening)?;
    Ok(())
}

// Closes the innermost group, which is of this kind.
fn close_group(scope: &mut Scope, kind: Kind) -> Result<(), DefFault>
    requires { innermost_kind scope.old.groups ≡ Some kind }
    ensures after { OnOk result (scope.new ≡ after_closing scope.old kind) }
    ensures memory { IfErr result (λ fault. fault ≡ DefFault.NoMemory) }
{
    scope.close_group(kind)?;
    Ok(())
}

// Adds what a line defines that breaks no rule of structure.
#[tactic(auto, using(crate::proofs::HeadTokens::begins_with_field, crate::proofs::HeadTokens::begins_with_set))]
fn add_definition(
    alloc: Global,
    options: &Options,
    headed: HeadedLine,
    scope: &mut Scope,
) -> Result<(), DefFault>
    requires options { IsOptions options.now }
    requires headed { IsHeaded headed }
    requires structure { structure_rows scope.old headed.line.now.indent (first_text headed) (rest_texts headed)
        (head_of (first_text headed)) ≡ [] }
    ensures after { OnOk result (scope.new ≡ after_head options.now scope.old (position_of headed.entry)
        (first_text headed.entry) (rest_texts headed.entry) (head_of (first_text headed.entry))) }
    ensures kept { OnOk result (definition_faults options.now scope.old (first_text headed.entry)
        (rest_texts headed.entry) (head_of (first_text headed.entry)) ≡ []) }
    ensures broken { IfErr result (λ fault. DefBroken headed.entry.source.now fault (definition_faults options.now
        scope.old (first_text headed.entry) (rest_texts headed.entry) (head_of (first_text headed.entry)))) }
{
    let HeadedLine {
        file,
        source,
        line,
        first,
        rest,
    } = headed;
    let position = Position {
        file,
        line: line.line,
    };
    match head_of(first.text(source)) {
        Head::Opens(kind) => {
            let opening = Opening {
                kind,
                file,
                line: line.line,
            };
            open_group(alloc, scope, opening)
        }
        Head::Closes(kind) => close_group(scope, kind),
        Head::Field(_) => scope.add_field(alloc, options.width, source, line),
        Head::Set(_) => scope.add_set(alloc, source, line),
        Head::Format(name) => add_format_line(alloc, options, scope, source, name, rest),
        Head::Pattern(name) => {
            add_pattern_line(alloc, options, scope, source, position, name, rest)
        }
        Head::None => Ok(()),
    }
}
