//! What the lines read so far define.

ghost use Rattle.std.specs.Prelude.{◌≡◌, ◌++◌, ◌∷◌, ◌-◌, [], ℕ, take, List, None, Some, length, map, IsTrue, IfErr, IfOk, IfSome, OnOk};
ghost use Rattle.std.specs.Option.{option_copied};
ghost use Rattle.dt_values.specs.Widths.{width_bits};
ghost use Rattle.dt_lines.specs.Spans.{AreSpans, text_at};
ghost use Rattle.dt_fields.specs.Faults.{Broken};
ghost use Rattle.dt_fields.specs.FieldLines.{begins_field, field_line_faults, line_field};
ghost use Rattle.dt_fields.specs.SetLines.{begins_set, line_set, set_line_faults};
ghost use Rattle.dt_values.specs.SetsByName.{set_at};
ghost use Rattle.dt_fields.specs.Tables.{entry_at};
ghost use Rattle.dt_fields.specs.View.{DefBroken};
ghost use Rattle.dt_scope.specs.Fitting.{FieldFits, FormatsFit, ValuesFit};
ghost use Rattle.dt_scope.specs.FormatsByName.{format_at};
ghost use Rattle.dt_scope.specs.Groups.{innermost, innermost_kind};
ghost use Rattle.dt_scope.specs.Marks.{closes, opens, pattern_mark, spelled};
ghost use Rattle.dt_scope.specs.Scope.{nothing_defined, pattern_names};
ghost use Rattle.dt_model.specs.Trees.{items_of};

use crate::formats::Formats;
use crate::groups::Groups;
use crate::kind::{Kind, Opening};
use crate::patterns::Patterns;
use dt_fields::{DefFault, FieldDef, Fields, Sets, args_line, field_line};
use dt_lines::Logical;
use dt_model::{Entry, Format, Pattern};
use dt_values::{Name, SetDef, Width};
use std::alloc::{AllocError, Global};
use std::marker::Model;

/// Fields, sets, formats and patterns, with those that are inferred. Contracts see the lists of them in order of
/// definition.
#[derive(Drop)]
pub struct Scope {
    fields: Fields,
    sets: Sets,
    formats: Formats,
    patterns: Patterns,
    groups: Groups,
}

impl Model for Scope {
    ghost use Rattle.dt_scope.specs.Fitting.{FieldsFit, FormatsFit};
    ghost use Rattle.dt_scope.specs.Groups.{openings_of, spelled_so_far};
    ghost use Rattle.dt_scope.specs.Scope.{Scope as Seen};

    ghost Value = { Seen };

    ghost view = { λ s. record {
      fields = s.fields;
      sets = s.sets;
      formats = s.formats;
      patterns = s.patterns;
      groups = openings_of s.groups;
      marks = spelled_so_far s.groups;
    } };

    ghost invariant = { λ s. FieldsFit s.fields × FormatsFit s.formats };
}

impl Scope {
    /// Nothing.
    pub fn new(alloc: Global) -> Scope
        ensures { result ≡ nothing_defined }
    {
        Scope {
            fields: Fields::new(alloc),
            sets: Sets::new(alloc),
            formats: Formats::new(alloc),
            patterns: Patterns::new(alloc),
            groups: Groups::new(alloc),
        }
    }

    /// The field of this name.
    pub fn field(&self, name: Name) -> Option<&FieldDef>
        ensures field { option_copied result ≡ entry_at self.now.fields name }
        ensures fits { IfSome (option_copied result) FieldFits }
    {
        self.fields.get(name)
    }

    /// The argument sets.
    pub fn sets(&self) -> &Sets
        ensures { result.now ≡ self.now.sets }
    {
        &self.sets
    }

    /// The formats.
    pub fn formats(&self) -> &Formats
        ensures formats { result.now ≡ self.now.formats }
        ensures fit { FormatsFit result.now }
    {
        &self.formats
    }

    /// The patterns.
    pub fn patterns(&self) -> &Patterns
        ensures { result.now ≡ self.now.patterns }
    {
        &self.patterns
    }

    /// Adds the field of a line.
    pub fn add_field(
        &mut self,
        alloc: Global,
        width: Width,
        source: &[u8],
        line: &Logical,
    ) -> Result<(), DefFault>
        requires spans { AreSpans (length source.now) line.now.tokens }
        requires field { IsTrue (begins_field (map (text_at source.now) line.now.tokens)) }
        ensures after { OnOk result (self.new ≡ record self.old {
          fields = self.old.fields ++ line_field (map (text_at source.now) line.now.tokens) ∷ [];
        }) }
        ensures kept { OnOk result (field_line_faults (width_bits width) self.old.fields
            (map (text_at source.now) line.now.tokens) ≡ []) }
        ensures broken { IfErr result (λ fault. DefBroken source.now fault
            (field_line_faults (width_bits width) self.old.fields (map (text_at source.now) line.now.tokens))) }
    {
        field_line(alloc, width, &mut self.fields, source, line)
    }

    /// Adds the set of a line.
    pub fn add_set(&mut self, alloc: Global, source: &[u8], line: &Logical) -> Result<(), DefFault>
        requires spans { AreSpans (length source.now) line.now.tokens }
        requires set { IsTrue (begins_set (map (text_at source.now) line.now.tokens)) }
        ensures after { OnOk result (self.new ≡ record self.old {
          sets = self.old.sets ++ line_set (map (text_at source.now) line.now.tokens) ∷ [];
        }) }
        ensures kept { OnOk result (set_line_faults self.old.sets (pattern_names self.old.patterns)
            (map (text_at source.now) line.now.tokens) ≡ []) }
        ensures broken { IfErr result (λ fault. DefBroken source.now fault
            (set_line_faults self.old.sets (pattern_names self.old.patterns)
            (map (text_at source.now) line.now.tokens))) }
    {
        args_line(alloc, &mut self.sets, self.patterns.names(), source, line)
    }

    /// Adds a set of a new name.
    pub fn push_set(&mut self, set: SetDef) -> Result<(), AllocError>
        requires { set_at self.old.sets set.name ≡ None }
        ensures { OnOk result (self.new ≡ record self.old { sets = self.old.sets ++ set ∷ [] }) }
    {
        self.sets.add(set)
    }

    /// Adds a format of a new name, whose fields lie in a word.
    pub fn push_format(&mut self, format: Format) -> Result<(), AllocError>
        requires new { format_at self.old.formats format.name ≡ None }
        requires fits { ValuesFit format.values }
        ensures { OnOk result (self.new ≡ record self.old { formats = self.old.formats ++ format ∷ [] }) }
    {
        self.formats.add(format)
    }

    /// How many groups are open.
    pub fn depth(&self) -> usize
        ensures { result ≡ length self.now.groups }
    {
        self.groups.depth()
    }

    /// The innermost open group.
    pub fn innermost(&self) -> Option<Opening>
        ensures { result ≡ innermost self.now.groups }
    {
        self.groups.innermost()
    }

    /// Opens a group.
    pub fn open_group(&mut self, alloc: Global, opening: Opening) -> Result<(), AllocError>
        ensures { OnOk result (self.new ≡ record self.old {
          groups = self.old.groups ++ opening ∷ [];
          marks = self.old.marks ++ opens opening.kind opening.file opening.line ∷ [];
        }) }
    {
        self.groups.open(alloc, opening)
    }

    /// Closes the innermost group, which is of this kind.
    pub fn close_group(&mut self, kind: Kind) -> Result<(), AllocError>
        requires { innermost_kind self.old.groups ≡ Some kind }
        ensures { OnOk result (self.new ≡ record self.old {
          groups = take (length self.old.groups - 1) self.old.groups;
          marks = self.old.marks ++ closes kind ∷ [];
        }) }
    {
        self.groups.close(kind)
    }

    /// Adds a pattern, as an entry of the innermost open group too. A number that doesn't fit in 32 bits finds no memory:
    /// so many patterns would fill it many times over.
    pub fn push_pattern(&mut self, pattern: Pattern) -> Result<(), AllocError>
        ensures { OnOk result (self.new ≡ record self.old {
          patterns = self.old.patterns ++ pattern ∷ [];
          marks = self.old.marks ++ pattern_mark (length self.old.patterns) ∷ [];
        }) }
    {
        let number = self.patterns.items().len();
        if number > u32::MAX as usize {
            return Err(AllocError);
        }
        self.patterns.push(pattern)?;
        self.groups.add(number as u32)
    }

    /// The sets, the formats, the patterns and the entries as lists of their own, where no group is open.
    pub fn into_parts(
        self,
        alloc: Global,
    ) -> Result<(Vec<SetDef>, Vec<Format>, Vec<Pattern>, Vec<Entry>), AllocError>
        requires { self.groups ≡ [] }
        ensures definitions { IfOk result (λ parts. (parts.0.items ≡ self.sets) × (parts.1.items ≡ self.formats)
            × (parts.2.items ≡ self.patterns)) }
        ensures entries { IfOk result (λ parts. spelled (items_of parts.3.items) ≡ self.marks) }
    {
        let (sets, formats) = definition_lists(alloc, self.sets, self.formats)?;
        Ok((
            sets,
            formats,
            self.patterns.into_items(),
            self.groups.into_entries(),
        ))
    }
}

// Sets and formats as lists of their own.
fn definition_lists(
    alloc: Global,
    sets: Sets,
    formats: Formats,
) -> Result<(Vec<SetDef>, Vec<Format>), AllocError>
    ensures { IfOk result (λ lists. (lists.0.items ≡ sets) × (lists.1.items ≡ formats)) }
{
    let sets = sets.into_items(alloc)?;
    let formats = formats.into_items(alloc)?;
    Ok((sets, formats))
}
