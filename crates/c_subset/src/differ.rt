//! Names that differ.

ghost use Rattle.std.specs.Prelude.{◌≡◌, ◌↔◌, IsTrue, IfOk, map};
ghost use Rattle.std.specs.List.{All};
ghost use Rattle.c_subset.specs.Distinct.{HasDistinctArguments, HasDistinctNames};
ghost use Rattle.c_subset.specs.Keeps.{AllDiffer};
ghost use Rattle.c_subset.specs.View.{program_of};

use crate::program::{Extract, Program};
use dt_values::{MOST_ARGUMENTS, Member, Name, SetDef};
use std::alloc::{AllocError, Global};
use std::collections::HashSet;

/// Whether no two of the program's argument sets have one name, no two patterns, no two formats, no two sets of the
/// union, and no two arguments of one set; and whether each set has at most `MOST_ARGUMENTS` arguments.
#[tactic(auto, using(crate::proofs::NamesApart::patterns_seen, crate::proofs::NamesApart::formats_seen))]
pub fn has_distinct_names(alloc: Global, program: &Program) -> Result<bool, AllocError>
    ensures { IfOk result (λ distinct. IsTrue distinct ↔ HasDistinctNames (program_of program.now)) }
{
    if !all_distinct(alloc, program.sets.items())? {
        return Ok(false);
    }
    if !sets_differ(alloc, program.sets.items())? {
        return Ok(false);
    }
    if !patterns_differ(alloc, program.patterns.items())? {
        return Ok(false);
    }
    if !formats_differ(alloc, program.extracts.items())? {
        return Ok(false);
    }
    all_differ(alloc, program.union_sets.items())
}

fn all_distinct(alloc: Global, sets: &[SetDef]) -> Result<bool, AllocError>
    ensures { IfOk result (λ distinct. IsTrue distinct ↔ All HasDistinctArguments sets.now) }
{
    for set in sets {
        if !has_distinct_arguments(alloc, set)? {
            return Ok(false);
        }
    }
    Ok(true)
}

// The number of arguments is looked at first: no set of names has more than that.
fn has_distinct_arguments(alloc: Global, set: &SetDef) -> Result<bool, AllocError>
    ensures { IfOk result (λ distinct. IsTrue distinct ↔ HasDistinctArguments set.now) }
{
    if set.members.items().len() > MOST_ARGUMENTS {
        return Ok(false);
    }
    all_differ(alloc, &argument_names(alloc, set.members.items())?)
}

fn sets_differ(alloc: Global, sets: &[SetDef]) -> Result<bool, AllocError>
    ensures { IfOk result (λ differ. IsTrue differ ↔ AllDiffer (map (λ s. s.name) sets.now)) }
{
    all_differ(alloc, &set_names(alloc, sets)?)
}

fn patterns_differ(alloc: Global, patterns: &[(Name, Name)]) -> Result<bool, AllocError>
    ensures { IfOk result (λ differ. IsTrue differ ↔ AllDiffer (map (λ p. p.0) patterns.now)) }
{
    all_differ(alloc, &pattern_names(alloc, patterns)?)
}

fn formats_differ(alloc: Global, extracts: &[Extract]) -> Result<bool, AllocError>
    ensures { IfOk result (λ differ. IsTrue differ ↔ AllDiffer (map (λ e. e.format) extracts.now)) }
{
    all_differ(alloc, &format_names(alloc, extracts)?)
}

fn argument_names(alloc: Global, members: &[Member]) -> Result<Vec<Name>, AllocError>
    ensures { IfOk result (λ names. names.items ≡ map (λ m. m.name) members.now) }
{
    members.iter().map(|member| member.name).collect(alloc)
}

fn set_names(alloc: Global, sets: &[SetDef]) -> Result<Vec<Name>, AllocError>
    ensures { IfOk result (λ names. names.items ≡ map (λ s. s.name) sets.now) }
{
    sets.iter().map(|set| set.name).collect(alloc)
}

fn pattern_names(alloc: Global, patterns: &[(Name, Name)]) -> Result<Vec<Name>, AllocError>
    ensures { IfOk result (λ names. names.items ≡ map (λ p. p.0) patterns.now) }
{
    patterns.iter().map(|pattern| pattern.0).collect(alloc)
}

fn format_names(alloc: Global, extracts: &[Extract]) -> Result<Vec<Name>, AllocError>
    ensures { IfOk result (λ names. names.items ≡ map (λ e. e.format) extracts.now) }
{
    extracts.iter().map(|extract| extract.format).collect(alloc)
}

// Whether no name stands twice, by a set of them.
fn all_differ(alloc: Global, names: &[Name]) -> Result<bool, AllocError>
    ensures { IfOk result (λ differ. IsTrue differ ↔ AllDiffer names.now) }
{
    let set: HashSet<Name> = names.iter().copied().collect(alloc)?;
    Ok(set.len() == names.len())
}
