//! What a run is handed of a program, and what is declared.

ghost use Rattle.std.specs.Prelude.{◌≡◌, All, IfSome, map, option_map};
ghost use Rattle.std.specs.Option.{option_copied};
ghost use Rattle.c_eval.specs.Conditions.{ArgumentsKeep, SetRuns};
ghost use Rattle.c_eval.specs.Lists.{is_pattern_in, members_at};
ghost use Rattle.c_eval.specs.Runs.{assigns_in, declared_members, is_pattern_declared};
ghost use Rattle.c_subset.specs.View.{assignment_of, extraction_of, pattern_of, program_of};

use c_exprs::Expr;
use c_subset::{Extract, Program};
use dt_values::{Member, Name, SetDef};

/// A program, the sets that are declared outside of its text, and a word.
#[derive(Clone, Copy)]
pub struct Setting<'a> {
    pub program: &'a Program,
    pub outside: &'a [SetDef],
    pub word: u64,
    pub ghost inside_keep: { All SetRuns program.now.sets },
    pub ghost outside_keep: { All SetRuns outside.now },
}

impl<'a> Setting<'a> {
    /// The arguments of a set, where it is declared.
    #[tactic(auto, using(crate::proofs::LiveTurns::members_first, crate::proofs::LiveTurns::members_after))]
    pub fn members(&self, set: Name) -> Option<&'a [Member]>
        ensures members { option_copied result
            ≡ declared_members (program_of self.now.program.now) self.now.outside.now set }
        ensures keep { IfSome result (λ members. ArgumentsKeep members.now) }
    {
        match members_in(self.program.sets.items(), set) {
            Some(members) => Some(members),
            None => members_in(self.outside, set),
        }
    }

    /// What the extraction of this format assigns for this set, where there is one.
    pub fn assigns(&self, format: Name, set: Name) -> Option<&'a [(Name, Expr)]>
        ensures { option_map (map assignment_of) (option_copied result)
            ≡ assigns_in (program_of self.now.program.now).extracts format set }
    {
        assigns_in(self.program.extracts.items(), format, set)
    }

    /// Whether a pattern is declared with this set.
    pub fn is_pattern(&self, name: Name, set: Name) -> bool
        ensures { result ≡ is_pattern_declared (program_of self.now.program.now) name set }
    {
        is_pattern(self.program.patterns.items(), name, set)
    }
}

// The arguments of the set of this name.
fn members_in<'a>(sets: &'a [SetDef], name: Name) -> Option<&'a [Member]>
    requires { All SetRuns sets.now }
    ensures members { option_copied result ≡ members_at sets.now name }
    ensures keep { IfSome result (λ members. ArgumentsKeep members.now) }
{
    for set in sets {
        if name == set.name {
            return Some(set.members.items());
        }
    }
    None
}

// The assignments of the extraction of this format and set.
fn assigns_in<'a>(extracts: &'a [Extract], format: Name, set: Name) -> Option<&'a [(Name, Expr)]>
    ensures { option_map (map assignment_of) (option_copied result)
        ≡ assigns_in (map extraction_of extracts.now) format set }
{
    for extract in extracts {
        if format == extract.format && set == extract.set {
            return Some(extract.assigns.items());
        }
    }
    None
}

// Whether a pattern of this name has this set.
fn is_pattern(patterns: &[(Name, Name)], name: Name, set: Name) -> bool
    ensures { result ≡ is_pattern_in (map pattern_of patterns.now) name set }
{
    for (pattern, of) in patterns {
        if name == *pattern && set == *of {
            return true;
        }
    }
    false
}
