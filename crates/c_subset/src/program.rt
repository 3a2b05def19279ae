//! Programs of the C subset.

use crate::load::LoadBlock;
use c_exprs::Expr;
use dt_values::{Items, Name, SetDef, Width};

/// Argument sets in order.
pub type SetList = Items<SetDef>;

/// Names in order.
pub type NameList = Items<Name>;

/// Patterns in order, each by its name and the name of its argument set.
pub type PatternList = Items<(Name, Name)>;

/// Assignments in order: each argument with the expression that it gets.
pub type AssignList = Items<(Name, Expr)>;

/// The extraction of a format: a function that fills an argument set, by assignments in this order.
#[derive(Drop)]
pub struct Extract {
    pub format: Name,
    pub set: Name,
    pub assigns: AssignList,
}

/// Extractions in order.
pub type ExtractList = Items<Extract>;

/// A statement of the decoder.
#[derive(Drop)]
pub enum Stmt {
    /// `if ((insn & MASK) == VALUE) { .. }`, with the mask and then the value.
    If(u64, u64, Vec<Stmt>),
    /// `switch (insn & MASK) { .. }`, with the mask and then the cases: each value with the statements of its block.
    Switch(u64, Vec<(u64, Vec<Stmt>)>),
    /// `F_extract_FORMAT(ctx, &u.f_SET, insn);`, with F the decoder's name.
    Extract { format: Name, set: Name },
    /// `u.f_SET.ARG = VALUE;`.
    Assign { set: Name, arg: Name, value: Expr },
    /// `if (P_PATTERN(ctx, &u.f_SET)) return true;`, with P the prefix.
    Call { pattern: Name, set: Name },
}

/// Statements in order.
pub type Body = Items<Stmt>;

/// A program of the C subset. The rules that it keeps are `KeepsRules` of specs/Keeps.antt; the type itself allows
/// more.
#[derive(Drop)]
pub struct Program {
    /// The width of an instruction word.
    pub width: Width,
    /// The argument sets, in order of definition.
    pub sets: SetList,
    /// What stands before each pattern's name in its prototype, and whether the prototypes are static. It is there
    /// exactly where a pattern is.
    pub prefix: Option<(Name, bool)>,
    /// The patterns that have a prototype, each with its argument set.
    pub patterns: PatternList,
    /// The extractions, in order of definition.
    pub extracts: ExtractList,
    /// The decoder's name.
    pub decoder: Name,
    /// Whether the decoder is static.
    pub decoder_static: bool,
    /// The sets in the decoder's union. None of them where there is no pattern.
    pub union_sets: NameList,
    /// The decoder's statements.
    pub body: Body,
    /// The load function's block, where there is a load function. It is static where the decoder is.
    pub load: Option<LoadBlock>,
}
