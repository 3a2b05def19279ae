//! Expressions of the C subset.

use dt_values::Name;

/// Where bits come from.
#[derive(Clone, Copy)]
pub enum Input {
    /// The word, `insn`.
    Insn,
    /// An argument: `a->ARG` in an extraction, which names no set, and `u.f_SET.ARG` in the decoder.
    Arg(Option<Name>, Name),
}

/// An expression. N is 64 where a word has 64 bits, and else 32. Which expressions stand in which is `HasForm` of
/// specs/Forms.antt; the type itself allows more.
pub enum Expr {
    /// A decimal number.
    Constant(i64),
    /// `extractN(FROM, POS, LENGTH)`, or `sextractN(..)` where it is signed: so many bits of FROM, from POS up.
    Segment {
        signed: bool,
        from: Input,
        pos: u32,
        length: u32,
    },
    /// `depositN(INTO, POS, LENGTH, PART)`: INTO with so many bits from POS up replaced by the lowest of PART.
    Deposit(Box<Expr>, u32, u32, Box<Expr>),
    /// `(intN_t)` before an expression: its bits as a signed number.
    Cast(Box<Expr>),
    /// `NAME(ctx, ARGUMENT)`, or `NAME(ctx)`: what a function answers.
    Function(Name, Option<Box<Expr>>),
}

// Deposits nest in their first part without limit, so a loop lets go of them.
impl Drop for Expr {
    fn drop(mut self) {
        loop {
            match self {
                Expr::Constant(_) => return,
                Expr::Segment {
                    signed: _,
                    from: _,
                    pos: _,
                    length: _,
                } => return,
                Expr::Deposit(into, _, _, _) => self = Box::into_inner(into),
                Expr::Cast(value) => self = Box::into_inner(value),
                Expr::Function(_, None) => return,
                Expr::Function(_, Some(argument)) => self = Box::into_inner(argument),
            }
        }
    }
}
