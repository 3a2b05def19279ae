//! The C subset: programs, the texts that spell them, and their reader.
#![tactic(auto)]

mod declarations;
pub mod differ;
mod extracts;
pub mod fault;
mod joined;
pub mod laws;
mod lines;
pub mod load;
pub mod loads;
mod patterns;
pub mod program;
pub mod read;
mod sets;
pub mod sites;
pub mod stmts;
mod switches;

pub use c_exprs::{Expr, Input};
pub use fault::CFault;
pub use load::LoadBlock;
pub use program::{
    AssignList, Body, Extract, ExtractList, NameList, PatternList, Program, SetList, Stmt,
};
pub use read::read_c;
pub use sites::call_sites;
