//! Widths, names, C types, lists, bits of words and values of arguments: what every layer speaks of.
#![tactic(auto)]

pub mod bits;
pub mod ctype;
pub mod items;
pub mod name;
pub mod set;
pub mod stored;
pub mod values;
pub mod width;

pub use bits::{deposit, extract, sextract};
pub use ctype::{CType, Member};
pub use items::Items;
pub use name::Name;
pub use set::{MOST_ARGUMENTS, MemberList, SetDef};
pub use stored::store;
pub use values::Values;
pub use width::Width;
