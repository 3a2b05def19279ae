//! What programs of the C subset do: at a word, and on the bytes that their load function reads. It takes no memory.
//!
//! Functions call themselves as deep as statements, load blocks and expressions nest. A deposit stands in another for
//! each further segment of a field, so a text that nests deposits very deep takes stack in proportion to that depth.
#![tactic(auto)]

pub mod declared;
pub mod expr;
pub mod inputs;
pub mod laws;
pub mod live;
pub mod load;
pub mod run;
pub mod run_laws;
mod steps;
pub mod turn;

pub use load::{Bytes, run_load};
pub use run::{Ran, run_decode};
pub use turn::Ended;
