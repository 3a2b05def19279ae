//! Tests of c_exprs.
#![tactic(auto)]

#[cfg(test)]
mod tests;
