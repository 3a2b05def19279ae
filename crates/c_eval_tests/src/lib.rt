//! Tests of c_eval.
#![tactic(auto)]

#[cfg(test)]
mod tests;
