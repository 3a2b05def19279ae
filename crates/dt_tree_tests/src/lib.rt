//! Tests of dt_tree.
#![tactic(auto)]

#[cfg(test)]
mod tests;
