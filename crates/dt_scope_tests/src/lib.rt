//! Tests of dt_scope.
#![tactic(auto)]

#[cfg(test)]
mod tests;
