//! Tests of dt_values.
#![tactic(auto)]

#[cfg(test)]
mod tests;
