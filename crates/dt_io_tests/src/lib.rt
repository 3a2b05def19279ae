//! Tests of dt_io.
#![tactic(auto)]

#[cfg(test)]
mod tests;
