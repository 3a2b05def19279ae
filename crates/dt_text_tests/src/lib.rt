//! Tests of dt_text.
#![tactic(auto)]

#[cfg(test)]
mod tests;
