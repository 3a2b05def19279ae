//! Tests of c_tokens.
#![tactic(auto)]

#[cfg(test)]
mod tests;
