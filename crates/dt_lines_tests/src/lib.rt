//! Tests of dt_lines.
#![tactic(auto)]

#[cfg(test)]
mod tests;
