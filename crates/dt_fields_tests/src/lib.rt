//! Tests of dt_fields.
#![tactic(auto)]

#[cfg(test)]
mod tests;
