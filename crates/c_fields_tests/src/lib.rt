//! Tests of c_fields.
#![tactic(auto)]

#[cfg(test)]
mod tests;
