//! Tests of c_writer.
#![tactic(auto)]

#[cfg(test)]
mod tests;
