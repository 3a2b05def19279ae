//! Tests of dt_host.
#![tactic(auto)]

#[cfg(test)]
mod scripts;
