//! Tests of dt_match.
#![tactic(auto)]

#[cfg(test)]
mod echo;
#[cfg(test)]
mod fields;
#[cfg(test)]
mod models;
#[cfg(test)]
mod trials;
