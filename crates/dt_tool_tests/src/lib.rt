//! Tests of dt_tool over folders and sinks in memory, and of its C texts against the trial of their patterns. Cases of the
//! whole program stand in examples/cases.
#![tactic(auto)]

#[cfg(test)]
mod eval_trials;
#[cfg(test)]
mod failures;
#[cfg(test)]
mod messages;
#[cfg(test)]
mod runs;
