//! Tests of c_subset.
#![tactic(auto)]

#[cfg(test)]
mod declarations;
#[cfg(test)]
mod loads;
#[cfg(test)]
mod names;
#[cfg(test)]
mod programs;
#[cfg(test)]
mod reading;
#[cfg(test)]
mod shown;
#[cfg(test)]
mod sites;
#[cfg(test)]
mod statements;
