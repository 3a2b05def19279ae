//! Tests of dt_forms.
#![tactic(auto)]

#[cfg(test)]
mod arguments;
#[cfg(test)]
mod formats;
#[cfg(test)]
mod groups;
#[cfg(test)]
mod models;
#[cfg(test)]
mod reading;
