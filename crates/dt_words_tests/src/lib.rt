//! Tests of dt_words.
#![tactic(auto)]

#[cfg(test)]
mod commands;
#[cfg(test)]
mod faulty;
#[cfg(test)]
mod scripts;
#[cfg(test)]
mod words;
