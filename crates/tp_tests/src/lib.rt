//! The tests of the whole program: its words, its exit codes, and runs from
//! bytes to bytes.
#![tactic(auto)]

#[cfg(test)]
mod runs;
#[cfg(test)]
mod statuses;
#[cfg(test)]
mod words;
