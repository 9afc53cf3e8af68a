//! The tests of the step, through its public call.
#![tactic(auto)]

#[cfg(test)]
mod steps;
