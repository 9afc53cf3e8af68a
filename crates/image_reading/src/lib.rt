//! The image that bytes are, where they break no rule.
#![tactic(auto)]

pub mod laws;
