//! The events of a domain, each with its time and with what it counted: among others
//! they are those of the domain alone. Laws alone.
#![tactic(auto)]

pub mod laws;
