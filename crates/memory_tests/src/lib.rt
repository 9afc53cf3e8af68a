//! The tests of the memory system and of the domain switch, through their public
//! calls.
#![tactic(auto)]

#[cfg(test)]
mod domain_switches;
#[cfg(test)]
mod hierarchies;
#[cfg(test)]
mod memory_system;
