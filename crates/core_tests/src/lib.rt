//! The tests of what the machine is built of: instructions, page walks, memory,
//! schedules, interrupts, mailboxes, footprints, costs, bounds, and what reads and
//! writes, through their public calls.
#![tactic(auto)]

#[cfg(test)]
mod bounds;
#[cfg(test)]
mod costs;
#[cfg(test)]
mod footprints;
#[cfg(test)]
mod instruction_words;
#[cfg(test)]
mod instructions;
#[cfg(test)]
mod interrupts;
#[cfg(test)]
mod mailboxes;
#[cfg(test)]
mod page_walks;
#[cfg(test)]
mod physical_memory;
#[cfg(test)]
mod schedules;
#[cfg(test)]
mod schedules_of_harts;
#[cfg(test)]
mod sources_and_sinks;
#[cfg(test)]
mod std_streams;
#[cfg(test)]
mod zeroing;
