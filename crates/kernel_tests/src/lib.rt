//! The tests of the kernel's parts: kernel calls and deliveries, capabilities,
//! frames, page tables and threads, through their public calls.
#![tactic(auto)]

#[cfg(test)]
mod calls;
#[cfg(test)]
mod capabilities;
#[cfg(test)]
mod frames;
#[cfg(test)]
mod mailboxes;
#[cfg(test)]
mod outcomes;
#[cfg(test)]
mod page_tables;
#[cfg(test)]
mod permissions;
#[cfg(test)]
mod refusals;
#[cfg(test)]
mod threads;
