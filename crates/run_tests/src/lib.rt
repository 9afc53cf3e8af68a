//! The tests of whole runs: what programs, their calls, interrupts and neighbours come to in a
//! report.
#![tactic(auto)]

#[cfg(test)]
mod answers;
#[cfg(test)]
mod calls;
#[cfg(test)]
mod extensions;
#[cfg(test)]
mod harts;
#[cfg(test)]
mod images;
#[cfg(test)]
mod interrupts;
#[cfg(test)]
mod large;
#[cfg(test)]
mod machines;
#[cfg(test)]
mod mail;
#[cfg(test)]
mod timed;
#[cfg(test)]
mod unprotected;
#[cfg(test)]
mod versions;
#[cfg(test)]
mod write_back;
