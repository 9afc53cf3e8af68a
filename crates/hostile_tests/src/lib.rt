//! The tests of hostile use: reads and writes that fail, images that are cut, numbers that are too
//! great, and programs that reach for pages that aren't theirs.
#![tactic(auto)]

#[cfg(test)]
mod answers;
#[cfg(test)]
mod cuts;
#[cfg(test)]
mod faults;
#[cfg(test)]
mod numbers;
#[cfg(test)]
mod trespass;
