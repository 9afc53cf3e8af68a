//! The tests of an image's harts through their public calls: what is seen of a
//! domain is the same, in whatever order the harts take their events.
#![tactic(auto)]

#[cfg(test)]
mod generated;
#[cfg(test)]
mod images;
#[cfg(test)]
mod orders;
#[cfg(test)]
mod worked;
