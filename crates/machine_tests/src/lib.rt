//! The tests of the whole machine and of the domain alone, through their public
//! calls; and the images that these and the tests of the step run.
#![tactic(auto)]

#[cfg(test)]
mod domain_alone;
pub mod images;
#[cfg(test)]
mod seen;
#[cfg(test)]
mod whole_machine;
