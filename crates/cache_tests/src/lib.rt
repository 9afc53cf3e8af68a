//! The tests of the caches, their replacement policies, the translation buffer and
//! the branch predictor, through their public calls.
#![tactic(auto)]

#[cfg(test)]
mod branch_predictor;
#[cfg(test)]
mod cache_sets;
#[cfg(test)]
mod first_level;
#[cfg(test)]
mod replacement;
#[cfg(test)]
mod second_level;
#[cfg(test)]
mod translation_buffer;
