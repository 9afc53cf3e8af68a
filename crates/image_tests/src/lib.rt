//! The tests of reading, checking and making images: through the public calls of
//! `image_text`, `image_check` and `image_gen`.
#![tactic(auto)]

#[cfg(test)]
mod checking;
#[cfg(test)]
mod equal;
#[cfg(test)]
mod generating;
#[cfg(test)]
mod lending;
#[cfg(test)]
mod reading;
