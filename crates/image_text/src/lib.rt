//! The record that an image's text gives, or the refusal by the two rules that
//! speak of the text: that it is TOML, and that its keys are those of the key
//! table.
#![tactic(auto)]

mod items;
mod key_table;
mod kinds;
pub mod laws;
mod lookup;
mod reading;
mod rows;
mod unknown;
mod values;

pub use reading::read_image;
