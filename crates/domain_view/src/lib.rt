//! What is seen of a domain: its state, and the words of its pool's frames, lent.
#![tactic(auto)]

mod view;

pub use view::View;
