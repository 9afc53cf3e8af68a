//! The top call: words and an image in, a text and a status out.
#![tactic(auto)]

mod alone;
mod call;
mod generate;
mod reported;
mod run;

pub use call::{answer_bytes, tp_main};
pub use tp_answer::Status;
