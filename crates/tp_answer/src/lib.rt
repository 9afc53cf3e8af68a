//! What the words have coming, how the program ends, and the answers of commands that run nothing.
#![tactic(auto)]

mod accept;
mod bounds;
mod generate;
mod redact;
mod status;

pub use accept::{accepted, answer_bound, answer_check, domains_of, refuse, status_unless_failed};
pub use generate::{generated_image, write_generated};
pub use redact::answer_redact;
pub use status::Status;
