//! Mailboxes that an image declares, each one way, from a domain to another. Words that
//! a domain puts into a box wait from the end of its slot on, and come in as a slot of
//! the receiver begins; those that it didn't take by then are replaced. Nothing of the
//! receiver comes back.
//!
//! specs/Boxes.antt has what calls and switches make of the boxes, specs/Sides.antt what
//! one domain has of them; `laws` tells what that means.
#![tactic(auto)]

pub mod laws;
mod mail;
mod one_box;
mod refusal;
mod slot;

pub use mail::Mail;
pub use refusal::MailRefusal;
