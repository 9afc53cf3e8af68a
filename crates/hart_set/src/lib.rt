//! Several harts over one memory, one second level and an image's boxes, whose words move as
//! harts switch: an accepted image, loaded and run event by event, in any order of the harts,
//! or a slot of a hart whole. Its type keeps that it stands for the definition of the image's
//! harts after some order of events. Of an image of one hart a guard may be off.
//!
//! And an image's harts for so many slots of each, where the hart whose event is next is that
//! of the least clock, or one that a seed draws. A hart has its next slot whole as soon as its
//! switch comes, and where a seed draws, later draws of it count the slot's events off: so the
//! switches come as they do event by event, and what is seen is what that order leads to.
#![tactic(auto)]

mod choice;
mod mail;
mod off;
mod run;
mod set;

pub use run::HartRun;
pub use set::HartSet;
