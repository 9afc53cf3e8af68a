//! Boxes between harts: in the order of the least clock the schedule alone tells which of two
//! harts' switches comes first, where the ends of their slots lie apart. Laws alone.
#![tactic(auto)]

pub mod laws;
