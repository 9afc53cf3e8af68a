//! An image's harts slot by slot: their switches come in the order of the least clock, and
//! what each hart has, and what each switch took, is as it is event by event. Laws alone.
#![tactic(auto)]

pub mod laws;
