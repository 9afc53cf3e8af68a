// What the rule of lent colours looks at of an image, as its text says it.

/// What an image says of a domain.
#[derive(Drop)]
pub struct LendingDomain {
    /// The colours of its frames.
    pub colours: Vec<i64>,
    /// The colours that it lends.
    pub lend: Vec<i64>,
}

/// An entry of the schedule.
#[derive(Clone, Copy, Debug, PartialEq, Eq)]
pub struct LendingEntry {
    /// The domain's number, from 0.
    pub domain: i64,
    /// The colour of the domain's child whose entry it is; None where it is the
    /// domain's own.
    pub lend: Option<i64>,
}

/// What an image says of its domains and its schedule.
#[derive(Drop)]
pub struct Lending {
    /// Of the format, 1 or 2.
    pub version: u8,
    pub domains: Vec<LendingDomain>,
    pub schedule: Vec<LendingEntry>,
}
