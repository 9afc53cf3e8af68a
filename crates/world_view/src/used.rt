// What is seen of switches.

/// The most cycles that a switch of an entry took, 0 where there was none, and
/// how many there were.
#[derive(Clone, Copy, Debug, PartialEq, Eq)]
pub struct Used {
    pub largest: u64,
    pub count: u32,
}
