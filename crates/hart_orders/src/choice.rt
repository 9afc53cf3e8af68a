// Who chooses whose event is next.

/// How the hart whose event is next is chosen, of those that have slots left.
#[derive(Clone, Copy, Debug, PartialEq, Eq)]
pub enum Choice {
    /// It is the one with the least clock; of such, with the least number.
    LeastClock,
    /// A word that this seed draws for each event, modulo how many there are, is its
    /// place among them.
    Drawn(u32),
}
