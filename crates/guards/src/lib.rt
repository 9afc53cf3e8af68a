//! What keeps the domains of a machine apart in time: six guards, by their names.
#![tactic(auto)]

/// A guard.
#[derive(Clone, Copy, Debug, PartialEq, Eq)]
pub enum Guard {
    /// A switch makes all that is on the core fresh.
    Flush,
    /// A switch loads the lines that all domains share.
    Prefetch,
    /// A switch waits for the next slot's start.
    Pad,
    /// The second level is shared out by colours.
    Colour,
    /// Each domain has a kernel clone of its own.
    Clone,
    /// A moment comes in its domain's own slots.
    Irq,
}

impl Guard {
    ghost use Rattle.std.specs.Prelude.{◌≡◌};
    ghost use Rattle.guards.specs.Names.{name_of, named};

    /// Its name.
    pub fn name(self) -> &'static str
        ensures name { result.now ≡ name_of self }
    {
        match self {
            Guard::Flush => "flush",
            Guard::Prefetch => "prefetch",
            Guard::Pad => "pad",
            Guard::Colour => "colour",
            Guard::Clone => "clone",
            Guard::Irq => "irq",
        }
    }

    /// The guard of a name, if it is one's.
    pub fn named(name: &str) -> Option<Guard>
        ensures guard { result ≡ named name.now }
    {
        Some(match name {
            "flush" => Guard::Flush,
            "prefetch" => Guard::Prefetch,
            "pad" => Guard::Pad,
            "colour" => Guard::Colour,
            "clone" => Guard::Clone,
            "irq" => Guard::Irq,
            _ => return None,
        })
    }
}
