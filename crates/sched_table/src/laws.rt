//! Laws of the starts of slots, and of the entries of a hart.
ghost use Rattle.sched_table.specs.Laws.{RoundLaw, OrderLaw, PadLaw, SoonLaw, HartLaw, OneHartLaw, PlacedLaw, DomainHartLaw, HartThereLaw};

/// Slots begin in their order, round after round: as many slots later as there
/// are entries, one whole round later; each its pad after the one before ended.
pub fn starts()
    ensures round { RoundLaw }
    ensures order { OrderLaw }
    ensures pad { PadLaw }
    ensures soon { SoonLaw }
{}

/// The entries of a hart are on it, each at its place among all; where all are on
/// hart 0, these are all. The hart of a domain is that of each entry that names it.
pub fn harts()
    ensures own { HartLaw }
    ensures one { OneHartLaw }
    ensures placed { PlacedLaw }
    ensures domain { DomainHartLaw }
    ensures there { HartThereLaw }
{}
