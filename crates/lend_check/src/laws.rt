//! Laws of the definitions.
ghost use Rattle.lend_check.specs.Laws.{AcceptedLaw, CauseLaw, OrderLaw, ChildLaw, DistinctLaw, CountLaw, LimitLaw, EachLaw, EntryLaw};

/// The rule lets through exactly the images of which each lent colour is a colour of
/// the memory, nobody's own, lent once and of seven frames; each entry that is set
/// aside is for a colour that its domain lends; and parties are few enough.
pub fn accepted()
    ensures accepted { AcceptedLaw }
{}

/// It refuses an image exactly for the first broken case: of lent colours in their
/// order, then of entries in theirs, and then of how many parties there are.
pub fn causes()
    ensures cause { CauseLaw }
{}

/// Lent colours come domains upwards and in the order of their lists, and the child of
/// one has the number of domains and the colour's place. No two parties have one
/// number; the numbers are those below how many there are, which is within the limit;
/// and the party whose an entry is has one.
pub fn parties()
    ensures order { OrderLaw }
    ensures child { ChildLaw }
    ensures distinct { DistinctLaw }
    ensures count { CountLaw }
    ensures limit { LimitLaw }
    ensures each { EachLaw }
    ensures entry { EntryLaw }
{}
