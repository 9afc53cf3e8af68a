//! Laws of the orders in which harts have their events, each the contract of a function
//! that does nothing: a caller that calls it may rely on the law.
ghost use Rattle.hart_orders.specs.Laws.{EachChosenLaw, HasLeftLaw, SomebodyLaw, LeastLaw, HartsLaw, ThroughLaw, ChoiceMailLaw, ChoiceLaw, ChoicePadLaw, ChoiceLargestLaw, OneHartLaw};

/// Each event is of the hart that is chosen then: one that has slots left, while there
/// is one; by clocks, none of the others has a lower clock, nor the same and a lower
/// number.
pub fn order()
    ensures each { EachChosenLaw }
    ensures has_left { HasLeftLaw }
    ensures somebody { SomebodyLaw }
    ensures least { LeastLaw }
{}

/// The order ends where each hart has had all of its slots.
pub fn ends()
    ensures harts { HartsLaw }
    ensures through { ThroughLaw }
{}

/// Whatever the choice, what is seen of each domain then is what is seen of it alone, by
/// the entries of its hart and with what came to it in boxes; and no switch overran its
/// pad. Of one hart the machine then is the one that goes from slot to slot.
pub fn sections()
    ensures mailed { ChoiceMailLaw }
    ensures isolated { ChoiceLaw }
    ensures used { ChoicePadLaw }
    ensures largest { ChoiceLargestLaw }
    ensures one { OneHartLaw }
{}
