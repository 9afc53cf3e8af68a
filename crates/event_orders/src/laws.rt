//! Laws over the definitions, each the contract of a function that does nothing: a caller
//! that calls it may rely on the law.
ghost use Rattle.event_orders.specs.Theorems.{CommuteTheorem, PassTheorem, OneSlotTheorem, EndsTheorem, SlotsTheorem, SortedTheorem, AnyOrderTheorem, DrawnTheorem, ExampleTheorem};

/// Two events of different harts may change places, where one of them is no switch.
pub fn commuting()
    ensures commute { CommuteTheorem }
    ensures pass { PassTheorem }
{}

/// Events of a hart alone that end its next slot are its switch and the slot's own.
pub fn one_slot()
    ensures one_slot { OneSlotTheorem }
{}

/// By the least clock harts come to their end, and slot by slot to the same one, by the
/// same switches in the same order: by clock, then by number.
pub fn least_clock()
    ensures ends { EndsTheorem }
    ensures slots { SlotsTheorem }
    ensures sorted { SortedTheorem }
{}

/// In any other order, too, a slot may be run whole when its switch comes, and its events
/// counted off.
pub fn any_order()
    ensures counted { AnyOrderTheorem }
    ensures drawn { DrawnTheorem }
{}

/// There are such machines.
pub fn example()
    ensures two { ExampleTheorem }
{}
