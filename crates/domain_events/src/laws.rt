//! Laws over the definitions, each the contract of a function that does nothing: a caller
//! that calls it may rely on the law.
ghost use Rattle.domain_events.specs.Laws.{EventsLaw, AloneEventsLaw, TwoRunEventsLaw, PastLaw, NowLaw, SameEventsLaw};
ghost use Rattle.domain_events.specs.Laws.{CyclesLaw, FillsLaw, OwnSlotsLaw, PriceLaw, WholePriceLaw, TotalLaw};
ghost use Rattle.domain_events.specs.Laws.{SeenLaw, RetiredLaw, WholeRetiredLaw};

/// The events of a domain, each with its time and with what it counted, are those of the
/// domain alone, whatever the order of the harts' events and whatever the other domains are:
/// so between two slots, in others', and as far as its own has come. Where nothing comes to
/// its hart's domains, that goes by the number of the hart's own events.
pub fn isolation()
    ensures mailed { EventsLaw }
    ensures alone { AloneEventsLaw }
    ensures two_runs { TwoRunEventsLaw }
    ensures past { PastLaw }
    ensures now { NowLaw }
    ensures same_events { SameEventsLaw }
{}

/// The slots in which a domain has events are its own, all of them, in their order. In each
/// an event begins where the one before it ends, and before the slot's end; and their cycles
/// add up to the slot's, whose last event may pass its end.
pub fn times()
    ensures cycles { CyclesLaw }
    ensures fill { FillsLaw }
    ensures slots { OwnSlotsLaw }
{}

/// An instruction takes `base` and the price of what it counts, a delivery the price alone;
/// a jump goes to its clock, and counts nothing. What is counted event by event is what all
/// touches count one after the other.
pub fn prices()
    ensures alone { PriceLaw }
    ensures each { WholePriceLaw }
    ensures total { TotalLaw }
{}

/// What happened is told as it was before the event: which thread ran, and where, which
/// moment was due, or that none could run.
pub fn happenings()
    ensures seen { SeenLaw }
{}

/// A domain has as many instructions as its view says retired, with its kernel calls, which
/// retire nothing, and the one that stopped it.
pub fn instructions()
    ensures alone { RetiredLaw }
    ensures whole { WholeRetiredLaw }
{}
