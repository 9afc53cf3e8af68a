//! Laws over the definitions, each the contract of a function that does nothing: a caller
//! that calls it may rely on the law.
ghost use Rattle.hart_machine.specs.Laws.{OneSlotLaw, RanLaw, ThroughLaw, SlotBySlotLaw, SlotsLaw, SwitchOrderLaw, CountedOffLaw, DrawnBySlotsLaw, PartsLaw, AnyOrderPartsLaw, DrawnPartsLaw, KernelPlacesLaw, HartsCommuteLaw, HartsPassLaw};

/// Events of a hart alone that end its next slot are its switch and the slot's own.
pub fn one_slot()
    ensures one_slot { OneSlotLaw }
{}

/// By the least clock, slot by slot: the report is that of the run event by event, and the
/// switches come by their clocks, and then by their harts' numbers.
pub fn slots()
    ensures ran { RanLaw }
    ensures through { ThroughLaw }
    ensures same { SlotBySlotLaw }
    ensures slots { SlotsLaw }
    ensures order { SwitchOrderLaw }
{}

/// In any other order of events, too, slots may be run whole and their events counted off:
/// so in the order that a seed draws.
pub fn any_order()
    ensures counted { CountedOffLaw }
    ensures drawn { DrawnBySlotsLaw }
{}

/// What all of this says of each part of the machine, at every moment; of the kernel's
/// sets, which line stands in which way.
pub fn parts()
    ensures slots { PartsLaw }
    ensures any_order { AnyOrderPartsLaw }
    ensures drawn { DrawnPartsLaw }
    ensures places { KernelPlacesLaw }
{}

/// Two events of different harts may change places, where one of them is no switch.
pub fn commuting()
    ensures commute { HartsCommuteLaw }
    ensures pass { HartsPassLaw }
{}
