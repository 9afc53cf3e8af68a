//! Laws of shared caches over their definitions, each the contract of a function
//! that does nothing: a caller that calls it may rely on the law.
ghost use Rattle.mem_system.specs.SharingLaws.{AppendLaw, BesideLaw, OthersLaw, OwnDirtyLaw, StaysResidentLaw};
ghost use Rattle.mem_system.specs.SharingLaws.{EmptyLaw, SharedAloneLaw, PrefetchAloneLaw, PlacesStayLaw, ColdIsCleanLaw, StaysCleanLaw};
ghost use Rattle.mem_system.specs.SharingLaws.{PrefetchLaw, PrefetchStaysLaw, SettledLaw, ResidentLaw, RegionLaw, WorstLaw, SwitchLaw, OnTimeLaw};

/// Touches one after the other are a touch of all of them in order.
pub fn in_order()
    ensures append { AppendLaw }
{}

/// What a domain touches costs the same among others as alone, and leaves equal
/// caches; another's touches leave its sets, since a dirty line lies in its own
/// domain's sets, and so does what gives way to it there; neither moves a shared
/// line out. The prefetch writes dirty lines of who leaves back before the flush
/// would: after it that makes no difference.
pub fn own_touches()
    ensures beside { BesideLaw }
    ensures others { OthersLaw }
    ensures own_dirty { OwnDirtyLaw }
    ensures stays { StaysResidentLaw }
    ensures prefetch { PrefetchLaw }
    ensures prefetch_stays { PrefetchStaysLaw }
    ensures settled { SettledLaw }
{}

/// The first prefetch brings every shared line into the second level, under any
/// policy, since a way is there for each.
pub fn residency()
    ensures resident { ResidentLaw }
    ensures region { RegionLaw }
{}

/// The sets of colour 0, the kernel's, keep shared lines alone, whatever domains
/// touch: at first they keep nothing. Once all shared lines are there, each stays in
/// its way.
pub fn kernel_sets()
    ensures empty { EmptyLaw }
    ensures touches { SharedAloneLaw }
    ensures prefetch { PrefetchAloneLaw }
    ensures places { PlacesStayLaw }
{}

/// No line of colour 0 is ever dirty, so the kernel's shared lines cost the same
/// whatever the domains wrote.
pub fn clean_kernel()
    ensures cold { ColdIsCleanLaw }
    ensures touches { StaysCleanLaw }
{}

/// No caches make touches dearer than their worst, and a switch that begins
/// late by less than the largest step is done by the bound.
pub fn worst()
    ensures touches { WorstLaw }
    ensures switch { SwitchLaw }
    ensures on_time { OnTimeLaw }
{}
