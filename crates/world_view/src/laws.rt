//! Laws of the machine over its definitions, each the contract of a function
//! that does nothing: a caller that calls it may rely on the law.
ghost use Rattle.world_view.specs.EventLaws.{StepTouchesLaw, OwnTouchesLaw, SlotTouchesLaw, StepCostLaw, PlainCostLaw, SlotCostLaw, SlotStepLaw};
ghost use Rattle.world_view.specs.HartLaws.{HartMailLaw, ArrivalsLaw, HartIsolationLaw, TwoOrdersLaw, HartPadLaw, HartLargestLaw, HartCountLaw, OtherHartsLaw, NextLaw, HartBetweenLaw, HartBegunLaw, HartStartLaw, HartRiseLaw, HartSlotsLaw, HartStaysLaw, OneHartLaw, EventsLaw, SameEventsLaw};
ghost use Rattle.world_view.specs.Interrupts.{DueLaw, PromptLaw, FewLaw, AscendLaw, OwnSlotsLaw, TurnLaw, WakeLaw};
ghost use Rattle.world_view.specs.MailLaws.{WaitsLaw, KeptLaw, ArrivesLaw, NothingElseLaw, SendersLaw, OneWayLaw};
ghost use Rattle.world_view.specs.Laws.{TwoRunLaw, WholeLaw, InTimeLaw, ClockLaw, OpeningPageLaw, OpeningRightsLaw, OpeningNoPageLaw, OpeningFramesLaw, OpeningZeroLaw, OpeningElsewhereLaw, PoolsApartLaw, KernelColourLaw, PoolPartsLaw, FactsLaw, ReachLaw, NoAccessFaultLaw, RightsLaw, PermittedLaw, KernelLaw, PartiesLaw, PartiesSwapLaw, PartyFramesLaw, OthersStepLaw, OthersLeaveLaw, OthersEnterLaw, PrefetchLaw, FlushLaw, OthersEventLaw, OtherHartLaw, OwnHartLaw, OwnStepLaw, SwitchWorkLaw, BootWorkLaw, SwitchOutLaw, SwitchInLaw, SwitchBothLaw, SwitchPastLaw, ResidencyLaw, ForGoodLaw, EmptyLaw, AfterSwitchLaw, SwitchAloneLaw, AloneLaw, SettledLaw, SwitchCleanLaw, CleanLaw, SlotDirtyLaw};

/// Whatever the order of the harts' events: where a domain's hart has not begun its next
/// slot, what is seen of the domain is what is seen of it alone, by the entries of that
/// hart, whatever the other domains are. So two orders after which the hart has had as
/// many slots show the same, of one image or of two that agree for the domain.
pub fn isolation()
    ensures mailed { HartMailLaw }
    ensures arrivals { ArrivalsLaw }
    ensures isolated { HartIsolationLaw }
    ensures two_orders { TwoOrdersLaw }
    ensures two_runs { TwoRunLaw }
{}

/// No switch of any hart overruns its pad, and each of its slots begins at exactly its
/// start. The limits of an image and of a run keep every clock far from the end of its
/// range.
pub fn pads()
    ensures used { HartPadLaw }
    ensures largest { HartLargestLaw }
    ensures start { HartStartLaw }
    ensures in_time { InTimeLaw }
    ensures fit { ClockLaw }
{}

/// The page tables that the machine opens with are those of the domains'
/// segments: a walk comes to the page that a segment has at its address, where
/// the segment's rights let the access through, and is a page fault otherwise;
/// and each page of a domain has a frame of its own. All other frames read zero.
pub fn opening()
    ensures page { OpeningPageLaw }
    ensures rights { OpeningRightsLaw }
    ensures no_page { OpeningNoPageLaw }
    ensures frames { OpeningFramesLaw }
    ensures zero { OpeningZeroLaw }
    ensures elsewhere { OpeningElsewhereLaw }
{}

/// Memory is shared out by colours: each frame is of one domain's pool at most,
/// none of the kernel's colour is of any, and what stands in a pool at first is
/// known by its place.
pub fn pools()
    ensures apart { PoolsApartLaw }
    ensures kernel { KernelColourLaw }
    ensures parts { PoolPartsLaw }
{}

/// The facts of each domain's frames, capabilities and page tables hold after every
/// order of the harts' events, whoever runs, and so each domain's page tables reach its
/// own frames alone: so much holds of the one memory in which all tables stand.
/// So no walk of theirs is an access fault. No leaf has wider rights than the
/// capability through which its page is mapped: what a walk lets through, the rights
/// of a capability let through, but on pages that stay for good.
pub fn reach()
    ensures facts { FactsLaw }
    ensures own { ReachLaw }
    ensures no_access_fault { NoAccessFaultLaw }
    ensures rights { RightsLaw }
    ensures permitted { PermittedLaw }
{}

/// What the kernel has of each domain is as it should be: whose frames are
/// claimed for good, and where its kernel clone lies. What is claimed for good,
/// the frames of the clone, the root, the first tables and the pages that no
/// capability names, is so after every order of events: they are the domain's own,
/// no capability names them, and none is free.
pub fn kernels()
    ensures kernel { KernelLaw }
    ensures for_good { ForGoodLaw }
{}

/// All that an event does to the caches are its touches, and each is of a line of
/// the domain's own, or a load of a line that all share: so in each slot of each hart.
pub fn touches()
    ensures all { StepTouchesLaw }
    ensures own { OwnTouchesLaw }
    ensures in_slots { SlotTouchesLaw }
{}

/// What an event costs at most, whatever the caches hold: an instruction the
/// bound's part for one, and with its kernel call that and the part for an
/// operation; a delivery the part for an operation; a jump ends with the slot. So in
/// each slot of each hart.
pub fn costs()
    ensures step { StepCostLaw }
    ensures plain { PlainCostLaw }
    ensures in_slots { SlotCostLaw }
{}

/// Each domain of an image is a party: the kernel has of it what it should. Any
/// two of them have no colour in common, and so no frame, whichever is named first.
pub fn parties()
    ensures each { KernelLaw }
    ensures two { PartiesLaw }
    ensures swap { PartiesSwapLaw }
    ensures frames { PartyFramesLaw }
{}

/// An event of another party leaves a party's memory and its part of the caches as
/// they were, and each phase of a switch that part; so an event of a slot leaves each
/// domain whose slot it isn't, on its hart or on another. Where it is the party itself that leaves, its dirty lines are
/// written back, by the prefetch or by the flush: after both it makes no difference
/// by which.
pub fn others_events()
    ensures step { OthersStepLaw }
    ensures leave { OthersLeaveLaw }
    ensures enter { OthersEnterLaw }
    ensures prefetch { PrefetchLaw }
    ensures flush { FlushLaw }
    ensures settled { SettledLaw }
    ensures event { OthersEventLaw }
{}

/// An event on one hart leaves every other hart as it was: its on-core state, its
/// clock, and when its last slot ended. Of its own hart it changes on-core state and
/// clock alone. So it leaves each domain of another hart: its own state, its frames,
/// its part of the second level, and how far that hart is.
pub fn harts()
    ensures other { OtherHartLaw }
    ensures own { OwnHartLaw }
    ensures others { OtherHartsLaw }
{}

/// The harts of an image, for every order of their events. In a slot a hart's event is
/// the next step of the domain whose slot it is. No entry has more switches than its
/// hart. A hart that isn't in a slot has not begun its next one. Each event of a hart adds
/// a cycle or more to its clock and a slot at most, and leaves the others as far as they
/// were; so how far a hart is, and what is seen of its domains, goes by the number of its
/// own events. Where there is one hart, its entries are all, and the machine that goes
/// from slot to slot is this one.
pub fn orders()
    ensures next { NextLaw }
    ensures step { SlotStepLaw }
    ensures counted { HartCountLaw }
    ensures between { HartBetweenLaw }
    ensures begun { HartBegunLaw }
    ensures rises { HartRiseLaw }
    ensures slots { HartSlotsLaw }
    ensures stays { HartStaysLaw }
    ensures events { EventsLaw }
    ensures same_events { SameEventsLaw }
    ensures one { OneHartLaw }
    ensures whole { WholeLaw }
{}

/// Boxes, for every order of the harts' events. What waits in a box is what its sender
/// had put in as a slot of it ended, the last one with which something went off; and what
/// went off waits, until a slot of the receiver begins. That begins with what goes off in
/// the same event, else with what waited: so it comes once. In no other event anything
/// comes to a domain. On one hart what is seen of a domain goes by those alone from whom
/// a chain of boxes leads to it; so nothing comes back to a sender.
pub fn boxes()
    ensures waits { WaitsLaw }
    ensures kept { KeptLaw }
    ensures arrives { ArrivesLaw }
    ensures nothing_else { NothingElseLaw }
    ensures senders { SendersLaw }
    ensures one_way { OneWayLaw }
{}

/// A domain's own step does the same among others and alone, at equal cost.
pub fn own_step()
    ensures step { OwnStepLaw }
{}

/// A switch is its parts, one after the other: a domain leaves, shared lines are
/// prefetched, on-core state is flushed, the next domain enters; at the boot nobody
/// leaves. What a hart's switch does out of a domain, into it, from it to itself, and
/// between others, after every order of events.
pub fn switches()
    ensures work { SwitchWorkLaw }
    ensures boot { BootWorkLaw }
    ensures out { SwitchOutLaw }
    ensures into { SwitchInLaw }
    ensures both { SwitchBothLaw }
    ensures past { SwitchPastLaw }
{}

/// What the domains share stays where every domain finds it, from the first switch of
/// any hart on.
pub fn residency()
    ensures resident { ResidencyLaw }
{}

/// The second level's sets of colour 0, the kernel's, keep lines that all share
/// alone, after every order of events and in the midst of each switch; before the first
/// event no set keeps a line.
pub fn kernel_sets()
    ensures empty { EmptyLaw }
    ensures after_switch { AfterSwitchLaw }
    ensures in_switches { SwitchAloneLaw }
    ensures alone { AloneLaw }
{}

/// No line of colour 0 is ever dirty, so the kernel's shared lines cost the same
/// whatever the domains wrote. A domain's dirty lines lie in its own sets, so what
/// gives way to them there costs no one else.
pub fn dirty_lines()
    ensures in_switches { SwitchCleanLaw }
    ensures clean { CleanLaw }
    ensures own { SlotDirtyLaw }
{}

/// Each moment of a domain is delivered once, in the moments' order, in a slot of
/// that domain, never before its cycle, and as soon as it is due there.
pub fn interrupts()
    ensures due { DueLaw }
    ensures prompt { PromptLaw }
    ensures few { FewLaw }
    ensures ascend { AscendLaw }
    ensures own_slots { OwnSlotsLaw }
{}

/// The current thread is ready wherever one is, and a thread that waits is woken by
/// its own line alone.
pub fn threads()
    ensures turn { TurnLaw }
    ensures wakes { WakeLaw }
{}
