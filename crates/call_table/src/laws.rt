//! Laws of kernel calls over their definitions, each the contract of a function
//! that does nothing: a caller that calls it may rely on the law.
ghost use Rattle.call_table.specs.Laws.{CallsKeepLaw, RefusalLaw, LeftOutLaw, ConfinedLaw, PageTablesLaw, StoreLaw, MapLaw, DeleteLaw, RevokeLaw, AllocLaw, NoWiderLaw, CopiesLaw, PoolLaw};
ghost use Rattle.call_table.specs.ThreadLaws.{CallTurnLaw, DeliveryTurnLaw, CallWakesLaw, DeliveryWakesLaw};
ghost use Rattle.call_table.specs.ThreadLaws.{SignalWakesLaw, SignalSetsLaw, DeliveryCountLaw, CallCountLaw};
ghost use Rattle.call_table.specs.Meanings.{ExitLaw, EndThreadLaw, SpawnLaw, NoThreadLaw, YieldLaw, PutLaw, OutputFullLaw};
ghost use Rattle.call_table.specs.Meanings.{PollSetLaw, PollClearLaw, WaitSetLaw, WaitClearLaw, SignalLaw, TableLaw, UnmapLaw, DeletedTableLaw, DeletedLineLaw, MemoryLaw};
ghost use Rattle.call_table.specs.Errors.{AscendLaw, FirstErrorLaw, NoErrorLaw};
ghost use Rattle.call_table.specs.Rights.{NothingMappedLaw, CallsWithinLaw, StoresWithinLaw, WalksWithinLaw};
ghost use Rattle.call_table.specs.Entries.{AllocatedSlotLaw, MappedSlotLaw, CopiedPageLaw, CopiedLineLaw, DeletedSlotLaw, FreedLaw, RevokedSlotsLaw, EntriesLaw};
ghost use Rattle.call_table.specs.MailLaws.{OnMemoryLaw, OnBoxesLaw, StorageKeptLaw, PairsStayLaw, TurnedDownLaw, UnmadeLaw, WithinOwnLaw};
ghost use Rattle.call_table.specs.MailLaws.{StorageEmptiesLaw, StorageWalksLaw, AllowedWorkLaw, SendMeansLaw, ReceiveMeansLaw};
ghost use Rattle.call_table.specs.Laws.{EmptiesLaw, WalksStayLaw, OperationLaw, WorkLaw, PermittedLaw};

/// Every call keeps the facts of a domain's frames and page tables.
pub fn calls_keep()
    ensures kept { CallsKeepLaw }
{}

/// A call that is refused gives its code, and changes and does nothing else; one
/// that the domain may not make is a bad call.
pub fn refusals()
    ensures refused { RefusalLaw }
    ensures left_out { LeftOutLaw }
{}

/// A call reads and changes the domain's own frames alone.
pub fn calls_are_confined()
    ensures confined { ConfinedLaw }
{}

/// What the facts mean for page tables, and that stores into pages keep them.
pub fn page_tables()
    ensures tables { PageTablesLaw }
    ensures stores { StoreLaw }
{}

/// What calls mean for the program.
pub fn meaning()
    ensures map { MapLaw }
    ensures delete { DeleteLaw }
    ensures revoke { RevokeLaw }
    ensures alloc { AllocLaw }
    ensures no_wider { NoWiderLaw }
    ensures copies { CopiesLaw }
    ensures pool { PoolLaw }
{}

/// Which calls empty the translation buffer, and that every other call keeps
/// each walk that comes to a leaf, so a leaf that is kept stays right.
pub fn buffer()
    ensures empties { EmptiesLaw }
    ensures stays { WalksStayLaw }
{}

/// What a call tells of its work: its operation, and no more frames and entries
/// than the bound on a switch allows for; it is of a call that the domain may make,
/// or of a bad one.
pub fn work()
    ensures operation { OperationLaw }
    ensures bounded { WorkLaw }
    ensures permitted { PermittedLaw }
{}

/// Whose turn it is after a call or a delivery, and who wakes a thread that waits.
pub fn threads()
    ensures call_turn { CallTurnLaw }
    ensures delivery_turn { DeliveryTurnLaw }
    ensures call_wakes { CallWakesLaw }
    ensures delivery_wakes { DeliveryWakesLaw }
{}

/// What a signal of a line does, and which events deliver a moment.
pub fn interrupts()
    ensures wakes { SignalWakesLaw }
    ensures sets { SignalSetsLaw }
    ensures delivery_counts { DeliveryCountLaw }
    ensures call_counts { CallCountLaw }
{}

/// What EXIT, SPAWN, YIELD and ENDTHREAD mean for the threads of a domain.
pub fn thread_calls()
    ensures exit { ExitLaw }
    ensures spawn { SpawnLaw }
    ensures no_thread { NoThreadLaw }
    ensures yields { YieldLaw }
    ensures end_thread { EndThreadLaw }
{}

/// What POLL, WAIT and SIGNAL mean for the line that a slot names.
pub fn line_calls()
    ensures poll_set { PollSetLaw }
    ensures poll_clear { PollClearLaw }
    ensures wait_set { WaitSetLaw }
    ensures wait_clear { WaitClearLaw }
    ensures signal { SignalLaw }
{}

/// What PUT means for what is printed.
pub fn output()
    ensures put { PutLaw }
    ensures full { OutputFullLaw }
{}

/// What TABLE, UNMAP and DELETE of a table mean for page tables, and that the calls of
/// threads, lines and output leave memory, as DELETE of a line does.
pub fn memory_calls()
    ensures table { TableLaw }
    ensures unmap { UnmapLaw }
    ensures deleted_table { DeletedTableLaw }
    ensures deleted_line { DeletedLineLaw }
    ensures others { MemoryLaw }
{}

/// Errors are tested in the order of their codes: each call has a list of
/// errors that ascends, is refused by the first that is so, and done where none
/// is.
pub fn errors()
    ensures ascend { AscendLaw }
    ensures first { FirstErrorLaw }
    ensures none { NoErrorLaw }
{}

/// No leaf's rights are wider than those of the capability through which its page
/// is mapped: calls and stores keep that, and so no access does more than a
/// capability permits, but on pages that stay for good.
pub fn rights()
    ensures at_first { NothingMappedLaw }
    ensures calls { CallsWithinLaw }
    ensures stores { StoresWithinLaw }
    ensures walks { WalksWithinLaw }
{}

/// Which slots each call that is done sets, which frame it frees, and which entries of
/// page tables it writes, in their order.
pub fn changes()
    ensures allocated { AllocatedSlotLaw }
    ensures mapped { MappedSlotLaw }
    ensures copied_page { CopiedPageLaw }
    ensures copied_line { CopiedLineLaw }
    ensures deleted { DeletedSlotLaw }
    ensures freed { FreedLaw }
    ensures revoked { RevokedSlotsLaw }
    ensures entries { EntriesLaw }
{}

/// A call on mailboxes leaves memory, and each other call leaves the boxes. Whichever it
/// is, a refusal changes nothing but the reply; and it reads and changes the domain's own
/// frames and its own side of the boxes alone.
pub fn all_calls()
    ensures on_memory { OnMemoryLaw }
    ensures on_boxes { OnBoxesLaw }
    ensures kept { StorageKeptLaw }
    ensures pairs { PairsStayLaw }
    ensures refused { TurnedDownLaw }
    ensures left_out { UnmadeLaw }
    ensures confined { WithinOwnLaw }
    ensures empties { StorageEmptiesLaw }
    ensures walks { StorageWalksLaw }
    ensures work { AllowedWorkLaw }
{}

/// What SEND and RECV mean, by what is in the box.
pub fn mail_calls()
    ensures send { SendMeansLaw }
    ensures receive { ReceiveMeansLaw }
{}
