//! What is kept where a guard is off, as laws over the definitions.
ghost use Rattle.tp_machine.specs.GuardLaws.{OthersOnLaw, SamePartsLaw, UncolouredLaw, UnflushedLaw, OneCloneLaw};

/// One guard off changes nothing of what the others give: neither costs nor a part of
/// the machine but, without colours, how many sets the second level has. Without the
/// flush a switch leaves the first-level caches, the predictor with its history and
/// targets, and the second level as they were. Without clones one works for all.
pub fn guards_off()
    ensures others { OthersOnLaw }
    ensures parts { SamePartsLaw }
    ensures uncoloured { UncolouredLaw }
    ensures unflushed { UnflushedLaw }
    ensures one_clone { OneCloneLaw }
{}
