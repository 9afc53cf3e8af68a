//! Laws over the definitions, each the contract of a function that does nothing: a caller
//! that calls it may rely on the law.
ghost use Rattle.mail_orders.specs.Laws.{DueLaw, TurnsLaw, BootsLaw, SameTurnsLaw, OwnHartLaw, ApartLaw, NothingBackLaw};

/// Between two slots a hart's clock is past the end of the last one by less than the longest
/// event of that slot's domain. So by the least clock, whatever runs, of two switches after
/// slots whose ends lie apart by so much the one after the earlier comes first; and boots
/// come before both.
pub fn turns()
    ensures due { DueLaw }
    ensures turns { TurnsLaw }
    ensures boots { BootsLaw }
{}

/// What is seen of a domain goes by those alone from whom a chain of boxes leads to it: in
/// any two orders in which the two harts of each box of the chain take the same turns. So it
/// is in any orders, where all of them are on the domain's hart; and by the least clock,
/// where the ends of both harts' slots lie apart by the longest event. So nothing comes back
/// to a sender.
pub fn senders()
    ensures same_turns { SameTurnsLaw }
    ensures own_hart { OwnHartLaw }
    ensures apart { ApartLaw }
    ensures nothing_back { NothingBackLaw }
{}
