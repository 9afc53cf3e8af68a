//! Laws of what touches are counted as over its definition, each the contract of a
//! function that does nothing: a caller that calls it may rely on the law.
ghost use Rattle.mem_system.specs.TallyLaws.{PriceLaw, PriceOfAllLaw, PriceOfNoneLaw, PriceOfSumLaw};
ghost use Rattle.mem_system.specs.TallyLaws.{TallyAppendLaw, TallyOfOneLaw};
ghost use Rattle.mem_system.specs.TallyLaws.{CountsLaw, CensusLaw, BacksLaw, TallyBesideLaw};

/// What touches cost is the price of what they count, and nothing is missing or
/// counted twice.
pub fn prices()
    ensures touch { PriceLaw }
    ensures touches { PriceOfAllLaw }
    ensures none { PriceOfNoneLaw }
    ensures sum { PriceOfSumLaw }
{}

/// Touches one after the other count the sum of what they count.
pub fn sums()
    ensures append { TallyAppendLaw }
    ensures one { TallyOfOneLaw }
{}

/// What each touch counts, by where its line or page is: it is answered once, and a
/// dirty line that gives way to it is counted at the level that gives it up.
pub fn cases()
    ensures counts { CountsLaw }
{}

/// Each touch of a list is counted once, and no dirty line is given up twice.
pub fn census()
    ensures each { CensusLaw }
    ensures backs { BacksLaw }
{}

/// What a domain touches counts the same among others as alone.
pub fn own_tallies()
    ensures beside { TallyBesideLaw }
{}
