// What the rules give whoever runs an image.
ghost use Rattle.image_check.specs.Laws.{AcceptanceLaw, ButPadsLaw, PadsLaw, NamedLaw, ShapeLaw};
ghost use Rattle.image_check.specs.Laws.{ExtensionsLaw, HartsLaw, OneHartLaw, RunnableLaw};

/// The list of the rules that an image breaks is empty exactly where no rule has
/// a broken case.
pub fn acceptance()
    ensures acceptance { AcceptanceLaw }
{}

/// So is the list without the rule of pads. The other is the same, or has the
/// item of this rule besides.
pub fn all_but_pads()
    ensures acceptance { ButPadsLaw }
    ensures besides { PadsLaw }
{}

/// Each entry of an image that breaks no other rule than that of pads is of one
/// of its domains.
pub fn named()
    ensures named { NamedLaw }
{}

/// The bound of an image that breaks no other rule is of a machine whose
/// numbers are in their ranges, whichever calls the domain that leaves may make.
pub fn shape()
    ensures shape { ShapeLaw }
{}

/// The products and the target buffer of an image that breaks no other rule than
/// that of pads are those that it says, with costs of 1 to 1,000 cycles and a
/// power of two of places up to 256.
pub fn extensions()
    ensures extensions { ExtensionsLaw }
{}

/// The entries of an image that breaks no other rule than that of pads are on harts,
/// of which there are four at most: each hart has one, and each domain is on one hart.
pub fn harts()
    ensures harts { HartsLaw }
{}

/// Where all entries of an image are on hart 0, its entries are all of them, each
/// with its place.
pub fn one_hart()
    ensures one { OneHartLaw }
{}

/// An image in the ranges of its keys that breaks no rule is runnable.
pub fn runnable()
    ensures runnable { RunnableLaw }
{}
