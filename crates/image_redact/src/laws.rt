// What holds of the record that a tenant may hold.
ghost use Rattle.image_redact.specs.Laws.{KeptLaw, NameLaw, ApartLaw, AcceptedLaw, RangesLaw, AgainLaw};
ghost use Rattle.image_redact.specs.Laws.{EmptiedLaw, SecretLaw, AlikeLaw, SeenAloneLaw, SeenLaw, SeenTogetherLaw};

/// The domains are kept from which a chain of boxes leads to the tenant's own, and no others.
pub fn kept()
    ensures kept { KeptLaw }
{}

/// The others are called by their numbers, by no kept domain's name, and no two of them the
/// same.
pub fn named()
    ensures named { NameLaw }
    ensures apart { ApartLaw }
{}

/// The record breaks no rule where the one that it was made of breaks none, and stays in
/// the ranges of the keys.
pub fn accepted()
    ensures accepted { AcceptedLaw }
    ensures ranges { RangesLaw }
{}

/// All domains may know the same of both records, and each kept domain has the same of its
/// own in both.
pub fn alike()
    ensures alike { AlikeLaw }
{}

/// What is seen of the domain is the same: alone; among the others, where no box leads to it,
/// in whatever order the harts have their events; and on one hart, whatever boxes do.
pub fn seen()
    ensures alone { SeenAloneLaw }
    ensures among { SeenLaw }
    ensures together { SeenTogetherLaw }
{}

/// Made of itself, it is itself.
pub fn again()
    ensures again { AgainLaw }
{}

/// Every other domain is emptied, so records that differ in what such domains have make
/// the same record.
pub fn secret()
    ensures emptied { EmptiedLaw }
    ensures secret { SecretLaw }
{}
