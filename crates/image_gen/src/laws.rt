// What holds of every generated image.
ghost use Rattle.image_gen.specs.Laws.{AcceptedLaw, OneHartLaw, DecodedLaw};

/// The image of a seed breaks no rule, so it is accepted.
pub fn accepted()
    ensures accepted { AcceptedLaw }
{}

/// It has one hart.
pub fn one_hart()
    ensures one { OneHartLaw }
{}

/// The words of a domain's program are those of the instructions that were
/// chosen for it.
pub fn decoded()
    ensures decoded { DecodedLaw }
{}
