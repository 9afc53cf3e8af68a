//! What the rules of the machine give.
ghost use Rattle.hardware_check.specs.Laws.{HardwareLaw};

/// The machine of an image that breaks none of its rules can be built.
pub fn hardware()
    ensures hardware { HardwareLaw }
{}
