// How a capability is written.
ghost use Rattle.domain_check.specs.Laws.{CapTextLaw};

/// The text of a slot names a capability exactly where it is how that one is
/// written.
pub fn cap_text()
    ensures cap_text { CapTextLaw }
{}
