//! What holds of every image that bytes are, over the definitions: a caller that
//! calls a function of this module may rely on its law.
ghost use Rattle.image_text.specs.Record.{RangesLaw, FirstVersionLaw};
ghost use Rattle.image_text.specs.Numbers.{NumbersLaw};

/// Numbers and lists of a record are in the ranges of the key table's rows.
pub fn ranges()
    ensures ranges { RangesLaw }
{}

/// In the first version no domain says which calls it may make.
pub fn first_version()
    ensures calls { FirstVersionLaw }
{}

/// Each number of a record is the integer that stands at its key in the table
/// that TOML finds in the bytes, and a truth value is the one that stands there.
pub fn numbers()
    ensures numbers { NumbersLaw }
{}
