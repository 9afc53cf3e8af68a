//! The law of what is read, the contract of a function that does nothing: a caller that
//! calls it may rely on the law.
ghost use Rattle.image_reading.specs.Laws.{ReadingLaw};

/// Every image of the form that is read may be run, and its numbers are within the limits.
pub fn reading()
    ensures accepted { ReadingLaw }
{}
