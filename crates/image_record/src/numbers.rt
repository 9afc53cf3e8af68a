// Numbers of an image, which may be of any size.
ghost use Rattle.std.specs.Prelude.{◌≡◌};
ghost use Rattle.image_record.specs.Numbers as spec;

/// A number that isn't negative.
pub fn natural_of(number: i64) -> u64
    requires natural { spec.IsNatural number }
    ensures value { result ≡ spec.natural_of number }
{
    number as u64
}

/// Whether a number stands in a list.
pub fn names(numbers: &[i64], number: i64) -> bool
    ensures value { result ≡ spec.names numbers.now number }
{
    for other in numbers {
        if *other == number {
            return true;
        }
    }
    false
}
