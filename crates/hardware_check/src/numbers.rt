// Sizes, which are powers of two.
ghost use Rattle.std.specs.Prelude.{◌≡◌};
ghost use Rattle.std.specs.Int.{is_power_of_two as spec_is_power_of_two};
ghost use Rattle.image_record.specs.Numbers.{IsNatural, natural_of as spec_natural_of};
ghost use Rattle.hardware_check.specs.Hardware as spec;

use image_record::cases::outside;
use image_record::natural_of;

pub fn is_power_of_two(number: i64) -> bool
    requires natural { IsNatural number }
    ensures value { result ≡ spec_is_power_of_two (spec_natural_of number) }
{
    natural_of(number).is_power_of_two()
}

/// Whether a number is a power of two from `low` to `high`.
#[tactic(auto, using(image_record::proofs::Ranges::natural_inside))]
pub fn is_size(low: u32, high: u32, number: i64) -> bool
    ensures value { result ≡ spec.is_size low high number }
{
    if outside(i64::from(low), i64::from(high), number) {
        return false;
    }
    is_power_of_two(number)
}
