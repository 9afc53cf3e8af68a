// How many harts an image has.
ghost use Rattle.std.specs.Prelude.{◌≡◌, nat_eq};
ghost use Rattle.sched_table.specs.Schedule.{harts_in};
ghost use Rattle.image_check.specs.Image.{image_from};

use image_check::Checked;

/// Whether all entries of an image are on one hart.
pub fn has_one_hart(image: &Checked) -> bool
    ensures value { result ≡ nat_eq (harts_in (image_from image.now).all.schedule) 1 }
{
    image.public().harts.len() == 1
}
