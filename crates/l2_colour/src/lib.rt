//! The second-level cache, whose sets have the colours of the frames that use them.
#![tactic(auto)]

ghost use Rattle.std.specs.Prelude.{◌≡◌, ◌%◌};
ghost use Rattle.l2_colour.specs.Colours.{IsColoured, colour_of_set, colour_of_line};

mod cache;

pub use cache::L2;

/// The law that the set of a line has the colour of the line's frame.
pub fn lines_keep_to_their_colour(line_size: u32, sets: u32, line: u32)
    requires coloured { IsColoured line_size sets }
    ensures colour { colour_of_set line_size (line % sets) ≡ colour_of_line line_size sets line }
{
    let _ = (line_size, sets, line);
}
