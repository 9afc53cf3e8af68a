// All frames of a memory, and how their colours are shared out.
ghost use Rattle.std.specs.Prelude.{◌≡◌, ◌^◌, ◌<◌, ◌≤◌, map, IfOk};
ghost use Rattle.frame_colours.specs.Colours.{whole_of, share_of, colours_in, AreDisjoint, AreApart};

use crate::share::{ColourShare, Part};
use std::alloc::Global;
use std::marker::Model;
use tp_base::Memory;

/// All frames of a memory. It must be split.
pub struct AllColours {
    frames: u32,
    colours: u32,
}

impl Model for AllColours {
    ghost use Rattle.std.specs.Prelude.{◌^◌, ◌<◌, ◌≤◌};
    ghost use Rattle.frame_colours.specs.Colours.{Whole};

    ghost Value = { Whole };

    ghost view = { λ a. record { frames = a.frames; colours = a.colours } };

    ghost invariant = { λ a. (0 < a.colours) × (a.colours ≤ 64) × (a.frames ≤ 2 ^ 15) };
}

impl AllColours {
    /// The frames 0 to `frames - 1`, at most 32,768 (2^15), of which each has
    /// the colour of its number modulo `colours`, 1 to 64.
    pub fn new(frames: u32, colours: u32) -> Self
        requires frames { frames ≤ 2 ^ 15 }
        requires some { 0 < colours }
        requires few { colours ≤ 64 }
        ensures whole { result ≡ whole_of frames colours }
    {
        AllColours { frames, colours }
    }

    /// A share for each list of colours, in their order. No colour may stand in
    /// two lists, and 0 in none.
    ///
    /// # Errors
    /// `Memory` where no memory is left for them; no share is left then.
    pub fn split(self, alloc: Global, lists: &[Vec<u8>]) -> Result<Vec<ColourShare>, Memory>
        requires disjoint { AreDisjoint self.colours (colours_in lists.now) }
        ensures shares { IfOk result (λ shares.
            shares.items ≡ map (share_of self) (colours_in lists.now)) }
        ensures apart { IfOk result (λ shares. AreApart shares.items) }
    {
        let AllColours { frames, colours } = self;
        let parts = parts_of(alloc, frames, colours, lists)?;
        let mut shares = Vec::with_capacity(alloc, parts.len())?;
        for part in parts {
            shares.push_reserved(ColourShare { part });
        }
        Ok(shares)
    }
}

// A share can't be let go where memory runs out, so what they say comes first.
fn parts_of(
    alloc: Global,
    frames: u32,
    colours: u32,
    lists: &[Vec<u8>],
) -> Result<Vec<Part>, Memory>
    requires frames { frames ≤ 2 ^ 15 }
    requires some { 0 < colours }
    requires few { colours ≤ 64 }
    ensures parts { IfOk result (λ parts. parts.items
        ≡ map (share_of (whole_of frames colours)) (colours_in lists.now)) }
{
    let mut parts = Vec::with_capacity(alloc, lists.len())?;
    for list in lists {
        let own = Vec::from_slice(alloc, list)?;
        parts.push_reserved(Part {
            frames,
            colours,
            own,
        });
    }
    Ok(parts)
}
