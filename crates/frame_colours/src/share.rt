// A share of the colours, and its frames.
ghost use Rattle.std.specs.Prelude.{◌≡◌, ◌<◌, ◌≤◌, ◌-◌, ℕ, false, length, slice_index_or, IfOk, reverse};
ghost use Rattle.std.specs.Vec.{vec_capacity};
ghost use Rattle.frame_colours.specs.Colours.{colour_of, has, has_colour, pool, share_of, whole_of};

use std::alloc::Global;
use std::marker::Model;
use tp_base::{FrameNo, Memory};

// Whether the colour of a frame is one of a list.
fn is_coloured(colours: u32, own: &[u8], frame: u32) -> bool
    requires some { 0 < colours }
    requires few { colours ≤ 64 }
    ensures value { result ≡ has own.now (colour_of colours frame) }
{
    own.contains(&((frame % colours) as u8))
}

// The colour of the frame below one with this colour.
fn colour_below(colour: u32, colours: u32) -> u32
    requires colour { colour < colours }
    ensures value { (frame : ℕ) → 0 < frame → colour_of colours frame ≡ colour
        → colour_of colours (frame - 1) ≡ result }
    ensures below { result < colours }
{
    if colour == 0 { colours - 1 } else { colour - 1 }
}

// Of each colour that there may be, whether a list has it.
fn named(own: &[u8]) -> [bool; 64]
    ensures named { (colour : ℕ) → colour < 64 → slice_index_or result colour false ≡ has own.now colour }
{
    let mut named = [false; 64];
    for colour in 0..64 {
        named[usize::from(colour)] = own.contains(&colour);
    }
    named
}

/// How many of the frames 0 to `frames - 1` have a colour of the list, where
/// each has the colour of its number modulo `colours`, 1 to 64.
pub fn pool_length(frames: u32, colours: u32, own: &[u8]) -> u32
    requires some { 0 < colours }
    requires few { colours ≤ 64 }
    ensures value { result ≡ length (pool (share_of (whole_of frames colours) own.now)) }
{
    // As many in each round of all colours, and those of the last frames.
    let rounds = frames / colours;
    rounds * count_each(colours, colours, own) + count_each(frames % colours, colours, own)
}

// The same, frame by frame.
fn count_each(frames: u32, colours: u32, own: &[u8]) -> u32
    requires some { 0 < colours }
    requires few { colours ≤ 64 }
    ensures value { result ≡ length (pool (share_of (whole_of frames colours) own.now)) }
{
    let mut count = 0;
    let mut frame = 0;
    while frame < frames {
        if is_coloured(colours, own, frame) {
            count += 1;
        }
        frame += 1;
    }
    count
}

// What a share says. It may be let go, which a share itself may not.
#[derive(Drop)]
pub(crate) struct Part {
    // The number of all frames, and of all colours.
    pub(crate) frames: u32,
    pub(crate) colours: u32,
    // The colours that it has.
    pub(crate) own: Vec<u8>,
}

impl Model for Part {
    ghost use Rattle.std.specs.Prelude.{◌^◌, ◌<◌, ◌≤◌};
    ghost use Rattle.frame_colours.specs.Colours.{Share};

    ghost Value = { Share };

    ghost view = { λ p. record { frames = p.frames; colours = p.colours; own = p.own.items } };

    ghost invariant = { λ p. (0 < p.colours) × (p.colours ≤ 64) × (p.frames ≤ 2 ^ 15) };
}

impl Part {
    // Its frames, the greatest first.
    pub(crate) fn descending(&self, alloc: Global) -> Result<Vec<FrameNo>, Memory>
        ensures frames { IfOk result (λ frames. reverse frames.items ≡ pool self.now) }
        ensures room { IfOk result (λ frames. length (pool self.now) ≤ vec_capacity frames) }
    {
        let mut frames = Vec::with_capacity(
            alloc,
            pool_length(self.frames, self.colours, &self.own) as usize,
        )?;
        let named = named(&self.own);
        let mut frame = self.frames;
        let mut colour = self.frames % self.colours;
        while frame > 0 {
            frame -= 1;
            colour = colour_below(colour, self.colours);
            if named[colour as usize] {
                frames.push_reserved(FrameNo::new(frame));
            }
        }
        Ok(frames)
    }
}

/// Some colours of a memory, to make a pool of. It must be spent, by
/// `Pool::new` or `discard`.
pub struct ColourShare {
    pub(crate) part: Part,
}

impl Model for ColourShare {
    ghost use Rattle.frame_colours.specs.Colours.{Share};

    ghost Value = { Share };

    ghost view = { λ s. s.part };
}

impl ColourShare {
    /// Spends it on nothing.
    pub fn discard(self) {
        let ColourShare { part: _ } = self;
    }
}
