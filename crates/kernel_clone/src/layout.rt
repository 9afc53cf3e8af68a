// The lines of a layout: of a frame, of the text's two frames, of the shared region.
//
// A line's size is a power of two, and so is the number of lines in a frame; but
// which one is known only when the program runs, and a division by such a number
// costs several times a shift or a mask. So here are shifts and masks alone.
ghost use Rattle.std.specs.Prelude.{◌≡◌, ◌*◌, ◌%◌, ◌^◌, ◌<◌, ◌≤◌};
ghost use Rattle.kernel_clone.specs.Footprints.{IsLayout, lines_in_frame, line_of, text_line, shared_lines, shared_line};
ghost use Rattle.kernel_clone.specs.Models.{layout_model};

use crate::CloneLayout;
use tp_base::{FrameNo, Line};

// A frame's size is 2 to this power.
const FRAME_BITS: u32 = 12;

impl CloneLayout {
    /// A line's size is 2 to this power, 4 to 7.
    #[inline(always)]
    pub(crate) fn line_bits(&self) -> u32
        requires layout { IsLayout (layout_model self.now) }
        ensures power { self.now.line ≡ 2 ^ result }
        ensures some { 4 ≤ result }
        ensures few { result ≤ 7 }
    {
        self.line.trailing_zeros()
    }

    /// The number of lines in a frame is 2 to this power, 5 to 8.
    #[inline(always)]
    fn frame_bits(&self) -> u32
        requires layout { IsLayout (layout_model self.now) }
        ensures power { lines_in_frame (layout_model self.now) ≡ 2 ^ result }
        ensures some { 5 ≤ result }
        ensures few { result ≤ 8 }
    {
        FRAME_BITS - self.line_bits()
    }

    /// How many lines a frame has, 32 to 256.
    #[inline(always)]
    pub fn lines_in_frame(&self) -> u32
        requires layout { IsLayout (layout_model self.now) }
        ensures value { result ≡ lines_in_frame (layout_model self.now) }
        ensures some { 32 ≤ result }
        ensures few { result ≤ 256 }
    {
        // A loop up to 1 << n would shift its place at each turn, to compare it.
        (1 << FRAME_BITS) >> self.line_bits()
    }

    /// A place that goes round a frame: its remainder by the frame's lines.
    #[inline(always)]
    pub(crate) fn place_in_frame(&self, place: u32) -> u32
        requires layout { IsLayout (layout_model self.now) }
        ensures value { result ≡ place % lines_in_frame (layout_model self.now) }
        ensures below { result < lines_in_frame (layout_model self.now) }
    {
        place & (self.lines_in_frame() - 1)
    }

    /// A place that goes round the text: its remainder by the lines of the text's two frames.
    #[inline(always)]
    pub(crate) fn place_in_text(&self, place: u32) -> u32
        requires layout { IsLayout (layout_model self.now) }
        ensures value { result ≡ place % (2 * lines_in_frame (layout_model self.now)) }
        ensures below { result < 2 * lines_in_frame (layout_model self.now) }
    {
        place & (2 * self.lines_in_frame() - 1)
    }

    /// The line at a place in a frame.
    #[inline(always)]
    pub fn line_of(&self, frame: FrameNo, place: u32) -> Line
        requires layout { IsLayout (layout_model self.now) }
        requires below { place < lines_in_frame (layout_model self.now) }
        ensures value { result ≡ line_of (layout_model self.now) frame place }
    {
        Line::new(frame.number() * self.lines_in_frame() + place)
    }

    /// A line of the text, by its place in the text's two frames.
    #[inline(always)]
    pub(crate) fn text_line(&self, place: u32) -> Line
        requires layout { IsLayout (layout_model self.now) }
        requires below { place < 2 * lines_in_frame (layout_model self.now) }
        ensures value { result ≡ text_line (layout_model self.now) place }
    {
        if place < self.lines_in_frame() {
            self.line_of(self.text[0], place)
        } else {
            self.line_of(self.text[1], self.place_in_frame(place))
        }
    }

    /// How many lines the shared region has, 1 to 4,096.
    #[inline(always)]
    pub fn shared_lines(&self) -> u32
        requires layout { IsLayout (layout_model self.now) }
        ensures value { result ≡ shared_lines (layout_model self.now) }
        ensures some { 0 < result }
        ensures few { result ≤ 4096 }
    {
        self.shared >> self.line_bits()
    }

    /// A line of the shared region, by its place there.
    #[inline(always)]
    pub fn shared_line(&self, place: u32) -> Line
        requires layout { IsLayout (layout_model self.now) }
        requires below { place < shared_lines (layout_model self.now) }
        ensures value { result ≡ shared_line (layout_model self.now) place }
    {
        let frame = FrameNo::new((place >> self.frame_bits()) * self.colours);
        self.line_of(frame, self.place_in_frame(place))
    }
}
