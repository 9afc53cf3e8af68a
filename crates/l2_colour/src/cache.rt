// The second level over a cache of sets, in which lines are dirty only where they are
// written back into it.
use set_cache::{Policy, SetCache, Touch};
use std::alloc::Global;
use std::marker::Model;
use tp_base::{Colour, FrameNo, Line, Memory};

/// The bytes of a frame.
const FRAME_SIZE: u32 = 4096;

/// A second-level cache. It keeps the numbers of physical lines. Its sets are
/// shared out by colours: a line uses only sets of the colour of its frame.
/// Where lines are written back into it, those that it holds are dirty then;
/// else none is ever dirty.
#[derive(Drop)]
pub struct L2<P: Policy> {
    line_size: u32,
    // the line size is 2 to this
    line_bits: u32,
    colours: u32,
    back: bool,
    cache: SetCache<P>,
}

impl<P: Policy> Model for L2<P> {
    ghost use Rattle.l2_colour.specs.Contents.{L2Contents, coded_l2, IsL2};

    ghost Value = { L2Contents P };

    ghost coded = { coded_l2 P.code };

    ghost view = { λ a. record { line_size = a.line_size; back = a.back; cache = a.cache } };

    ghost invariant = { λ a. IsL2 a.line_bits a.colours (record {
      line_size = a.line_size;
      back = a.back;
      cache = a.cache;
    }) };
}

impl<P: Policy> L2<P> {
    ghost use Rattle.std.specs.Prelude.{
      ◌≡◌,
      ◌≢◌,
      ◌↔◌,
      ◌<◌,
      ◌≤◌,
      ℕ,
      true,
      false,
      length,
      is_some,
      None,
      IfOk,
      if◌then◌else◌,
      ◌/◌,
      ◌^◌,
    };
    ghost use Rattle.set_cache.specs.Cache.{Sets, marked_of};
    ghost use Rattle.set_cache.specs.Contents.{StandsFor, SameShape, shape_of, kept_at};
    ghost use Rattle.set_cache.specs.Lines.{IsClean, place_in};
    ghost use Rattle.set_cache.specs.Calls.{IsGeometry, IsNew, IsTouch, TellsHit};
    ghost use Rattle.l2_colour.specs.Colours.{
      IsColoured,
      colours_of,
      colour_of_frame,
      colour_of_line,
      colour_of_set,
    };

    /// A cache of fresh sets, for lines of this many bytes, 16 at least. `back`:
    /// lines are written back into it.
    ///
    /// # Errors
    ///
    /// `Memory`, where memory ran out.
    pub fn new(
        alloc: Global,
        line_size: u32,
        policy: P,
        sets: u32,
        ways: u32,
        back: bool,
    ) -> Result<Self, Memory>
        requires least { 16 ≤ line_size }
        requires coloured { IsColoured line_size sets }
        requires geometry { IsGeometry (P.takes policy) sets ways }
        ensures line_size { IfOk result (λ l2. l2.line_size ≡ line_size) }
        ensures back { IfOk result (λ l2. l2.back ≡ back) }
        ensures made { IfOk result (λ l2. IsNew P.takes P.stands_for policy sets ways l2.cache) }
        ensures clean { IfOk result (λ l2. IsClean l2.cache) }
    {
        let colours = sets * line_size / FRAME_SIZE;
        let cache = SetCache::new(alloc, policy, sets, ways)?;
        Ok(L2 {
            line_size,
            line_bits: line_size.trailing_zeros(),
            colours,
            back,
            cache,
        })
    }

    /// A touch of a line, which changes sets of the colour of the line's frame
    /// alone. The line that it gives up is dirty only where lines are written back.
    #[inline(always)]
    pub fn touch(&mut self, line: Line) -> Touch
        ensures line_size { self.new.line_size ≡ self.old.line_size }
        ensures back { self.new.back ≡ self.old.back }
        ensures touch { IsTouch P.takes P.rule P.stands_for result line false
            self.old.cache self.new.cache }
        ensures colour { (s : ℕ) → colour_of_set self.old.line_size s
            ≢ colour_of_line self.old.line_size (length self.old.cache.table) line
            → kept_at self.new.cache.table s ≡ kept_at self.old.cache.table s }
        ensures clean { self.old.back ≡ false → result.dirty_victim ≡ false }
    {
        self.cache.touch(line.number(), false)
    }

    /// Whether a line is here: a touch of it then. A look-up that misses changes
    /// nothing.
    #[inline(always)]
    pub fn find(&mut self, line: Line) -> bool
        ensures line_size { self.new.line_size ≡ self.old.line_size }
        ensures back { self.new.back ≡ self.old.back }
        ensures here { result ≡ is_some (place_in self.old.cache line) }
        ensures shape { SameShape self.old.cache self.new.cache }
        ensures found { result ≡ true
            → TellsHit P.takes P.rule P.stands_for true line self.old.cache self.new.cache }
        ensures missed { result ≡ false → self.new ≡ self.old }
        ensures colour { (s : ℕ) → colour_of_set self.old.line_size s
            ≢ colour_of_line self.old.line_size (length self.old.cache.table) line
            → kept_at self.new.cache.table s ≡ kept_at self.old.cache.table s }
    {
        self.cache.find(line.number()).is_some()
    }

    /// A touch of a line that isn't here, as `touch` makes it.
    #[inline(always)]
    pub fn touch_absent(&mut self, line: Line) -> Touch
        requires absent { place_in self.old.cache line ≡ None }
        ensures line_size { self.new.line_size ≡ self.old.line_size }
        ensures back { self.new.back ≡ self.old.back }
        ensures touch { IsTouch P.takes P.rule P.stands_for result line false
            self.old.cache self.new.cache }
        ensures colour { (s : ℕ) → colour_of_set self.old.line_size s
            ≢ colour_of_line self.old.line_size (length self.old.cache.table) line
            → kept_at self.new.cache.table s ≡ kept_at self.old.cache.table s }
        ensures clean { self.old.back ≡ false → result.dirty_victim ≡ false }
    {
        self.cache.touch_absent(line.number(), false)
    }

    /// A dirty line that the first level gives up: it is dirty here then, if it is
    /// here and lines are written back. Else it passes through to memory. It is no
    /// touch: each line keeps its place, and each set its policy state.
    #[inline(never)]
    pub fn write_back(&mut self, line: Line)
        ensures line_size { self.new.line_size ≡ self.old.line_size }
        ensures back { self.new.back ≡ self.old.back }
        ensures steps { (sets : Sets) → StandsFor P.stands_for self.old.cache sets
            → StandsFor P.stands_for self.new.cache
            (if self.old.back then marked_of (shape_of P.rule self.old.cache) sets line else sets) }
        ensures shape { SameShape self.old.cache self.new.cache }
        ensures colour { (s : ℕ) → colour_of_set self.old.line_size s
            ≢ colour_of_line self.old.line_size (length self.old.cache.table) line
            → kept_at self.new.cache.table s ≡ kept_at self.old.cache.table s }
        ensures passes { self.old.back ≡ false → self.new ≡ self.old }
        ensures absent { place_in self.old.cache line ≡ None → self.new ≡ self.old }
        ensures places { (other : ℕ) → place_in self.new.cache other ≡ place_in self.old.cache other }
        ensures states { (s : ℕ) → (kept_at self.new.cache.table s).state
            ≡ (kept_at self.old.cache.table s).state }
    {
        if self.back && self.cache.holds(line.number()) {
            self.cache.mark(line.number());
        }
    }

    /// Whether lines are written back into it.
    #[inline(always)]
    pub fn back(&self) -> bool
        ensures value { result ≡ self.now.back }
    {
        self.back
    }

    /// The line of an address below 2^27.
    #[inline(always)]
    pub fn line_of(&self, at: u32) -> Line
        requires small { at < 2 ^ 27 }
        ensures line { result ≡ at / self.now.line_size }
    {
        // A division by a number that isn't known here would cost several times this.
        Line::new(at >> self.line_bits)
    }

    /// The number of the colour of a line's frame.
    #[inline(always)]
    pub fn colour_of_line(&self, line: Line) -> u32
        ensures colour { result ≡ colour_of_line self.now.line_size (length self.now.cache.table) line }
    {
        line.number() / (FRAME_SIZE / self.line_size) % self.colours
    }

    /// The colour of a frame: its number modulo the number of colours.
    pub fn colour_of(&self, frame: FrameNo) -> Colour
        ensures colour { result ≡ colour_of_frame self.now.line_size (length self.now.cache.table) frame }
    {
        Colour::new((frame.number() % self.colours) as u8)
    }

    /// The sets of a colour: its first, and the one after its last.
    pub fn sets_of(&self, colour: Colour) -> (u32, u32)
        requires below { colour < colours_of self.now.line_size (length self.now.cache.table) }
        ensures sets { (s : ℕ)
            → (result.0 ≤ s) × (s < result.1) ↔ colour_of_set self.now.line_size s ≡ colour }
        ensures within { result.1 ≤ length self.now.cache.table }
    {
        let lines = FRAME_SIZE / self.line_size;
        let first = u32::from(colour.number()) * lines;
        (first, first + lines)
    }
}
