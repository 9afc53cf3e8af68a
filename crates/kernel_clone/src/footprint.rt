// The touches of an operation, one by one, with no list in memory.
ghost use Rattle.std.specs.Prelude.{◌≡◌, ◌+◌, ◌^◌, ◌<◌, ◌≤◌, length, slice_get, Some};
ghost use Rattle.kernel_clone.specs.Footprints.{IsLayout, touch_of, run_of, is_of_switch, data_count, text_touches, stack_touches, data_touches, shared_touches, own_touches, written_touches, entry_touches};
ghost use Rattle.kernel_clone.specs.declared.Kind.TheVariants.{Fetch, Load, Store};
ghost use Rattle.kernel_clone.specs.Footprints as spec;
ghost use Rattle.kernel_clone.specs.Models.{layout_model, work_model, IsWork, IsAsked};
ghost use Rattle.kernel_clone.specs.Laws.{own_count, shared_count};

use crate::{CloneLayout, ENTER, Kind, LEAVE, Work};
use std::marker::Model;
use tp_base::{FrameNo, Line};

/// How many lines of the text an operation fetches.
pub const TEXT_LINES: u32 = 4;

/// How many lines of the stack an operation stores.
pub const STACK_LINES: u32 = 2;

// How many lines of the data an operation stores, and of the shared region it loads.
const DATA: u32 = 2;

const SHARED: u32 = 1;

const DATA_AT_SWITCH: u32 = 1;

const SHARED_AT_SWITCH: u32 = 0;

/// The touches of one operation, in their order. It lends the layout and the work.
#[derive(Drop)]
pub struct Touches<'a> {
    op: u8,
    layout: &'a CloneLayout,
    work: &'a Work,
}

impl<'a> Model for Touches<'a> {
    ghost use Rattle.std.specs.Prelude.{List};
    ghost use Rattle.kernel_clone.specs.Footprints.{LineTouch};

    ghost Value = { List LineTouch };

    ghost use Rattle.kernel_clone.specs.Footprints as spec;
    ghost use Rattle.kernel_clone.specs.Models.{layout_model, work_model, IsAsked};

    ghost view = { λ t. spec.touches (layout_model t.layout.now) (work_model t.work.now) };

    ghost invariant = { λ t. IsAsked t.op t.layout.now t.work.now };
}

/// How many lines of the data an operation stores.
#[inline(always)]
pub fn data_count(op: u8) -> u32
    ensures value { result ≡ data_count op }
    ensures few { result ≤ 2 }
{
    if is_of_switch(op) {
        DATA_AT_SWITCH
    } else {
        DATA
    }
}

/// How many lines of the shared region an operation loads.
#[inline(always)]
pub fn shared_count(op: u8) -> u32
    ensures value { result ≡ shared_count op }
    ensures few { result ≤ 1 }
{
    if is_of_switch(op) {
        SHARED_AT_SWITCH
    } else {
        SHARED
    }
}

/// How many lines an operation touches whatever it wrote: 7 at a switch, else 9.
#[inline(always)]
pub fn own_count(op: u8) -> u32
    ensures value { result ≡ own_count op }
    ensures few { result ≤ 9 }
{
    TEXT_LINES + STACK_LINES + data_count(op) + shared_count(op)
}

/// One of them, by its place in their order: which line is touched, and how.
pub fn own_touch(layout: &CloneLayout, op: u8, place: u32) -> (Line, Kind)
    requires layout { IsLayout (layout_model layout.now) }
    requires below { place < own_count op }
    ensures touch { slice_get (own_touches (layout_model layout.now) op) place
        ≡ Some (touch_of result.1 result.0) }
{
    if place < TEXT_LINES {
        let first = text_start(layout, op);
        return (Line::new(first.number() + place), Kind::Fetch);
    }
    let place = place - TEXT_LINES;
    if place < STACK_LINES {
        let first = stack_start(layout);
        return (Line::new(first.number() + place), Kind::Store);
    }
    let place = place - STACK_LINES;
    if place < data_count(op) {
        let first = data_start(layout, op);
        return (Line::new(first.number() + place), Kind::Store);
    }
    (loaded_line(layout, op), Kind::Load)
}

/// The first of the text's lines that an operation fetches, 4 side by side.
#[inline(always)]
pub fn text_start(layout: &CloneLayout, op: u8) -> Line
    requires layout { IsLayout (layout_model layout.now) }
    ensures touches { text_touches (layout_model layout.now) op ≡ run_of Fetch result 4 }
    ensures room { result + 4 ≤ 2 ^ 23 }
{
    layout.text_line(layout.place_in_text(4 * u32::from(op)))
}

/// The first of the stack's lines that an operation stores, 2 side by side.
#[inline(always)]
pub fn stack_start(layout: &CloneLayout) -> Line
    requires layout { IsLayout (layout_model layout.now) }
    ensures touches { stack_touches (layout_model layout.now) ≡ run_of Store result 2 }
    ensures room { result + 2 ≤ 2 ^ 23 }
{
    layout.line_of(layout.stack, 0)
}

/// The first of the data's lines that an operation stores, side by side.
#[inline(always)]
pub fn data_start(layout: &CloneLayout, op: u8) -> Line
    requires layout { IsLayout (layout_model layout.now) }
    ensures touches { data_touches (layout_model layout.now) op ≡ run_of Store result (data_count op) }
    ensures room { result + 2 ≤ 2 ^ 23 }
{
    layout.line_of(layout.data, layout.place_in_frame(2 * u32::from(op)))
}

/// The shared line that an operation loads, unless it is of a switch.
#[inline(always)]
pub fn loaded_line(layout: &CloneLayout, op: u8) -> Line
    requires layout { IsLayout (layout_model layout.now) }
    ensures touches { shared_touches (layout_model layout.now) op ≡ run_of Load result (shared_count op) }
{
    layout.shared_line(u32::from(op) % layout.shared_lines())
}

/// How many lines the work stored.
fn written_count(layout: &CloneLayout, work: &Work) -> u32
    requires layout { IsLayout (layout_model layout.now) }
    requires work { IsWork work.now }
    ensures value { result ≡ length (written_touches (layout_model layout.now) (work_model work.now)) }
    ensures few { result ≤ 320 }
{
    match work.zeroed {
        Some(_) => layout.lines_in_frame() + work.count,
        None => work.count,
    }
}

/// Whether a domain leaves or enters.
#[inline(always)]
fn is_of_switch(op: u8) -> bool
    ensures value { result ≡ is_of_switch op }
{
    op == LEAVE || op == ENTER
}

/// One of the lines that the work stored: the zeroed frame's, and then those of the entries.
fn written_line(layout: &CloneLayout, work: &Work, place: u32) -> Line
    requires layout { IsLayout (layout_model layout.now) }
    requires work { IsWork work.now }
    requires below { place < length (written_touches (layout_model layout.now) (work_model work.now)) }
    ensures touch { slice_get (written_touches (layout_model layout.now) (work_model work.now)) place
        ≡ Some (touch_of Store result) }
{
    match work.zeroed {
        Some(frame) => {
            let lines = layout.lines_in_frame();
            if place < lines {
                return layout.line_of(FrameNo::new(frame), place);
            }
            entry_line(layout, work, place - lines)
        }
        None => entry_line(layout, work, place),
    }
}

/// The line of an entry that the work wrote, by its place in their order.
#[inline(always)]
pub fn entry_line(layout: &CloneLayout, work: &Work, place: u32) -> Line
    requires layout { IsLayout (layout_model layout.now) }
    requires work { IsWork work.now }
    requires below { place < work.now.count }
    ensures touch { slice_get (entry_touches (layout_model layout.now) (work_model work.now).entries) place
        ≡ Some (touch_of Store result) }
{
    Line::new(work.entries[place as usize] >> layout.line_bits())
}

impl<'a> Touches<'a> {
    #[inline(always)]
    pub(crate) fn new(op: u8, layout: &'a CloneLayout, work: &'a Work) -> Self
        requires asked { IsAsked op layout.now work.now }
        ensures touches { result ≡ spec.touches (layout_model layout.now) (work_model work.now) }
    {
        Touches { op, layout, work }
    }

    /// How many there are, 7 to 329.
    #[inline(always)]
    pub fn len(&self) -> u32
        ensures length { result ≡ length self.now }
    {
        own_count(self.op) + written_count(self.layout, self.work)
    }

    /// One of them, by its place in their order: which line is touched, and how.
    #[inline(always)]
    pub fn get(&self, place: u32) -> (Line, Kind)
        requires below { place < length self.now }
        ensures touch { slice_get self.now place ≡ Some (touch_of result.1 result.0) }
    {
        let own = own_count(self.op);
        if place < own {
            return own_touch(self.layout, self.op, place);
        }
        let line = written_line(self.layout, self.work, place - own);
        (line, Kind::Store)
    }
}
