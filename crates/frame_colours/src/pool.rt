// The pool of a share: its free frames.
ghost use Rattle.std.specs.Prelude.{◌≡◌, ◌≢◌, ℕ, ◌-◌, ◌<◌, ◌≤◌, true, false, Some, None, length, reverse, slice_get, slice_index, IfOk, IfErr, IfSome, IfNone};
ghost use Rattle.std.specs.Vec.{vec_len, vec_capacity};
ghost use Rattle.frame_colours.specs.Colours.{IsOwn, has, pool};
ghost use Rattle.frame_colours.specs.FreeList.{IsFreeList, is_free, all_free, without_least, with_frame, placed};

use crate::frame::{Frame, Free};
use crate::share::{ColourShare, Part};
use std::alloc::Global;
use std::marker::Model;
use tp_base::{FrameNo, Memory};

/// The frames of a share, and which of them are free. It has room for all of
/// them, so that only `new` takes memory.
#[derive(Drop)]
pub struct Pool {
    part: Part,
    // All of them, ascending.
    all: Vec<FrameNo>,
    // The greatest first: the least is taken, and frames that come back are
    // mostly small ones, so the work is done at the end.
    free: Vec<FrameNo>,
}

impl Model for Pool {
    ghost use Rattle.std.specs.Prelude.{◌≡◌, ◌≤◌, length, reverse};
    ghost use Rattle.frame_colours.specs.Colours.{pool};
    ghost use Rattle.frame_colours.specs.FreeList.{FreeList, IsFreeList};

    ghost Value = { FreeList };

    ghost view = { λ p. record { share = p.part; free = reverse p.free.items } };

    ghost invariant = { λ p. IsFreeList (record { share = p.part; free = reverse p.free.items })
        × (length (pool p.part) ≤ p.free.cap) × (p.all.items ≡ pool p.part) };
}

impl Pool {
    /// A pool in which all frames of the share are free.
    ///
    /// # Errors
    /// The share as it was, and `Memory`, where no memory is left for it.
    pub fn new(alloc: Global, share: ColourShare) -> Result<Self, (ColourShare, Memory)>
        ensures free { IfOk result (λ pool. pool ≡ all_free share) }
        ensures sound { IfOk result (λ pool. IsFreeList pool) }
        ensures back { IfErr result (λ error. error.0 ≡ share) }
    {
        let free = match share.part.descending(alloc) {
            Ok(free) => free,
            Err(error) => return Err((share, error)),
        };
        let all = match reversed(alloc, free.as_slice()) {
            Ok(all) => all,
            Err(error) => return Err((share, error)),
        };
        let ColourShare { part } = share;
        Ok(Pool { part, all, free })
    }

    /// The numbers of all frames of its share, free or not, ascending.
    pub fn frames(&self) -> &[FrameNo]
        ensures frames { result.now ≡ pool self.now.share }
    {
        self.all.as_slice()
    }

    /// The least free frame; `None` exactly where none is free.
    pub fn take(&mut self) -> Option<Frame<Free>>
        ensures value { result ≡ slice_get self.old.free 0 }
        ensures becomes { self.new ≡ without_least self.old }
        ensures sound { IsFreeList self.new }
        ensures own { IfSome result (λ frame. IsOwn self.old.share frame) }
        ensures was_free { IfSome result (λ frame. is_free self.old frame ≡ true) }
        ensures gone { IfSome result (λ frame. is_free self.new frame ≡ false) }
        ensures least { IfSome result (λ frame. (f : ℕ) → is_free self.old f ≡ true → frame ≤ f) }
        ensures others { IfSome result (λ frame. (f : ℕ)
            → f ≢ frame → is_free self.new f ≡ is_free self.old f) }
        ensures again { IfSome result (λ frame. with_frame self.new frame ≡ self.old) }
        ensures none { IfNone result ((f : ℕ) → is_free self.old f ≡ false) }
    {
        let number = self.free.pop()?;
        Some(Frame::of(number))
    }

    /// Takes a frame of this pool back, which must not be among its free ones.
    pub fn give(&mut self, frame: Frame<Free>)
        requires own { IsOwn self.old.share frame }
        requires out { is_free self.old frame ≡ false }
        ensures becomes { self.new ≡ with_frame self.old frame }
        ensures sound { IsFreeList self.new }
        ensures back { is_free self.new frame ≡ true }
        ensures others { (f : ℕ) → f ≢ frame → is_free self.new f ≡ is_free self.old f }
    {
        put(&mut self.free, frame.number());
    }
}

// The same numbers, the last first.
fn reversed(alloc: Global, numbers: &[FrameNo]) -> Result<Vec<FrameNo>, Memory>
    ensures reversed { IfOk result (λ r. r.items ≡ reverse numbers.now) }
{
    let mut reversed = Vec::from_slice(alloc, numbers)?;
    reversed.reverse();
    Ok(reversed)
}

// Puts a number in its place in numbers that descend.
fn put(numbers: &mut Vec<FrameNo>, number: FrameNo)
    requires out { has (reverse numbers.old.items) number ≡ false }
    requires room { vec_len numbers.old < vec_capacity numbers.old }
    ensures placed { reverse numbers.new.items ≡ placed (reverse numbers.old.items) number }
    ensures room { vec_capacity numbers.old ≤ vec_capacity numbers.new }
{
    let place = place_in(numbers, number.number());
    let has_room = numbers.insert(place, number).is_ok();
    prove!(has_room);
}

// The place of a number in numbers that descend.
fn place_in(numbers: &[FrameNo], number: u32) -> usize
    ensures within { result ≤ length numbers.now }
    ensures after { (k : ℕ) → result ≤ k → k < length numbers.now
        → slice_index numbers.now k < number }
    ensures before { 0 < result → number ≤ slice_index numbers.now (result - 1) }
{
    let mut place = numbers.len();
    while place > 0 && numbers[place - 1].number() < number {
        place -= 1;
    }
    place
}
