//! Laws of the definitions: what follows for the frames of pools and shares.
ghost use Rattle.std.specs.Prelude.{◌≡◌, ◌≢◌, ℕ, ◌^◌, ◌<◌, ◌≤◌, true, false, Some, List, [], ◌∷◌, length, map, slice_get, IfOk};
ghost use Rattle.frame_colours.specs.Colours.{Whole, Share, IsOwn, pool, frame_at, whole_of, share_of, AreDisjoint, are_disjoint, AreApart};
ghost use Rattle.frame_colours.specs.FreeList.{FreeList, IsFreeList, is_free, all_free, without_least, with_frame};

use crate::{AllColours, ColourShare, Pool};
use std::alloc::Global;
use tp_base::Memory;

/// Frame n of a pool is one of the share's own, they ascend, and each frame of
/// the share's own is one of them.
pub fn pools()
    ensures own { (share : Share) (n : ℕ) → n < length (pool share) → IsOwn share (frame_at share n) }
    ensures increasing { (share : Share) (m n : ℕ) → m < n → n < length (pool share)
        → frame_at share m < frame_at share n }
    ensures each { (share : Share) (f : ℕ) → IsOwn share f
        → (n : ℕ) × (n < length (pool share)) × (frame_at share n ≡ f) }
{}

/// Where lists of colours are disjoint, so are the frames of their shares, and
/// those of colour 0 are of none; the test tells that the lists are.
pub fn shares()
    ensures apart { (whole : Whole) (lists : List (List ℕ)) → AreDisjoint whole.colours lists
        → AreApart (map (share_of whole) lists) }
    ensures tested { (colours : ℕ) (lists : List (List ℕ)) → are_disjoint colours lists ≡ true
        → AreDisjoint colours lists }
{}

/// What is free stays ascending and the share's own, and is known by which
/// frames are in it; a frame that was taken and is given back is in its place.
pub fn free_lists()
    ensures fresh { (share : Share) → IsFreeList (all_free share) }
    ensures all { (share : Share) (f : ℕ) → IsOwn share f → is_free (all_free share) f ≡ true }
    ensures taken { (list : FreeList) → IsFreeList list → IsFreeList (without_least list) }
    ensures given { (list : FreeList) (f : ℕ) → IsFreeList list → IsOwn list.share f
        → is_free list f ≡ false → IsFreeList (with_frame list f) }
    ensures again { (list : FreeList) (f : ℕ) → IsFreeList list → slice_get list.free 0 ≡ Some f
        → with_frame (without_least list) f ≡ list }
    ensures determined { (a b : FreeList) → a.share ≡ b.share → IsFreeList a → IsFreeList b
        → ((f : ℕ) → is_free a f ≡ is_free b f) → a ≡ b }
{}

/// A frame that is taken and given back leaves the pool as it was.
pub fn take_and_give(pool: &mut Pool)
    ensures same { pool.new ≡ pool.old }
{
    if let Some(frame) = pool.take() {
        pool.give(frame);
    }
}

/// Splits a memory into two shares and makes a pool of each: no frame is in
/// both.
///
/// # Errors
/// `Memory` where no memory is left for them.
pub fn two_pools(
    alloc: Global,
    frames: u32,
    colours: u32,
    first: &[u8],
    second: &[u8],
) -> Result<(Pool, Pool), Memory>
    requires frames { frames ≤ 2 ^ 15 }
    requires some { 0 < colours }
    requires few { colours ≤ 64 }
    requires disjoint { are_disjoint colours (first.now ∷ second.now ∷ []) ≡ true }
    ensures first { IfOk result (λ pools.
        pools.0 ≡ all_free (share_of (whole_of frames colours) first.now)) }
    ensures second { IfOk result (λ pools.
        pools.1 ≡ all_free (share_of (whole_of frames colours) second.now)) }
    ensures apart { IfOk result (λ pools. (f : ℕ)
        → is_free pools.0 f ≡ true → is_free pools.1 f ≡ false) }
{
    let (first, second) = two_shares(alloc, frames, colours, first, second)?;
    pools_of(alloc, first, second)
}

// The two shares.
#[tactic(auto, using(crate::proofs::Disjoint::disjoint_by_test))]
fn two_shares(
    alloc: Global,
    frames: u32,
    colours: u32,
    first: &[u8],
    second: &[u8],
) -> Result<(ColourShare, ColourShare), Memory>
    requires frames { frames ≤ 2 ^ 15 }
    requires some { 0 < colours }
    requires few { colours ≤ 64 }
    requires disjoint { are_disjoint colours (first.now ∷ second.now ∷ []) ≡ true }
    ensures first { IfOk result (λ shares. shares.0 ≡ share_of (whole_of frames colours) first.now) }
    ensures second { IfOk result (λ shares. shares.1 ≡ share_of (whole_of frames colours) second.now) }
{
    let first = Vec::from_slice(alloc, first)?;
    let second = Vec::from_slice(alloc, second)?;
    let lists = vec![in alloc; first, second]?;
    let mut shares = AllColours::new(frames, colours).split(alloc, &lists)?;
    let first = shares.remove(0);
    let second = shares.remove(0);
    shares.destroy_empty();
    Ok((first, second))
}

// A pool of each of two shares.
fn pools_of(alloc: Global, first: ColourShare, second: ColourShare) -> Result<(Pool, Pool), Memory>
    ensures first { IfOk result (λ pools. pools.0 ≡ all_free first) }
    ensures second { IfOk result (λ pools. pools.1 ≡ all_free second) }
{
    let first = match Pool::new(alloc, first) {
        Ok(pool) => pool,
        Err((share, error)) => {
            share.discard();
            second.discard();
            return Err(error);
        }
    };
    match Pool::new(alloc, second) {
        Ok(second) => Ok((first, second)),
        Err((share, error)) => {
            share.discard();
            Err(error)
        }
    }
}
