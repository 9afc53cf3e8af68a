// A memory is split, its pools are drained, and frames are used.
ghost use Rattle.std.specs.Prelude.{◌≤◌, ◌<◌, length, slice_index, slice_set};

use frame_colours::Pool;
use frame_colours::laws::{take_and_give, two_pools};
use std::alloc::Global;
use std::marker::Model;
use std::process::Abort;
use std::test::Fail;
use tp_base::{FrameNo, Memory, Zero};

// How many frames are free, and the least and the greatest of them.
type Drained = (u32, Option<u32>, Option<u32>);

fn drained(pool: &mut Pool) -> Drained {
    let mut count = 0u32;
    let mut least = None;
    let mut greatest = None;
    while let Some(frame) = pool.take() {
        let number = frame.number().number();
        count = count.saturating_add(1);
        least = least.or(Some(number));
        greatest = Some(number);
    }
    (count, least, greatest)
}

fn both_drained(pools: Result<(Pool, Pool), Memory>) -> Result<(Drained, Drained), Memory> {
    let (mut first, mut second) = pools?;
    Ok((drained(&mut first), drained(&mut second)))
}

// For the prover no `?` and no assert stands in the tests, where each would be
// proved with all that is live.
fn have(rt: &impl Abort, pools: Result<(Pool, Pool), Memory>, first: Drained, second: Drained) {
    assert_eq!(rt; both_drained(pools), Ok((first, second)));
}

#[test]
fn each_share_has_the_frames_of_its_colours(rt: HostRuntime) {
    have(
        &rt,
        two_pools(rt.alloc(), 64, 4, &[1], &[2]),
        (16, Some(1), Some(61)),
        (16, Some(2), Some(62)),
    );
    have(
        &rt,
        two_pools(rt.alloc(), 3, 4, &[2], &[3, 1]),
        (1, Some(2), Some(2)),
        (1, Some(1), Some(1)),
    );
    have(
        &rt,
        two_pools(rt.alloc(), 16384, 64, &[63, 5, 17], &[]),
        (768, Some(5), Some(16383)),
        (0, None, None),
    );
}

// A frame a place, of one word each, the word standing at every place.
#[derive(Drop)]
struct Board {
    words: Vec<u32>,
}

impl Model for Board {
    ghost use Rattle.std.specs.Prelude.{ℕ, List};

    ghost Value = { List ℕ };

    ghost view = { λ b. b.words.items };
}

impl Zero for Board {
    ghost has_frame = { λ b f. f < length b };

    ghost word = { λ b f i. slice_index b f };

    ghost zeroed = { λ b f. slice_set b f 0 };

    fn zero_frame(&mut self, frame: FrameNo) {
        self.words[frame.number() as usize] = 0;
    }
}

// Takes two frames, uses one as a page and one as a table, and gives them back;
// answers their numbers.
fn used(pool: &mut Pool, board: &mut Board) -> Option<(u32, u32)>
    requires frames { pool.old.share.frames ≤ length board.old }
{
    let first = pool.take()?;
    let second = pool.take()?;
    let page = first.hold(board);
    let table = second.table(board);
    let numbers = (page.number().number(), table.number().number());
    pool.give(table.release());
    pool.give(page.release());
    Some(numbers)
}

// The words after two frames of two colours' first pool were used, and what the
// pool has then.
fn used_and_drained(alloc: Global) -> Result<(Option<(u32, u32)>, Vec<u32>, Drained), Memory> {
    let mut board = Board {
        words: vec![in alloc; 7; 8]?,
    };
    let (mut pool, _) = two_pools(alloc, 8, 2, &[1], &[])?;
    let numbers = used(&mut pool, &mut board);
    take_and_give(&mut pool);
    Ok((numbers, board.words, drained(&mut pool)))
}

#[test]
fn frames_are_zeroed_and_come_back(rt: HostRuntime) -> Result<(), Fail> {
    let (numbers, words, free) = used_and_drained(rt.alloc())?;
    assert_eq!(rt; numbers, Some((1, 3)));
    assert_eq!(rt; words.as_slice(), [7, 0, 7, 0, 7, 7, 7, 7].as_slice());
    assert_eq!(rt; free, (4, Some(1), Some(7)));
    Ok(())
}
