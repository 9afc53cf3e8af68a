// A map of two frames that meets the trait.
ghost use Rattle.std.specs.Prelude.{◌<◌, cond, eqb};

use tp_base::{FrameNo, Zero};

// Two frames of one word each, the word standing at every place.
#[derive(Drop)]
struct Pair {
    first: u32,
    second: u32,
}

impl Zero for Pair {
    ghost has_frame = { λ p f. f < 2 };

    ghost word = { λ p f i. cond (eqb f 0) p.first (cond (eqb f 1) p.second 0) };

    ghost zeroed = { λ p f. cond (eqb f 0) (record p { first = 0 }) (record p { second = 0 }) };

    fn zero_frame(&mut self, frame: FrameNo) {
        if frame.number() == 0 {
            self.first = 0;
        } else {
            self.second = 0;
        }
    }
}

#[test]
fn one_frame_is_zeroed(rt: HostRuntime) {
    let mut pair = Pair {
        first: 5,
        second: 6,
    };
    pair.zero_frame(FrameNo::new(1));
    assert_eq!(rt; (pair.first, pair.second), (5, 0));
}
