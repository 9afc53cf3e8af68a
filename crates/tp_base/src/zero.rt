// What holds frames of words, one of which can be zeroed.
ghost use Rattle.std.specs.Prelude.{◌≡◌, ◌≢◌, ℕ};

use crate::FrameNo;

/// A map of words by frame and place, in which a whole frame can be set to zero.
pub trait Zero {
    /// Whether it holds this frame.
    ghost has_frame: { Self → ℕ → Type 0 };

    /// The word in a frame at a place from 0 to 1,023.
    ghost word: { Self → ℕ → ℕ → ℕ };

    /// It with one frame of zeros.
    ghost zeroed: { Self → ℕ → Self };

    /// Sets a frame that it holds to zero; every other frame stays.
    fn zero_frame(&mut self, frame: FrameNo)
        requires within { has_frame self.old frame }
        ensures becomes { self.new ≡ zeroed self.old frame }
        ensures zero { (i : ℕ) → word self.new frame i ≡ 0 }
        ensures others { (f i : ℕ) → f ≢ frame → word self.new f i ≡ word self.old f i }
        ensures frames { (f : ℕ) → has_frame self.old f → has_frame self.new f };
}
