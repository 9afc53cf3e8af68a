//! Laws of the definitions: where touches are, how many there are, which lines
//! are whose, and which calls may be made.
ghost use Rattle.std.specs.Prelude.{◌≡◌, ◌≢◌, ℕ, ◌*◌, ◌/◌, ◌%◌, ◌<◌, Bool, true, false, All, length, slice_get, Some};
ghost use Rattle.kernel_clone.specs.Footprints.{Layout, WorkDone, IsLayout, touches, is_of_switch, lines_in_frame, text_line, shared_line};
ghost use Rattle.kernel_clone.specs.Permissions.{EveryCallLaw, CallsLaw, WithoutMailLaw};
ghost use Rattle.kernel_clone.specs.Laws.{frame_of, frame_at, IsPlaced, MayStore, StoresIn, count_of, IsPlain, text_lines};
ghost use Rattle.kernel_clone.specs.declared.Kind.TheVariants.{Load};

/// Fetched is the text alone; loaded are lines of colour 0 alone, and none at
/// a switch; stored are the stack, the data, the zeroed frame and the entries
/// alone, so that a domain whose frames these are stores in no other.
pub fn places()
    ensures each { (l : Layout) (w : WorkDone) → IsLayout l
        → All (λ t. IsPlaced l w t.kind t.line) (touches l w) }
    ensures stores { (own : ℕ → Bool) (l : Layout) (w : WorkDone) → IsLayout l → MayStore own l w
        → All (StoresIn own l) (touches l w) }
    ensures switch { (l : Layout) (w : WorkDone) → is_of_switch w.op ≡ true
        → All (λ t. t.kind ≢ Load) (touches l w) }
{}

/// The number of touches is the sum of its parts; where nothing was done
/// beside the operation's own work, it is 7 for a switch and 9 for a call.
pub fn counts()
    ensures sum { (l : Layout) (w : WorkDone) → length (touches l w) ≡ count_of l w }
    ensures plain { (l : Layout) (w : WorkDone) → IsPlain w → is_of_switch w.op ≡ false
        → length (touches l w) ≡ 9 }
    ensures switch { (l : Layout) (w : WorkDone) → IsPlain w → is_of_switch w.op ≡ true
        → length (touches l w) ≡ 7 }
{}

/// The lines of the text are those of its two frames, one after the other; the
/// lines of the shared region are all different, and lie in frames of colour 0
/// that each follow the one before by the number of colours.
pub fn lines()
    ensures text { (l : Layout) (j : ℕ) → j < 2 * lines_in_frame l
        → slice_get (text_lines l) j ≡ Some (text_line l j) }
    ensures shared_frame { (l : Layout) (j : ℕ) → IsLayout l
        → frame_of l (shared_line l j) ≡ j / lines_in_frame l * l.colours }
    ensures shared_once { (l : Layout) (i j : ℕ) → IsLayout l → i ≢ j
        → shared_line l i ≢ shared_line l j }
{}

/// The line of an entry lies in the entry's frame.
pub fn entries_lie_in_their_frames()
    ensures entry { (l : Layout) (address : ℕ) → IsLayout l
        → frame_of l (address / l.line) ≡ frame_at address }
{}

/// Each call has a bit of its own, and what is no call has none: of the calls that
/// a test has, just these may be made, and of all calls each; without those on
/// mailboxes none of these.
pub fn permissions()
    ensures every { EveryCallLaw }
    ensures calls { CallsLaw }
    ensures without_mail { WithoutMailLaw }
{}
