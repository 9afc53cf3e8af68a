//! Laws of the definitions: what touches cost and change, in words.
ghost use Rattle.std.specs.Prelude.{◌≡◌, ◌≢◌, ℕ, ◌≤◌, ◌%◌, Bool, true, false, List, [], All, None, slice_index, slice_index_or};
ghost use Rattle.set_cache.specs.Cache.{set_at, EachDirty};
ghost use Rattle.l2_colour.specs.Colours.{IsColoured};
ghost use Rattle.branch_pred.specs.Guesses.{counter_place, target_place};
ghost use Rattle.mem_system.specs.Hierarchy.{Hierarchy, colour_of_line};
ghost use Rattle.mem_system.specs.Cost.{
  Touch,
  Fetch,
  Load,
  Store,
  WalkRead,
  Look,
  Caches,
  touched,
};
ghost use Rattle.mem_system.specs.TouchLaws.{
  lines_in_l1i,
  lines_in_l1d,
  lines_in_l2,
  pages_in_tlb,
  branches_in,
  jumps_in,
  is_flush,
  empties_tlb,
  holds,
  IsCost,
};

/// A line of one colour never moves or marks a line of another in the second
/// level: a touch leaves the set of a line, with all that it keeps, as it was,
/// where its own lines have other colours, and so have the dirty lines of the
/// first level, which may be written back. And no touch changes a set of a line
/// of colour 0 where those are pinned.
pub fn colours_keep_apart()
    ensures apart { (h : Hierarchy) (pinned : Bool) (caches : Caches) (touch : Touch) (line : ℕ)
        → IsColoured h.line_size h.l2.count
        → All (λ other. colour_of_line h other ≢ colour_of_line h line) (lines_in_l2 touch)
        → EachDirty (λ other. colour_of_line h other ≢ colour_of_line h line) h.l1d caches.core.l1d
        → set_at h.l2.ways (touched h pinned caches touch).caches.l2 (line % h.l2.count)
        ≡ set_at h.l2.ways caches.l2 (line % h.l2.count) }
    ensures pinned { (h : Hierarchy) (caches : Caches) (touch : Touch) (line : ℕ)
        → IsColoured h.line_size h.l2.count → colour_of_line h line ≡ 0
        → set_at h.l2.ways (touched h true caches touch).caches.l2 (line % h.l2.count)
        ≡ set_at h.l2.ways caches.l2 (line % h.l2.count) }
{}

/// Each cost is one of the table's.
pub fn costs_are_the_tables()
    ensures cost { (h : Hierarchy) (pinned : Bool) (caches : Caches) (touch : Touch)
        → IsCost h caches.core touch (touched h pinned caches touch).cost }
{}

/// A touch of what is held costs no more than it would from any other caches.
pub fn hits_cost_least()
    ensures fetch { (h : Hierarchy) (pinned : Bool) (caches others : Caches) (line : ℕ)
        → holds h.l1i caches.core.l1i line ≡ true
        → (touched h pinned caches (Fetch line)).cost ≤ (touched h pinned others (Fetch line)).cost }
    ensures load { (h : Hierarchy) (pinned : Bool) (caches others : Caches) (line : ℕ)
        → holds h.l1d caches.core.l1d line ≡ true
        → (touched h pinned caches (Load line)).cost ≤ (touched h pinned others (Load line)).cost }
    ensures store { (h : Hierarchy) (pinned : Bool) (caches others : Caches) (line : ℕ)
        → holds h.l1d caches.core.l1d line ≡ true
        → (touched h pinned caches (Store line)).cost ≤ (touched h pinned others (Store line)).cost }
    ensures walk_read { (h : Hierarchy) (pinned : Bool) (caches others : Caches) (line : ℕ)
        → holds h.l2 caches.l2 line ≡ true
        → (touched h pinned caches (WalkRead line)).cost
        ≤ (touched h pinned others (WalkRead line)).cost }
    ensures look { (h : Hierarchy) (pinned : Bool) (caches others : Caches) (page : ℕ) (reads : List ℕ)
        (found : Bool) → holds h.tlb caches.core.tlb page ≡ true
        → (touched h pinned caches (Look page reads found)).cost
        ≤ (touched h pinned others (Look page reads found)).cost }
{}

/// What isn't touched stays on the core but for a flush: each set of the first
/// level and of the buffer in which no line or page of the touch stands, each
/// counter that no branch of the touch uses, the history where it has none, and
/// each place of the target buffer where nothing of it jumps. Emptying the
/// translation buffer changes that alone.
pub fn the_untouched_stays()
    ensures l1i { (h : Hierarchy) (pinned : Bool) (caches : Caches) (touch : Touch) (s : ℕ)
        → is_flush touch ≡ false → All (λ line. line % h.l1i.count ≢ s) (lines_in_l1i touch)
        → set_at h.l1i.ways (touched h pinned caches touch).caches.core.l1i s
        ≡ set_at h.l1i.ways caches.core.l1i s }
    ensures l1d { (h : Hierarchy) (pinned : Bool) (caches : Caches) (touch : Touch) (s : ℕ)
        → is_flush touch ≡ false → All (λ line. line % h.l1d.count ≢ s) (lines_in_l1d touch)
        → set_at h.l1d.ways (touched h pinned caches touch).caches.core.l1d s
        ≡ set_at h.l1d.ways caches.core.l1d s }
    ensures tlb { (h : Hierarchy) (pinned : Bool) (caches : Caches) (touch : Touch) (s : ℕ)
        → empties_tlb touch ≡ false → All (λ page. page % h.tlb.count ≢ s) (pages_in_tlb touch)
        → set_at h.tlb.ways (touched h pinned caches touch).caches.core.tlb s
        ≡ set_at h.tlb.ways caches.core.tlb s }
    ensures counters { (h : Hierarchy) (pinned : Bool) (caches : Caches) (touch : Touch) (place : ℕ)
        → is_flush touch ≡ false
        → All (λ pc. counter_place caches.core.guesses pc ≢ place) (branches_in touch)
        → slice_index (touched h pinned caches touch).caches.core.guesses.counters place
        ≡ slice_index caches.core.guesses.counters place }
    ensures history { (h : Hierarchy) (pinned : Bool) (caches : Caches) (touch : Touch)
        → is_flush touch ≡ false → branches_in touch ≡ []
        → (touched h pinned caches touch).caches.core.guesses.history ≡ caches.core.guesses.history }
    ensures targets { (h : Hierarchy) (pinned : Bool) (caches : Caches) (touch : Touch) (place : ℕ)
        → is_flush touch ≡ false
        → All (λ pc. target_place caches.core.guesses.targets pc ≢ place) (jumps_in touch)
        → slice_index_or (touched h pinned caches touch).caches.core.guesses.targets place None
        ≡ slice_index_or caches.core.guesses.targets place None }
{}
