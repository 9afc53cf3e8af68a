// What a core has of its own. Each call sees the core first, and hands on to
// the second level what the core doesn't hold.
ghost use Rattle.std.specs.Prelude.{◌≡◌, ◌<◌, ◌^◌, ℕ, Some, None, Ok, IfOk};
ghost use Rattle.tp_base.specs.Ranges.{IsLine};
ghost use Rattle.branch_pred.specs.Guesses.{AreSizes, fresh_guesses};
ghost use Rattle.set_cache.specs.Calls.{IsNew, IsTouch};
ghost use Rattle.tlb_model.specs.Buffer.{leaf_of};
ghost use Rattle.mem_system.specs.Geometry.{IsCache};
ghost use Rattle.sv32_walk.specs.PageTableEntry.{ppn};
ghost use Rattle.sv32_walk.specs.KeptLeaf.{end_at};
ghost use Rattle.mem_system.specs.Translation.{address_in, translated};

use crate::CacheGeometry;
use branch_pred::{Predictor, Sizes};
use cycle_cost::{Costs, ProductCosts};
use l1_cache::{L1D, L1I};
use l2_colour::L2;
use phys_mem::PhysMem;
use set_cache::{Policy, Touch};
use std::alloc::Global;
use std::marker::Model;
use sv32_walk::{Access, PageTableEntry, WalkFault, Walked, walk};
use tlb_model::Tlb;
use tp_base::{Line, Memory};

/// What an address is translated to, and what that cost.
#[derive(Clone, Copy, Debug, PartialEq, Eq)]
pub struct Translated {
    /// The physical address, or why there is none.
    pub result: Result<u32, WalkFault>,
    /// The cost, in cycles.
    pub cycles: u32,
}

/// What one core has of its own: the first-level caches, the translation
/// buffer and the branch predictor; and what all touches cost.
#[derive(Drop)]
pub struct OnCore<P: Policy> {
    costs: Costs,
    products: Option<ProductCosts>,
    pinned: bool,
    l1i: L1I<P>,
    l1d: L1D<P>,
    tlb: Tlb<P>,
    predictor: Predictor,
}

impl<P: Policy> Model for OnCore<P> {
    ghost use Rattle.std.specs.Prelude.{◌*◌, ◌≤◌, ◌^◌, length, option_map};
    ghost use Rattle.mem_system.specs.Contents.{CoreContents, coded_core};
    ghost use Rattle.mem_system.specs.Geometry.{costs_of, product_costs_of};

    ghost Value = { CoreContents P };

    ghost coded = { coded_core P.code };

    ghost view = { λ a. record {
      costs = costs_of a.costs;
      products = option_map product_costs_of a.products;
      pinned = a.pinned;
      l1i = a.l1i;
      l1d = a.l1d;
      tlb = a.tlb;
      guesses = a.predictor;
    } };

    ghost invariant = { λ a. length a.l1d.table * a.l1d.ways ≤ 2 ^ 14 };
}

impl<P: Policy> OnCore<P> {
    ghost use Rattle.std.specs.Prelude.{
      ◌≡◌,
      ◌≤◌,
      ◌<◌,
      ◌^◌,
      ◌*◌,
      ◌/◌,
      ℕ,
      IfOk,
      Some,
      None,
      false,
      is_some,
      option_map,
      map,
      take,
      slice_index,
      if◌then◌else◌,
    };
    ghost use Rattle.tp_base.specs.Table.{empty};
    ghost use Rattle.tp_base.specs.Ranges.{IsLine};
    ghost use Rattle.branch_pred.specs.Guesses.{AreSizes, fresh_guesses};
    ghost use Rattle.cycle_cost.specs.Ranges.{most_again, most_read, most_fetch, most_access, most_walk, most_look, most_guess};
    ghost use Rattle.phys_mem.specs.Mem.{Mem};
    ghost use Rattle.phys_mem.specs.Holds.{Holds};
    ghost use Rattle.sv32_walk.specs.Walk.{walk};
    ghost use Rattle.set_cache.specs.Cache.{Sets, place_of, dirty_lines};
    ghost use Rattle.set_cache.specs.Contents.{StandsFor, shape_of};
    ghost use Rattle.set_cache.specs.Lines.{place_in};
    ghost use Rattle.l2_colour.specs.Contents.{L2Contents};
    ghost use Rattle.tlb_model.specs.Buffer.{leaf_of};
    ghost use Rattle.mem_system.specs.Cost.{
      Caches,
      Fetch,
      Load,
      Store,
      WalkRead,
      Branch,
      Jump,
      EmptyTlb,
      Flush,
      Read,
      WriteBack,
      given_up,
      is_pinned,
      below,
      below_all,
    };
    ghost use Rattle.mem_system.specs.Contents.{
      system,
      hierarchy_of,
      CoreStands,
      SystemStands,
      BelowSteps,
      MakesTouch,
    };
    ghost use Rattle.mem_system.specs.Geometry.{IsCache, shape_by, costs_of, product_costs_of};
    ghost use Rattle.mem_system.specs.Translation.{KeepsLeaves, look_of, lines_of, translated};

    /// A core whose caches hold nothing.
    ///
    /// # Errors
    ///
    /// `Memory`, where memory ran out.
    pub fn new(
        alloc: Global,
        predictor: Sizes,
        l1i: CacheGeometry<P>,
        l1d: CacheGeometry<P>,
        tlb: CacheGeometry<P>,
        costs: Costs,
        products: Option<ProductCosts>,
        pinned: bool,
    ) -> Result<Self, Memory>
        requires predictor { AreSizes predictor }
        requires l1i { IsCache P.takes l1i }
        requires l1d { IsCache P.takes l1d }
        requires tlb { IsCache P.takes tlb }
        requires dirty { l1d.sets * l1d.ways ≤ 2 ^ 14 }
        ensures costs { IfOk result (λ core. core.costs ≡ costs_of costs) }
        ensures products { IfOk result (λ core. core.products ≡ option_map product_costs_of products) }
        ensures pinned { IfOk result (λ core. core.pinned ≡ pinned) }
        ensures l1i { IfOk result (λ core. shape_of P.rule core.l1i ≡ shape_by P.rule l1i) }
        ensures l1d { IfOk result (λ core. shape_of P.rule core.l1d ≡ shape_by P.rule l1d) }
        ensures tlb { IfOk result (λ core. shape_of P.rule core.tlb.pages ≡ shape_by P.rule tlb) }
        ensures fresh { IfOk result (λ core. CoreStands P.stands_for core
            (record { l1i = empty; l1d = empty; tlb = empty; guesses = fresh_guesses predictor })) }
        ensures kept { IfOk result (λ core. (mem : Mem) (frames root : ℕ)
            → KeepsLeaves mem frames root core.tlb) }
    {
        let guides = new_guides(alloc, predictor, tlb);
        let ((predictor, tlb), (l1i, l1d)) = both(guides, new_first_level(alloc, l1i, l1d))?;
        Ok(OnCore {
            costs,
            products,
            pinned,
            l1i,
            l1d,
            tlb,
            predictor,
        })
    }

    /// What each event costs, in cycles.
    pub fn costs(&self) -> Costs
        ensures table { costs_of result ≡ self.now.costs }
    {
        self.costs
    }

    /// What products and divisions cost, in cycles; `None` where the core makes none.
    pub fn products(&self) -> Option<ProductCosts>
        ensures table { option_map product_costs_of result ≡ self.now.products }
    {
        self.products
    }

    /// Whether a line counts as always there at the second level.
    #[tactic(auto, unfolding(crate::specs::Hierarchy::colour_of_line))]
    #[inline(always)]
    fn is_pinned(&self, l2: &L2<P>, line: Line) -> bool
        ensures value { result
            ≡ is_pinned (hierarchy_of P.rule (system self.now l2.now)) self.now.pinned line }
    {
        self.pinned && l2.colour_of_line(line) == 0
    }

    /// The cost of a read of a line at the second level.
    fn below(&self, l2: &mut L2<P>, line: Line) -> u32
        ensures same { hierarchy_of P.rule (system self.now l2.new)
            ≡ hierarchy_of P.rule (system self.now l2.old) }
        ensures few { result ≤ most_read }
        ensures steps { (sets : Sets) → StandsFor P.stands_for l2.old.cache sets
            → BelowSteps P.stands_for result l2.new
            (below (hierarchy_of P.rule (system self.now l2.old)) self.now.pinned sets (Read line)) }
    {
        if self.is_pinned(l2, line) || l2.find(line) {
            return self.costs.l2;
        }
        self.below_absent(l2, line)
    }

    /// The cost of a read of a line that the second level doesn't hold. It is worked
    /// apart, so that a read of one that it holds saves no registers for it.
    #[inline(never)]
    fn below_absent(&self, l2: &mut L2<P>, line: Line) -> u32
        requires absent { place_in l2.old.cache line ≡ None }
        requires counts { is_pinned (hierarchy_of P.rule (system self.now l2.old)) self.now.pinned line ≡ false }
        ensures same { hierarchy_of P.rule (system self.now l2.new)
            ≡ hierarchy_of P.rule (system self.now l2.old) }
        ensures few { result ≤ most_read }
        ensures steps { (sets : Sets) → StandsFor P.stands_for l2.old.cache sets
            → BelowSteps P.stands_for result l2.new
            (below (hierarchy_of P.rule (system self.now l2.old)) self.now.pinned sets (Read line)) }
    {
        let found = l2.touch_absent(line);
        if found.dirty_victim {
            return self.costs.l2 + self.costs.mem + self.costs.wb;
        }
        self.costs.l2 + self.costs.mem
    }

    /// The write-back of a dirty line that the core gives up.
    #[tactic(auto, unfolding(crate::specs::Cost::below))]
    #[inline(always)]
    fn write_back(&self, l2: &mut L2<P>, line: Line)
        ensures same { hierarchy_of P.rule (system self.now l2.new)
            ≡ hierarchy_of P.rule (system self.now l2.old) }
        ensures steps { (sets : Sets) → StandsFor P.stands_for l2.old.cache sets
            → BelowSteps P.stands_for 0 l2.new
            (below (hierarchy_of P.rule (system self.now l2.old)) self.now.pinned sets (WriteBack line)) }
    {
        // The rest is worked apart, so that a touch saves no registers for it.
        if l2.back() {
            self.mark_below(l2, line);
        }
    }

    /// The write-back of a dirty line into a second level that takes them.
    #[tactic(auto, unfolding(crate::specs::Cost::below))]
    #[inline(never)]
    fn mark_below(&self, l2: &mut L2<P>, line: Line)
        ensures same { hierarchy_of P.rule (system self.now l2.new)
            ≡ hierarchy_of P.rule (system self.now l2.old) }
        ensures steps { (sets : Sets) → StandsFor P.stands_for l2.old.cache sets
            → BelowSteps P.stands_for 0 l2.new
            (below (hierarchy_of P.rule (system self.now l2.old)) self.now.pinned sets (WriteBack line)) }
    {
        if !self.is_pinned(l2, line) {
            l2.write_back(line);
        }
    }

    /// The cost of what a touch of the first level gave up, which is written back if it is dirty.
    #[tactic(auto, unfolding(crate::specs::Cost::below_all))]
    #[inline(always)]
    fn give_up(&self, l2: &mut L2<P>, found: Touch) -> u32
        requires fits { (victim : ℕ) → found.victim ≡ Some victim → IsLine victim }
        ensures same { hierarchy_of P.rule (system self.now l2.new)
            ≡ hierarchy_of P.rule (system self.now l2.old) }
        ensures few { result ≤ most_again }
        ensures cost { result ≡ if found.dirty_victim then self.now.costs.wb else 0 }
        ensures steps { (sets : Sets) → StandsFor P.stands_for l2.old.cache sets
            → BelowSteps P.stands_for 0 l2.new
            (below_all (hierarchy_of P.rule (system self.now l2.old)) self.now.pinned sets
            (given_up found.victim found.dirty_victim)) }
    {
        if !found.dirty_victim {
            return 0;
        }
        if let Some(victim) = found.victim {
            self.write_back(l2, Line::new(victim));
        }
        self.costs.wb
    }

    /// The cost of a fetch from a line.
    #[inline(always)]
    pub fn fetch(&mut self, l2: &mut L2<P>, line: Line) -> u32
        ensures few { result ≤ most_fetch }
        ensures makes { MakesTouch P.rule P.stands_for (Fetch line) result
            (system self.old l2.old) (system self.new l2.new) }
        ensures buffer { self.new.tlb ≡ self.old.tlb }
    {
        if self.l1i.fetch(line) {
            return self.costs.l1;
        }
        self.costs.l1 + self.below(l2, line)
    }

    /// The cost of a load from a line, or of a store to it.
    #[inline(always)]
    pub fn access(&mut self, l2: &mut L2<P>, line: Line, store: bool) -> u32
        ensures few { result ≤ most_access }
        ensures makes { MakesTouch P.rule P.stands_for (if store then Store line else Load line) result
            (system self.old l2.old) (system self.new l2.new) }
        ensures buffer { self.new.tlb ≡ self.old.tlb }
    {
        let found = touch_data(&mut self.l1d, line, store);
        if found.hit {
            return self.costs.l1;
        }
        // What is given up is written back before the line is read.
        let given_up = self.give_up(l2, found);
        self.costs.l1 + given_up + self.below(l2, line)
    }

    /// The cost of a walk's read of an entry in a line.
    #[tactic(auto, unfolding(crate::specs::Cost::touched, crate::specs::Cost::on_core, crate::specs::Cost::pass_on, crate::specs::Cost::below_all))]
    pub fn walk_read(&self, l2: &mut L2<P>, line: Line) -> u32
        ensures few { result ≤ most_read }
        ensures makes { MakesTouch P.rule P.stands_for (WalkRead line) result
            (system self.now l2.old) (system self.now l2.new) }
    {
        self.below(l2, line)
    }

    /// The cost of a branch at a pc, which is taken or not, with the address to
    /// which it goes if it is.
    #[tactic(auto, unfolding(crate::specs::Cost::touched, crate::specs::Cost::on_core, crate::specs::Cost::branched, crate::specs::Cost::guessed, crate::specs::Cost::pass_on, crate::specs::Cost::below_all))]
    #[inline(always)]
    pub fn branch(&mut self, pc: u32, taken: bool, target: u32) -> u32
        ensures few { result ≤ most_guess }
        ensures makes { (l2 : L2Contents P)
            → MakesTouch P.rule P.stands_for (Branch pc taken target) result
            (system self.old l2) (system self.new l2) }
        ensures buffer { self.new.tlb ≡ self.old.tlb }
    {
        if self.predictor.branch(pc, taken, target) {
            self.costs.mispredict
        } else {
            0
        }
    }

    /// The cost of a jump at a pc, to a target.
    #[tactic(auto, unfolding(crate::specs::Cost::touched, crate::specs::Cost::on_core, crate::specs::Cost::jumped, crate::specs::Cost::guessed, crate::specs::Cost::pass_on, crate::specs::Cost::below_all))]
    #[inline(always)]
    pub fn jump(&mut self, pc: u32, target: u32) -> u32
        ensures few { result ≤ most_guess }
        ensures makes { (l2 : L2Contents P)
            → MakesTouch P.rule P.stands_for (Jump pc target) result
            (system self.old l2) (system self.new l2) }
        ensures buffer { self.new.tlb ≡ self.old.tlb }
    {
        if self.predictor.jump(pc, target) {
            self.costs.mispredict
        } else {
            0
        }
    }

    /// Empties the translation buffer, at no cost.
    #[tactic(auto, unfolding(crate::specs::Cost::touched, crate::specs::Cost::on_core, crate::specs::Cost::pass_on, crate::specs::Cost::below_all))]
    pub fn empty_tlb(&mut self)
        ensures kept { (mem : Mem) (frames root : ℕ) → KeepsLeaves mem frames root self.new.tlb }
        ensures makes { (l2 : L2Contents P)
            → MakesTouch P.rule P.stands_for EmptyTlb 0 (system self.old l2) (system self.new l2) }
    {
        self.tlb.flush();
    }

    /// Makes everything on the core fresh, after the dirty lines are written
    /// back; the cost of it.
    pub fn flush(&mut self, l2: &mut L2<P>) -> u32
        ensures kept { (mem : Mem) (frames root : ℕ) → KeepsLeaves mem frames root self.new.tlb }
        ensures makes { MakesTouch P.rule P.stands_for Flush result
            (system self.old l2.old) (system self.new l2.new) }
    {
        self.write_all_back(l2);
        let dirty = self.l1d.flush();
        self.l1i.flush();
        self.tlb.flush();
        self.predictor.reset();
        self.costs.flush + self.costs.wb * dirty
    }

    /// The write-back of each dirty line, in the order of their places.
    fn write_all_back(&self, l2: &mut L2<P>)
        ensures same { hierarchy_of P.rule (system self.now l2.new)
            ≡ hierarchy_of P.rule (system self.now l2.old) }
        ensures steps { (caches : Caches) → SystemStands P.stands_for (system self.now l2.old) caches
            → BelowSteps P.stands_for 0 l2.new
            (below_all (hierarchy_of P.rule (system self.now l2.old)) self.now.pinned caches.l2
            (map WriteBack (dirty_lines (shape_of P.rule self.now.l1d) caches.core.l1d))) }
    {
        if !l2.back() {
            return;
        }
        let mut left = self.l1d.dirty();
        for place in 0..self.l1d.places() {
            if left == 0 {
                return;
            }
            if let Some(line) = self.l1d.dirty_at(place) {
                self.write_back(l2, line);
                left -= 1;
            }
        }
    }

    /// The cost of the reads that a walk made.
    fn read_entries(&self, l2: &mut L2<P>, walked: &Walked) -> u32
        requires two { walked.now.count ≤ 2 }
        requires small { (i : ℕ) → i < walked.now.count → slice_index walked.now.reads i < 2 ^ 27 }
        ensures same { hierarchy_of P.rule (system self.now l2.new)
            ≡ hierarchy_of P.rule (system self.now l2.old) }
        ensures few { result ≤ most_walk }
        ensures steps { (sets : Sets) → StandsFor P.stands_for l2.old.cache sets
            → BelowSteps P.stands_for result l2.new
            (below_all (hierarchy_of P.rule (system self.now l2.old)) self.now.pinned sets
            (map Read (lines_of l2.old.line_size (take walked.now.count walked.now.reads)))) }
    {
        if walked.count == 0 {
            return 0;
        }
        let first = self.below(l2, l2.line_of(walked.reads[0]));
        if walked.count == 1 {
            return first;
        }
        first + self.below(l2, l2.line_of(walked.reads[1]))
    }

    /// The translation of an address whose page the buffer doesn't hold: by a
    /// walk, whose leaf is kept where it finds one.
    #[inline(never)]
    fn walk_and_fill(
        &mut self,
        l2: &mut L2<P>,
        mem: &PhysMem,
        root: u32,
        va: u32,
        access: Access,
    ) -> Translated
        requires frames { mem.now.frames ≤ 2 ^ 15 }
        requires missing { leaf_of self.old.tlb (va / 4096) ≡ None }
        requires absent { (sets : Sets) → StandsFor P.stands_for self.old.tlb.pages sets
            → is_some (place_of (shape_of P.rule self.old.tlb.pages) sets (va / 4096)) ≡ false }
        ensures few { result.cycles ≤ most_look }
        ensures kept { (m : Mem) → Holds mem.now m → KeepsLeaves m mem.now.frames root self.old.tlb
            → KeepsLeaves m mem.now.frames root self.new.tlb }
        ensures result { (m : Mem) → Holds mem.now m
            → result.result ≡ translated va (walk m mem.now.frames root va access).result }
        ensures makes { (m : Mem) → Holds mem.now m
            → MakesTouch P.rule P.stands_for
            (look_of l2.old.line_size va (walk m mem.now.frames root va access))
            result.cycles (system self.old l2.old) (system self.new l2.new) }
    {
        let walked = walk(mem, root, va, access);
        let cycles = self.costs.tlb + self.read_entries(l2, &walked);
        match walked.result {
            Ok(leaf) => {
                self.tlb.fill(va / 4096, leaf);
                Translated {
                    result: Ok(address_in(leaf, va)),
                    cycles,
                }
            }
            Err(fault) => Translated {
                result: Err(fault),
                cycles,
            },
        }
    }

    /// The same. It is a call of its own, so that the room for the answer is
    /// made where the walk is, and not at each hit.
    #[inline(always)]
    fn missed(
        &mut self,
        l2: &mut L2<P>,
        mem: &PhysMem,
        root: u32,
        va: u32,
        access: Access,
    ) -> Translated
        requires frames { mem.now.frames ≤ 2 ^ 15 }
        requires missing { leaf_of self.old.tlb (va / 4096) ≡ None }
        requires absent { (sets : Sets) → StandsFor P.stands_for self.old.tlb.pages sets
            → is_some (place_of (shape_of P.rule self.old.tlb.pages) sets (va / 4096)) ≡ false }
        ensures few { result.cycles ≤ most_look }
        ensures kept { (m : Mem) → Holds mem.now m → KeepsLeaves m mem.now.frames root self.old.tlb
            → KeepsLeaves m mem.now.frames root self.new.tlb }
        ensures result { (m : Mem) → Holds mem.now m
            → result.result ≡ translated va (walk m mem.now.frames root va access).result }
        ensures makes { (m : Mem) → Holds mem.now m
            → MakesTouch P.rule P.stands_for
            (look_of l2.old.line_size va (walk m mem.now.frames root va access))
            result.cycles (system self.old l2.old) (system self.new l2.new) }
    {
        self.walk_and_fill(l2, mem, root, va, access)
    }

    /// The physical address of a virtual one for an access from user mode, by
    /// the tables whose root is in a frame, and the cost of the look-up. Where
    /// the buffer holds the page its kept leaf answers, and no walk is made.
    ///
    /// Each kept leaf is the one that its walk finds in this memory from this
    /// root: what every clause but the cost's bound asks, and what is so again
    /// after the call. What changes memory or the root has to keep that or to
    /// empty the buffer.
    #[inline(always)]
    pub fn translate(
        &mut self,
        l2: &mut L2<P>,
        mem: &PhysMem,
        root: u32,
        va: u32,
        access: Access,
    ) -> Translated
        requires frames { mem.now.frames ≤ 2 ^ 15 }
        ensures few { result.cycles ≤ most_look }
        ensures kept { (m : Mem) → Holds mem.now m → KeepsLeaves m mem.now.frames root self.old.tlb
            → KeepsLeaves m mem.now.frames root self.new.tlb }
        ensures result { (m : Mem) → Holds mem.now m → KeepsLeaves m mem.now.frames root self.old.tlb
            → result.result ≡ translated va (walk m mem.now.frames root va access).result }
        ensures within { (m : Mem) → Holds mem.now m → KeepsLeaves m mem.now.frames root self.old.tlb
            → IfOk result.result (λ at. at / 4096 < mem.now.frames) }
        ensures makes { (m : Mem) → Holds mem.now m → KeepsLeaves m mem.now.frames root self.old.tlb
            → MakesTouch P.rule P.stands_for
            (look_of l2.old.line_size va (walk m mem.now.frames root va access))
            result.cycles (system self.old l2.old) (system self.new l2.new) }
    {
        match self.tlb.find(va / 4096) {
            Some(leaf) => Translated {
                result: at_leaf(leaf, va, access),
                cycles: self.costs.tlb,
            },
            None => self.missed(l2, mem, root, va, access),
        }
    }
}

/// Two parts, where both could be made. (Handed on as it is, a `Result` is nothing
/// that a caller would have to drop.)
pub fn both<A: Drop, B: Drop>(
    first: Result<A, Memory>,
    second: Result<B, Memory>,
) -> Result<(A, B), Memory>
    ensures first { IfOk result (λ made. first ≡ Ok made.0) }
    ensures second { IfOk result (λ made. second ≡ Ok made.1) }
{
    let first = first?;
    Ok((first, second?))
}

// A predictor and a translation buffer that hold nothing. They are made apart from
// the caches, so that what is made first is given back at few places.
fn new_guides<P: Policy>(
    alloc: Global,
    predictor: Sizes,
    tlb: CacheGeometry<P>,
) -> Result<(Predictor, Tlb<P>), Memory>
    requires predictor { AreSizes predictor }
    requires tlb { IsCache P.takes tlb }
    ensures predictor { IfOk result (λ made. made.0 ≡ fresh_guesses predictor) }
    ensures tlb { IfOk result (λ made. IsNew P.takes P.stands_for tlb.policy tlb.sets tlb.ways made.1.pages) }
    ensures none { IfOk result (λ made. (page : ℕ) → leaf_of made.1 page ≡ None) }
{
    both(
        Predictor::new(alloc, predictor),
        Tlb::new(alloc, tlb.policy, tlb.sets, tlb.ways),
    )
}

// The caches of the first level, which hold nothing.
fn new_first_level<P: Policy>(
    alloc: Global,
    l1i: CacheGeometry<P>,
    l1d: CacheGeometry<P>,
) -> Result<(L1I<P>, L1D<P>), Memory>
    requires l1i { IsCache P.takes l1i }
    requires l1d { IsCache P.takes l1d }
    ensures l1i { IfOk result (λ made. IsNew P.takes P.stands_for l1i.policy l1i.sets l1i.ways made.0) }
    ensures l1d { IfOk result (λ made. IsNew P.takes P.stands_for l1d.policy l1d.sets l1d.ways made.1) }
{
    both(
        L1I::new(alloc, l1i.policy, l1i.sets, l1i.ways),
        L1D::new(alloc, l1d.policy, l1d.sets, l1d.ways),
    )
}

// A load from a line, or a store to it, and the line that was given up for it.
#[inline(always)]
fn touch_data<P: Policy>(l1d: &mut L1D<P>, line: Line, store: bool) -> Touch
    ensures touch { IsTouch P.takes P.rule P.stands_for result line store l1d.old l1d.new }
    ensures victim { (victim : ℕ) → result.victim ≡ Some victim → IsLine victim }
{
    if store {
        l1d.store(line)
    } else {
        l1d.load(line)
    }
}

/// The physical address of a virtual one in the page of a leaf.
#[tactic(auto, unfolding(sv32_walk::specs::PageTableEntry::ppn))]
fn address_in(leaf: u32, va: u32) -> u32
    ensures address { ppn leaf < 2 ^ 20 → result ≡ address_in leaf va }
{
    ((leaf >> 10) << 12) + (va & 0xfff)
}

/// What an access comes to at a page whose leaf is known.
fn at_leaf(leaf: u32, va: u32, access: Access) -> Result<u32, WalkFault>
    ensures end { ppn leaf < 2 ^ 20 → result ≡ translated va (end_at access leaf) }
{
    if PageTableEntry(leaf).permits(access) {
        Ok(address_in(leaf, va))
    } else {
        Err(WalkFault::Page)
    }
}
