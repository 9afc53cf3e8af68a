// A core over a second level of its own.
ghost use Rattle.std.specs.Prelude.{◌≡◌, ℕ, IfOk};
ghost use Rattle.phys_mem.specs.Mem.{Mem};
ghost use Rattle.mem_system.specs.Cost.{cold};
ghost use Rattle.mem_system.specs.Contents.{system, SystemStands, hierarchy_of};
ghost use Rattle.mem_system.specs.Geometry.{IsGeometry, hierarchy_by};
ghost use Rattle.mem_system.specs.Translation.{KeepsLeaves};

use crate::on_core::both;
use crate::{CacheGeometry, Geometry, OnCore, Translated};
use cycle_cost::{Costs, ProductCosts};
use l2_colour::L2;
use phys_mem::PhysMem;
use set_cache::Policy;
use std::alloc::Global;
use std::marker::Model;
use sv32_walk::Access;
use tp_base::{Line, Memory};

/// The memory hierarchy of a machine of one core. Each call is one touch: it
/// answers the cost in cycles, and leaves the caches as the touch does.
#[derive(Drop)]
pub struct MemSystem<P: Policy> {
    core: OnCore<P>,
    l2: L2<P>,
}

impl<P: Policy> Model for MemSystem<P> {
    ghost use Rattle.mem_system.specs.Contents.{SystemContents, coded_system};

    ghost Value = { SystemContents P };

    ghost coded = { coded_system P.code };

    ghost view = { λ a. record { core = a.core; l2 = a.l2 } };
}

impl<P: Policy> MemSystem<P> {
    ghost use Rattle.std.specs.Prelude.{◌≡◌, ◌≤◌, ◌<◌, ◌^◌, ◌/◌, ℕ, IfOk, if◌then◌else◌, option_map};
    ghost use Rattle.phys_mem.specs.Mem.{Mem};
    ghost use Rattle.phys_mem.specs.Holds.{Holds};
    ghost use Rattle.sv32_walk.specs.Walk.{walk};
    ghost use Rattle.mem_system.specs.Cost.{cold, Fetch, Load, Store, WalkRead, Branch, Jump, EmptyTlb, Flush};
    ghost use Rattle.mem_system.specs.Contents.{MakesTouch, SystemStands, hierarchy_of};
    ghost use Rattle.cycle_cost.specs.Ranges.{most_read, most_fetch, most_access, most_look, most_guess};
    ghost use Rattle.mem_system.specs.Geometry.{IsGeometry, hierarchy_by, costs_of, product_costs_of};
    ghost use Rattle.mem_system.specs.Translation.{KeepsLeaves, look_of, translated};

    /// A hierarchy that holds nothing. `products`: what products and divisions
    /// cost, where the core makes them. `pinned`: at the second level the lines
    /// of colour 0 count as always there, and change nothing.
    ///
    /// # Errors
    ///
    /// `Memory`, where memory ran out.
    pub fn new(
        alloc: Global,
        geometry: Geometry<P>,
        costs: Costs,
        products: Option<ProductCosts>,
        pinned: bool,
    ) -> Result<Self, Memory>
        requires geometry { IsGeometry P.takes geometry }
        ensures hierarchy { IfOk result (λ system.
            hierarchy_of P.rule system ≡ hierarchy_by P.rule geometry costs products) }
        ensures pinned { IfOk result (λ system. system.core.pinned ≡ pinned) }
        ensures cold { IfOk result (λ system.
            SystemStands P.stands_for system (cold (hierarchy_by P.rule geometry costs products))) }
        ensures kept { IfOk result (λ system.
            (mem : Mem) (frames root : ℕ) → KeepsLeaves mem frames root system.core.tlb) }
    {
        let (core, l2) = new_parts(alloc, geometry, costs, products, pinned)?;
        Ok(MemSystem { core, l2 })
    }

    /// A fetch from a line.
    #[inline(always)]
    pub fn fetch(&mut self, line: Line) -> u32
        ensures few { result ≤ most_fetch }
        ensures makes { MakesTouch P.rule P.stands_for (Fetch line) result self.old self.new }
        ensures buffer { self.new.core.tlb ≡ self.old.core.tlb }
    {
        self.core.fetch(&mut self.l2, line)
    }

    /// A load from a line, or a store to it.
    #[inline(always)]
    pub fn access(&mut self, line: Line, store: bool) -> u32
        ensures few { result ≤ most_access }
        ensures makes { MakesTouch P.rule P.stands_for (if store then Store line else Load line) result
            self.old self.new }
        ensures buffer { self.new.core.tlb ≡ self.old.core.tlb }
    {
        self.core.access(&mut self.l2, line, store)
    }

    /// A walk's read of an entry in a line, past the first level.
    pub fn walk_read(&mut self, line: Line) -> u32
        ensures few { result ≤ most_read }
        ensures makes { MakesTouch P.rule P.stands_for (WalkRead line) result self.old self.new }
        ensures buffer { self.new.core.tlb ≡ self.old.core.tlb }
    {
        self.core.walk_read(&mut self.l2, line)
    }

    /// A branch at a pc, which is taken or not, with the address to which it
    /// goes if it is.
    #[inline(always)]
    pub fn branch(&mut self, pc: u32, taken: bool, target: u32) -> u32
        ensures few { result ≤ most_guess }
        ensures makes { MakesTouch P.rule P.stands_for (Branch pc taken target) result self.old self.new }
        ensures buffer { self.new.core.tlb ≡ self.old.core.tlb }
    {
        self.core.branch(pc, taken, target)
    }

    /// A jump at a pc, to a target.
    #[inline(always)]
    pub fn jump(&mut self, pc: u32, target: u32) -> u32
        ensures few { result ≤ most_guess }
        ensures makes { MakesTouch P.rule P.stands_for (Jump pc target) result self.old self.new }
        ensures buffer { self.new.core.tlb ≡ self.old.core.tlb }
    {
        self.core.jump(pc, target)
    }

    /// The physical address of a virtual one for an access from user mode, by
    /// the tables whose root is in a frame, and the cost of the look-up. Where
    /// the buffer holds the page its kept leaf answers, and no walk is made.
    ///
    /// Each kept leaf is the one that its walk finds in this memory from this
    /// root: what every clause but the cost's bound asks, and what is so again
    /// after the call. What changes memory or the root has to keep that or to
    /// empty the buffer.
    #[inline(always)]
    pub fn translate(&mut self, mem: &PhysMem, root: u32, va: u32, access: Access) -> Translated
        requires frames { mem.now.frames ≤ 2 ^ 15 }
        ensures few { result.cycles ≤ most_look }
        ensures kept { (m : Mem) → Holds mem.now m → KeepsLeaves m mem.now.frames root self.old.core.tlb
            → KeepsLeaves m mem.now.frames root self.new.core.tlb }
        ensures result { (m : Mem) → Holds mem.now m → KeepsLeaves m mem.now.frames root self.old.core.tlb
            → result.result ≡ translated va (walk m mem.now.frames root va access).result }
        ensures within { (m : Mem) → Holds mem.now m → KeepsLeaves m mem.now.frames root self.old.core.tlb
            → IfOk result.result (λ at. at / 4096 < mem.now.frames) }
        ensures makes { (m : Mem) → Holds mem.now m → KeepsLeaves m mem.now.frames root self.old.core.tlb
            → MakesTouch P.rule P.stands_for
            (look_of self.old.l2.line_size va (walk m mem.now.frames root va access))
            result.cycles self.old self.new }
    {
        self.core.translate(&mut self.l2, mem, root, va, access)
    }

    /// Empties the translation buffer, at no cost: no leaf is kept then.
    pub fn empty_tlb(&mut self)
        ensures kept { (mem : Mem) (frames root : ℕ) → KeepsLeaves mem frames root self.new.core.tlb }
        ensures makes { MakesTouch P.rule P.stands_for EmptyTlb 0 self.old self.new }
    {
        self.core.empty_tlb();
    }

    /// Makes everything on the core fresh, after the dirty lines are written
    /// back; no line moves in the second level.
    pub fn flush(&mut self) -> u32
        ensures kept { (mem : Mem) (frames root : ℕ) → KeepsLeaves mem frames root self.new.core.tlb }
        ensures makes { MakesTouch P.rule P.stands_for Flush result self.old self.new }
    {
        self.core.flush(&mut self.l2)
    }

    /// The line of an address below 2^27.
    #[inline(always)]
    pub fn line_of(&self, at: u32) -> Line
        requires small { at < 2 ^ 27 }
        ensures line { result ≡ at / self.now.l2.line_size }
    {
        self.l2.line_of(at)
    }

    /// What each event costs, in cycles: the costs that it was made with.
    pub fn costs(&self) -> Costs
        ensures table { costs_of result ≡ self.now.core.costs }
    {
        self.core.costs()
    }

    /// What products and divisions cost, in cycles; `None` where the core makes none.
    pub fn products(&self) -> Option<ProductCosts>
        ensures table { option_map product_costs_of result ≡ self.now.core.products }
    {
        self.core.products()
    }
}

/// A core and a second level under it that hold nothing, as `MemSystem::new` has them.
///
/// # Errors
///
/// `Memory`, where memory ran out.
pub fn new_parts<P: Policy>(
    alloc: Global,
    geometry: Geometry<P>,
    costs: Costs,
    products: Option<ProductCosts>,
    pinned: bool,
) -> Result<(OnCore<P>, L2<P>), Memory>
    requires geometry { IsGeometry P.takes geometry }
    ensures hierarchy { IfOk result (λ made. hierarchy_of P.rule (system made.0 made.1)
        ≡ hierarchy_by P.rule geometry costs products) }
    ensures pinned { IfOk result (λ made. made.0.pinned ≡ pinned) }
    ensures cold { IfOk result (λ made. SystemStands P.stands_for (system made.0 made.1)
        (cold (hierarchy_by P.rule geometry costs products))) }
    ensures kept { IfOk result (λ made.
        (mem : Mem) (frames root : ℕ) → KeepsLeaves mem frames root made.0.tlb) }
{
    let Geometry {
        line_size,
        back,
        predictor,
        l1i,
        l1d,
        l2,
        tlb,
    } = geometry;
    let CacheGeometry { policy, sets, ways } = l2;
    let l2 = L2::new(alloc, line_size, policy, sets, ways, back);
    let core = OnCore::new(alloc, predictor, l1i, l1d, tlb, costs, products, pinned);
    both(core, l2)
}
