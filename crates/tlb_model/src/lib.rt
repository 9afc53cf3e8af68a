//! A translation buffer: a set-associative store of page numbers, each with
//! the leaf word that a walk found for it.
#![tactic(auto)]

use set_cache::{Policy, SetCache};
use std::alloc::Global;
use std::marker::Model;
use tp_base::Memory;

/// A translation buffer for fetches and data alike. A page stands in the set
/// of its number by the number of sets.
#[derive(Drop)]
pub struct Tlb<P: Policy> {
    pages: SetCache<P>,
    leaves: Vec<u32>,
}

impl<P: Policy> Model for Tlb<P> {
    ghost use Rattle.std.specs.Prelude.{◌≡◌, ◌*◌, length};
    ghost use Rattle.tlb_model.specs.Buffer.{Buffer, coded_buffer};

    ghost Value = { Buffer P };

    ghost coded = { coded_buffer P.code };

    ghost view = { λ a. record { pages = a.pages; leaves = a.leaves.items } };

    ghost invariant = { λ a. length a.leaves.items ≡ length a.pages.table * a.pages.ways };
}

impl<P: Policy> Tlb<P> {
    ghost use Rattle.std.specs.Prelude.{◌≡◌, ◌≢◌, ℕ, Some, None, is_some, IfOk, IfNone};
    ghost use Rattle.tp_base.specs.Table.{empty};
    ghost use Rattle.set_cache.specs.Cache.{Sets, place_of};
    ghost use Rattle.set_cache.specs.Contents.{StandsFor, SameShape, shape_of};
    ghost use Rattle.set_cache.specs.Calls.{IsGeometry, IsNew};
    ghost use Rattle.tlb_model.specs.Buffer.{leaf_of, found_of, filled_of};

    /// A buffer that keeps no page.
    ///
    /// # Errors
    ///
    /// `Memory`, where memory ran out.
    pub fn new(alloc: Global, policy: P, sets: u32, ways: u32) -> Result<Self, Memory>
        requires geometry { IsGeometry (P.takes policy) sets ways }
        ensures made { IfOk result (λ tlb. IsNew P.takes P.stands_for policy sets ways tlb.pages) }
        ensures none { IfOk result (λ tlb. (page : ℕ) → leaf_of tlb page ≡ None) }
    {
        Tlb::new_at(alloc, policy, sets, ways, 1)
    }

    /// A buffer that keeps no page, whose `SetCache` is in this epoch.
    ///
    /// # Errors
    ///
    /// `Memory`, where memory ran out.
    pub fn new_at(
        alloc: Global,
        policy: P,
        sets: u32,
        ways: u32,
        epoch: u32,
    ) -> Result<Self, Memory>
        requires geometry { IsGeometry (P.takes policy) sets ways }
        requires counts { epoch ≢ 0 }
        ensures made { IfOk result (λ tlb. IsNew P.takes P.stands_for policy sets ways tlb.pages) }
        ensures none { IfOk result (λ tlb. (page : ℕ) → leaf_of tlb page ≡ None) }
        ensures epoch { IfOk result (λ tlb. tlb.pages.epoch ≡ epoch) }
    {
        Ok(Tlb {
            pages: SetCache::new_at(alloc, policy, sets, ways, epoch)?,
            leaves: vec![in alloc; 0; (sets * ways) as usize]?,
        })
    }

    /// The leaf word that is kept for a page, where it is here: a touch then.
    /// A look-up that misses changes nothing.
    #[inline(always)]
    pub fn find(&mut self, page: u32) -> Option<u32>
        ensures leaf { result ≡ leaf_of self.old page }
        ensures missed { IfNone result (self.new ≡ self.old) }
        ensures kept { (other : ℕ) → leaf_of self.new other ≡ leaf_of self.old other }

        // In the table of sets it is the definition's look-up.
        ensures shape { SameShape self.old.pages self.new.pages }
        ensures found { (sets : Sets) → StandsFor P.stands_for self.old.pages sets
            → is_some result ≡ is_some (place_of (shape_of P.rule self.old.pages) sets page) }
        ensures step { (sets : Sets) → StandsFor P.stands_for self.old.pages sets
            → StandsFor P.stands_for self.new.pages (found_of (shape_of P.rule self.old.pages) sets page) }
    {
        let place = self.pages.find(page)?;
        Some(self.leaves[place as usize])
    }

    /// Keeps the leaf word of a page that isn't here. What is kept for another
    /// page then was kept for it before.
    pub fn fill(&mut self, page: u32, leaf: u32)
        requires missing { leaf_of self.old page ≡ None }
        ensures filled { leaf_of self.new page ≡ Some leaf }
        ensures others { (other word : ℕ) → other ≢ page
            → leaf_of self.new other ≡ Some word → leaf_of self.old other ≡ Some word }
        ensures shape { SameShape self.old.pages self.new.pages }
        ensures step { (sets : Sets) → StandsFor P.stands_for self.old.pages sets
            → StandsFor P.stands_for self.new.pages (filled_of (shape_of P.rule self.old.pages) sets page) }
    {
        self.pages.touch_absent(page, false);
        let place = self.pages.place_of(page).unwrap();
        self.leaves[place as usize] = leaf;
    }

    /// Empties the buffer, its policy states too, and answers 0, since nothing
    /// is written back.
    #[inline(always)]
    pub fn flush(&mut self) -> u32
        ensures zero { result ≡ 0 }
        ensures none { (page : ℕ) → leaf_of self.new page ≡ None }
        ensures shape { SameShape self.old.pages self.new.pages }
        ensures fresh { StandsFor P.stands_for self.new.pages empty }
    {
        self.pages.flush();
        0
    }
}
