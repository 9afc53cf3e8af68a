//! Laws of the definitions: what a caller may rely on after each call. The
//! premises are the conditions of the call, and that it is not refused; a law
//! of walks in other pages asks besides that no table is installed twice.
ghost use Rattle.std.specs.Prelude.{◌≡◌, ◌≢◌, ℕ, ◌/◌, ◌<◌, Bool, true, false, All, Ok, Err};
ghost use Rattle.tp_base.specs.Table.{empty};
ghost use Rattle.phys_mem.specs.Mem.{Mem, word};
ghost use Rattle.sv32_walk.specs.declared.access.Access.{Access};
ghost use Rattle.sv32_walk.specs.PageTableEntry.{ppn, rights_permit, leaf_word};
ghost use Rattle.sv32_walk.specs.Walk.{walk};
ghost use Rattle.page_map.specs.Tables.{IsPageMap, TablesOnce, IsNoTable, IsBlank, has_table, has_page};
ghost use Rattle.page_map.specs.Reached.{IsIn, PagesIn, ReachesIn, IsApart, IsSealed, SameTables};
ghost use Rattle.page_map.specs.Changes.{mapped, unmapped, installed, uninstalled, CanMap, CanUnmap, CanInstall, CanUninstall};
ghost use Rattle.page_map.specs.Walks.{FaultsIn, SameElsewhere};

use sv32_walk::WalkFault;

/// A root that reads zero has no tables, and nothing is reached from it; in an
/// empty memory each frame reads zero.
pub fn opening()
    ensures tables { (m : Mem) (root frames : ℕ) → root < frames → IsBlank m root
        → IsPageMap m root frames }
    ensures once { (m : Mem) (root : ℕ) → IsBlank m root → TablesOnce m root }
    ensures no_table { (m : Mem) (root frame : ℕ) → IsBlank m root → IsNoTable m root frame }
    ensures pool { (pool : ℕ → Bool) (m : Mem) (root : ℕ) → IsBlank m root
        → ReachesIn (IsIn pool) m root }
    ensures sealed { (m : Mem) (root : ℕ) → IsBlank m root → IsSealed m root }
    ensures empty { (frame : ℕ) → IsBlank empty frame }
{}

/// Each call keeps the facts of page tables.
pub fn kept()
    ensures map { (m : Mem) (root frames va frame rights : ℕ) → CanMap m root frames va frame rights
        → IsPageMap (mapped m root va frame rights) root frames }
    ensures unmap { (m : Mem) (root frames va : ℕ) → CanUnmap m root frames va
        → IsPageMap (unmapped m root va) root frames }
    ensures install { (m : Mem) (root frames va frame : ℕ) → CanInstall m root frames va frame
        → IsPageMap (installed m root va frame) root frames }
    ensures uninstall { (m : Mem) (root frames va : ℕ) → CanUninstall m root frames va
        → IsPageMap (uninstalled m root va) root frames }
{}

/// Where no table is installed twice, none is after a call.
pub fn once()
    ensures map { (m : Mem) (root frames va frame rights : ℕ) → CanMap m root frames va frame rights
        → TablesOnce m root → TablesOnce (mapped m root va frame rights) root }
    ensures unmap { (m : Mem) (root frames va : ℕ) → CanUnmap m root frames va
        → TablesOnce m root → TablesOnce (unmapped m root va) root }
    ensures install { (m : Mem) (root frames va frame : ℕ) → CanInstall m root frames va frame
        → TablesOnce m root → TablesOnce (installed m root va frame) root }
    ensures uninstall { (m : Mem) (root frames va : ℕ) → CanUninstall m root frames va
        → TablesOnce m root → TablesOnce (uninstalled m root va) root }
{}

/// After a page is mapped, a walk of an access that its rights permit ends at
/// each of its addresses with its leaf; any other access is a page fault there.
/// Walks in other pages are as before.
pub fn mapping()
    ensures there { (m : Mem) (root frames va frame rights : ℕ) → CanMap m root frames va frame rights
        → has_page (mapped m root va frame rights) root va ≡ true }
    ensures leaf { (m : Mem) (root frames va frame rights at : ℕ) (access : Access)
        → CanMap m root frames va frame rights → at / 4096 ≡ va / 4096
        → rights_permit rights access ≡ true
        → (walk (mapped m root va frame rights) frames root at access).result
        ≡ Ok (leaf_word frame rights) }
    ensures fault { (m : Mem) (root frames va frame rights at : ℕ) (access : Access)
        → CanMap m root frames va frame rights → at / 4096 ≡ va / 4096
        → rights_permit rights access ≡ false
        → (walk (mapped m root va frame rights) frames root at access).result ≡ Err WalkFault.Page }
    ensures others { (m : Mem) (root frames va frame rights : ℕ)
        → CanMap m root frames va frame rights → TablesOnce m root
        → SameElsewhere 4096 va m (mapped m root va frame rights) frames root }
{}

/// After a page is unmapped, each walk in it is a page fault, and walks in
/// other pages are as before.
pub fn unmapping()
    ensures gone { (m : Mem) (root frames va : ℕ) → CanUnmap m root frames va
        → has_page (unmapped m root va) root va ≡ false }
    ensures fault { (m : Mem) (root frames va : ℕ) → CanUnmap m root frames va
        → FaultsIn 4096 va (unmapped m root va) frames root }
    ensures others { (m : Mem) (root frames va : ℕ) → CanUnmap m root frames va → TablesOnce m root
        → SameElsewhere 4096 va m (unmapped m root va) frames root }
{}

/// After a blank table is installed, each walk ends as before: in its 4 MiB
/// with a page fault, and all other walks are as before.
pub fn installing()
    ensures there { (m : Mem) (root frames va frame : ℕ) → CanInstall m root frames va frame
        → has_table (installed m root va frame) root va ≡ true }
    ensures fault { (m : Mem) (root frames va frame : ℕ) → CanInstall m root frames va frame
        → FaultsIn 4194304 va (installed m root va frame) frames root }
    ensures others { (m : Mem) (root frames va frame : ℕ) → CanInstall m root frames va frame
        → SameElsewhere 4194304 va m (installed m root va frame) frames root }
    ensures same { (m : Mem) (root frames va frame at : ℕ) (access : Access)
        → CanInstall m root frames va frame
        → (walk (installed m root va frame) frames root at access).result
        ≡ (walk m frames root at access).result }
{}

/// After a table is uninstalled, each walk in its 4 MiB is a page fault, and
/// all other walks are as before.
pub fn uninstalling()
    ensures gone { (m : Mem) (root frames va : ℕ) → CanUninstall m root frames va
        → has_table (uninstalled m root va) root va ≡ false }
    ensures fault { (m : Mem) (root frames va : ℕ) → CanUninstall m root frames va
        → FaultsIn 4194304 va (uninstalled m root va) frames root }
    ensures others { (m : Mem) (root frames va : ℕ) → CanUninstall m root frames va
        → SameElsewhere 4194304 va m (uninstalled m root va) frames root }
{}

/// All that is reached from the root stays in any pool of frames that the
/// frame handed in lies in.
pub fn pools()
    ensures map { (pool : ℕ → Bool) (m : Mem) (root frames va frame rights : ℕ)
        → CanMap m root frames va frame rights → ReachesIn (IsIn pool) m root → IsIn pool frame
        → ReachesIn (IsIn pool) (mapped m root va frame rights) root }
    ensures unmap { (pool : ℕ → Bool) (m : Mem) (root frames va : ℕ) → CanUnmap m root frames va
        → ReachesIn (IsIn pool) m root → ReachesIn (IsIn pool) (unmapped m root va) root }
    ensures install { (pool : ℕ → Bool) (m : Mem) (root frames va frame : ℕ)
        → CanInstall m root frames va frame → ReachesIn (IsIn pool) m root → IsIn pool frame
        → ReachesIn (IsIn pool) (installed m root va frame) root }
    ensures uninstall { (pool : ℕ → Bool) (m : Mem) (root frames va : ℕ)
        → CanUninstall m root frames va → ReachesIn (IsIn pool) m root
        → ReachesIn (IsIn pool) (uninstalled m root va) root }
{}

/// What a walk reaches: it reads in the root and the tables alone, and ends at
/// one of the pages; where they lie in memory it is no access fault.
pub fn reaching()
    ensures reads { (pool : ℕ → Bool) (m : Mem) (root frames va : ℕ) (access : Access)
        → IsPageMap m root frames → IsIn pool root → ReachesIn (IsIn pool) m root
        → All (λ at. IsIn pool (at / 4096)) (walk m frames root va access).reads }
    ensures page { (pool : ℕ → Bool) (m : Mem) (root frames va leaf : ℕ) (access : Access)
        → IsPageMap m root frames → ReachesIn (IsIn pool) m root
        → (walk m frames root va access).result ≡ Ok leaf → IsIn pool (ppn leaf) }
    ensures inside { (m : Mem) (root frames va : ℕ) (access : Access)
        → IsPageMap m root frames → PagesIn (λ page. page < frames) m root
        → (walk m frames root va access).result ≢ Err WalkFault.Access }
{}

/// No page comes to lie on the page tables themselves, where none lies on a
/// frame that is installed.
pub fn sealed()
    ensures map { (m : Mem) (root frames va frame rights : ℕ) → CanMap m root frames va frame rights
        → IsSealed m root → IsSealed (mapped m root va frame rights) root }
    ensures unmap { (m : Mem) (root frames va : ℕ) → CanUnmap m root frames va
        → IsSealed m root → IsSealed (unmapped m root va) root }
    ensures install { (m : Mem) (root frames va frame : ℕ) → CanInstall m root frames va frame
        → IsSealed m root → PagesIn (λ page. page ≢ frame) m root
        → IsSealed (installed m root va frame) root }
    ensures uninstall { (m : Mem) (root frames va : ℕ) → CanUninstall m root frames va
        → IsSealed m root → IsSealed (uninstalled m root va) root }
{}

/// What changes in a frame beside the page tables leaves them as they are; and
/// where they are, so are their facts, all that is reached, and each walk.
pub fn beside()
    ensures frame { (old new : Mem) (root frame : ℕ) → IsApart old root frame
        → ((other i : ℕ) → other ≢ frame → word new other i ≡ word old other i)
        → SameTables old new root }
    ensures tables { (old new : Mem) (root frames : ℕ) → SameTables old new root
        → IsPageMap old root frames → IsPageMap new root frames }
    ensures once { (old new : Mem) (root : ℕ) → SameTables old new root
        → TablesOnce old root → TablesOnce new root }
    ensures pool { (pool : ℕ → Bool) (old new : Mem) (root : ℕ) → SameTables old new root
        → ReachesIn (IsIn pool) old root → ReachesIn (IsIn pool) new root }
    ensures sealed { (old new : Mem) (root : ℕ) → SameTables old new root
        → IsSealed old root → IsSealed new root }
    ensures walks { (old new : Mem) (frames root va : ℕ) (access : Access) → root < frames
        → SameTables old new root → walk new frames root va access ≡ walk old frames root va access }
{}
