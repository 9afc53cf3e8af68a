//! Laws of the definitions: what an entry and a walk mean, in words.
ghost use Rattle.std.specs.Prelude.{◌≡◌, ℕ, ◌/◌, ◌<◌, ◌≤◌, ◌↔◌, [], ◌∷◌, true};
ghost use Rattle.tp_base.specs.Rights.{are_good};
ghost use Rattle.phys_mem.specs.Mem.{Mem};
ghost use Rattle.sv32_walk.specs.declared.access.Access.{Access};
ghost use Rattle.sv32_walk.specs.PageTableEntry.{ppn, accessed, dirty, writable, permits, rights_permit, table_word, leaf_word, vpn_0, vpn_1};
ghost use Rattle.sv32_walk.specs.Walk.{walk, entry_address};
ghost use Rattle.sv32_walk.specs.Translation.{HasLeaf, LeavesMemory, Points, first_entry};
ghost use Rattle.sv32_walk.specs.KeptLeaf.{IsLeafOf, end_at};

use crate::WalkFault;

/// What the walk comes to, in words: it finds exactly the leaf that the tables
/// have for the access, and is an access fault exactly where it leaves memory. A
/// page fault is all that is left. It reads the root's entry where the root is
/// in memory, and the second table's entry where the root's points to one there.
pub fn translation()
    ensures leaf { (mem : Mem) (frames root va : ℕ) (access : Access) (leaf : ℕ)
        → ((walk mem frames root va access).result ≡ Ok leaf) ↔ HasLeaf mem frames root va access leaf }
    ensures outside { (mem : Mem) (frames root va : ℕ) (access : Access)
        → ((walk mem frames root va access).result ≡ Err WalkFault.Access)
        ↔ LeavesMemory mem frames root va access }
    ensures none_read { (mem : Mem) (frames root va : ℕ) (access : Access)
        → frames ≤ root → (walk mem frames root va access).reads ≡ [] }
    ensures root_read { (mem : Mem) (frames root va : ℕ) (access : Access)
        → root < frames → (Points (first_entry mem root va) → frames ≤ ppn (first_entry mem root va))
        → (walk mem frames root va access).reads ≡ entry_address root (vpn_1 va) ∷ [] }
    ensures both_read { (mem : Mem) (frames root va : ℕ) (access : Access)
        → root < frames → Points (first_entry mem root va) → ppn (first_entry mem root va) < frames
        → (walk mem frames root va access).reads
        ≡ entry_address root (vpn_1 va)
        ∷ entry_address (ppn (first_entry mem root va)) (vpn_0 va) ∷ [] }
{}

/// A leaf that one walk found answers every access to its page as a walk would,
/// by what it permits, and its page lies in memory.
pub fn kept_leaf()
    ensures again { (mem : Mem) (frames root page leaf va : ℕ) (access : Access)
        → IsLeafOf mem frames root page leaf → va / 4096 ≡ page
        → (walk mem frames root va access).result ≡ end_at access leaf }
    ensures within { (mem : Mem) (frames root page leaf : ℕ)
        → IsLeafOf mem frames root page leaf → ppn leaf < frames }
{}

/// The words that the kernel writes: a leaf names its frame and permits exactly
/// what its rights permit; it is always accessed, and dirty exactly with W. A
/// table's word names its frame and is a pointer.
pub fn entry_words()
    ensures frame { (frame rights : ℕ) → are_good rights ≡ true
        → ppn (leaf_word frame rights) ≡ frame }
    ensures rights { (frame rights : ℕ) (access : Access) → are_good rights ≡ true
        → permits access (leaf_word frame rights) ≡ rights_permit rights access }
    ensures accessed { (frame rights : ℕ) → are_good rights ≡ true
        → accessed (leaf_word frame rights) ≡ true }
    ensures dirty { (frame rights : ℕ) → are_good rights ≡ true
        → dirty (leaf_word frame rights) ≡ writable (leaf_word frame rights) }
    ensures table { (frame : ℕ) → ppn (table_word frame) ≡ frame }
    ensures pointer { (frame : ℕ) → Points (table_word frame) }
{}
