// The calls that change page tables, one entry each.
ghost use Rattle.std.specs.Prelude.{◌≡◌, ◌≢◌, ℕ, ◌/◌, ◌%◌, ◌^◌, ◌<◌, ◌≤◌, true, Some, None, IfOk, IfErr};
ghost use Rattle.tp_base.specs.Rights.{are_good};
ghost use Rattle.phys_mem.specs.Contents.{byte_at};
ghost use Rattle.phys_mem.specs.Mem.{Mem, word};
ghost use Rattle.phys_mem.specs.Holds.{Holds};
ghost use Rattle.sv32_walk.specs.PageTableEntry.{vpn_0, vpn_1};
ghost use Rattle.sv32_walk.specs.Walk.{entry_address};
ghost use Rattle.sv32_walk.specs.Translation.{first_entry};
ghost use Rattle.page_map.specs.Tables.{IsPageMap, IsBlank, StandsWith, has_table, has_page, map_refusal, install_refusal};
ghost use Rattle.page_map.specs.Reached.{IsApart};
ghost use Rattle.page_map.specs.Changes.{table_entry, page_entry, mapped, unmapped, installed, uninstalled};

use crate::MapRefusal;
use frame_colours::{Frame, Table};
use phys_mem::PhysMem;
use std::marker::Model;
use sv32_walk::{PageTableEntry, leaf_word, table_word};
use tp_base::{FrameNo, Rights};

// What a page has in bytes, and what the pages of one table have together.
const PAGE: u32 = 4096;

const REGION: u32 = 4_194_304;

/// The page tables of one domain, which own the frame of their root. They
/// stand in memory, which each call is handed.
#[derive(Drop)]
pub struct PageMap {
    root: Frame<Table>,
}

impl Model for PageMap {
    ghost use Rattle.std.specs.Prelude.{ℕ};

    ghost Value = { ℕ };

    ghost view = { λ m. m.root };
}

// An entry of a table in memory, and its physical address in bytes.
#[derive(Clone, Copy)]
struct Placed {
    at: u32,
    entry: PageTableEntry,
}

impl PageMap {
    /// The tables of a root in a frame, which has to be in memory at each call.
    pub fn new(root: Frame<Table>) -> Self
        ensures value { result ≡ root }
    {
        PageMap { root }
    }

    /// The number of the root's frame.
    pub fn root(&self) -> FrameNo
        ensures value { result ≡ self.now }
    {
        self.root.number()
    }

    /// Maps the page at a virtual address to a frame of memory in which none of
    /// these page tables stands, and answers the physical address in bytes of the
    /// leaf that it wrote, a multiple of 4 (RISC-V privileged specification, Sv32,
    /// "Addressing and Memory Protection"). A page may have the rights 1, 3, 4, 5
    /// or 7.
    ///
    /// # Errors
    /// The first of these; memory is unchanged then. `BadAddress` where the
    /// address is no multiple of 4,096; `Mapped` where it has a valid leaf;
    /// `NoTable` where no table is installed for it.
    #[tactic(auto, using(crate::proofs::RefusalLemmas::map_unaligned, crate::proofs::RefusalLemmas::map_taken, crate::proofs::RefusalLemmas::map_no_table, crate::proofs::RefusalLemmas::map_free))]
    pub fn map(
        &mut self,
        mem: &mut PhysMem,
        va: u32,
        frame: FrameNo,
        rights: Rights,
    ) -> Result<u32, MapRefusal>
        requires tables { StandsWith mem.old (λ m. IsPageMap m self.old mem.old.frames) }
        requires frame { frame < mem.old.frames }
        requires apart { StandsWith mem.old (λ m. IsApart m self.old frame) }
        requires rights { are_good rights ≡ true }
        ensures refused { (m : Mem) → Holds mem.old m
            → IfErr result (λ refusal. map_refusal m self.old va ≡ Some refusal) }
        ensures allowed { (m : Mem) → Holds mem.old m
            → IfOk result (λ at. map_refusal m self.old va ≡ None) }
        ensures entry { (m : Mem) → Holds mem.old m
            → IfOk result (λ at. at ≡ page_entry m self.old va) }
        ensures mapped { (m : Mem) → Holds mem.old m
            → IfOk result (λ at. Holds mem.new (mapped m self.old va frame rights)) }
        ensures others { IfOk result (λ at. (address : ℕ) → address / 4 ≢ at / 4
            → byte_at mem.new address ≡ byte_at mem.old address) }
        ensures unchanged { IfErr result (λ refusal. mem.new ≡ mem.old) }
        ensures frames { mem.new.frames ≡ mem.old.frames }
        ensures root { self.new ≡ self.old }
    {
        if !va.is_multiple_of(PAGE) {
            return Err(MapRefusal::BadAddress);
        }
        let pointer = self.pointer(mem, va);
        if !pointer.entry.is_valid() {
            return Err(MapRefusal::NoTable);
        }
        let leaf = leaf_of(mem, pointer.entry.frame(), va);
        if leaf.entry.is_valid() {
            return Err(MapRefusal::Mapped);
        }
        mem.write_word(leaf.at, leaf_word(frame, rights));
        Ok(leaf.at)
    }

    /// Clears the valid leaf of the page that a virtual address lies in, and
    /// answers its physical address in bytes.
    pub fn unmap(&mut self, mem: &mut PhysMem, va: u32) -> u32
        requires tables { StandsWith mem.old (λ m. IsPageMap m self.old mem.old.frames) }
        requires page { StandsWith mem.old (λ m. has_page m self.old va ≡ true) }
        ensures entry { (m : Mem) → Holds mem.old m → result ≡ page_entry m self.old va }
        ensures unmapped { (m : Mem) → Holds mem.old m → Holds mem.new (unmapped m self.old va) }
        ensures others { (address : ℕ) → address / 4 ≢ result / 4
            → byte_at mem.new address ≡ byte_at mem.old address }
        ensures frames { mem.new.frames ≡ mem.old.frames }
        ensures root { self.new ≡ self.old }
    {
        let pointer = self.pointer(mem, va);
        let leaf = leaf_of(mem, pointer.entry.frame(), va);
        mem.write_word(leaf.at, 0);
        leaf.at
    }

    /// Installs a frame of memory that reads zero, and is none of these page
    /// tables, as the table for the 4 MiB at a virtual address, and answers the
    /// physical address in bytes of the root's entry.
    ///
    /// # Errors
    /// The first of these; memory is unchanged then. `BadAddress` where the
    /// address is no multiple of 4,194,304; `Mapped` where the root's entry is
    /// valid.
    #[tactic(auto, using(crate::proofs::RefusalLemmas::install_unaligned, crate::proofs::RefusalLemmas::install_taken, crate::proofs::RefusalLemmas::install_free))]
    pub fn install_table(
        &mut self,
        mem: &mut PhysMem,
        va: u32,
        frame: FrameNo,
    ) -> Result<u32, MapRefusal>
        requires tables { StandsWith mem.old (λ m. IsPageMap m self.old mem.old.frames) }
        requires frame { frame < mem.old.frames }
        requires apart { StandsWith mem.old (λ m. IsApart m self.old frame) }
        requires blank { StandsWith mem.old (λ m. IsBlank m frame) }
        ensures refused { (m : Mem) → Holds mem.old m
            → IfErr result (λ refusal. install_refusal m self.old va ≡ Some refusal) }
        ensures allowed { (m : Mem) → Holds mem.old m
            → IfOk result (λ at. install_refusal m self.old va ≡ None) }
        ensures entry { IfOk result (λ at. at ≡ table_entry self.old va) }
        ensures installed { (m : Mem) → Holds mem.old m
            → IfOk result (λ at. Holds mem.new (installed m self.old va frame)) }
        ensures others { IfOk result (λ at. (address : ℕ) → address / 4 ≢ at / 4
            → byte_at mem.new address ≡ byte_at mem.old address) }
        ensures unchanged { IfErr result (λ refusal. mem.new ≡ mem.old) }
        ensures frames { mem.new.frames ≡ mem.old.frames }
        ensures root { self.new ≡ self.old }
    {
        if !va.is_multiple_of(REGION) {
            return Err(MapRefusal::BadAddress);
        }
        let pointer = self.pointer(mem, va);
        if pointer.entry.is_valid() {
            return Err(MapRefusal::Mapped);
        }
        mem.write_word(pointer.at, table_word(frame));
        Ok(pointer.at)
    }

    /// Clears the root's valid entry for a virtual address, and answers its
    /// physical address. The table itself stays as it is.
    pub fn uninstall_table(&mut self, mem: &mut PhysMem, va: u32) -> u32
        requires tables { StandsWith mem.old (λ m. IsPageMap m self.old mem.old.frames) }
        requires table { StandsWith mem.old (λ m. has_table m self.old va ≡ true) }
        ensures entry { result ≡ table_entry self.old va }
        ensures uninstalled { (m : Mem) → Holds mem.old m → Holds mem.new (uninstalled m self.old va) }
        ensures others { (address : ℕ) → address / 4 ≢ result / 4
            → byte_at mem.new address ≡ byte_at mem.old address }
        ensures frames { mem.new.frames ≡ mem.old.frames }
        ensures root { self.new ≡ self.old }
    {
        let pointer = self.pointer(mem, va);
        mem.write_word(pointer.at, 0);
        pointer.at
    }

    // The root's entry for an address.
    #[tactic(auto, unfolding(sv32_walk::specs::PageTableEntry::vpn_1))]
    fn pointer(&self, mem: &PhysMem, va: u32) -> Placed
        requires within { self.now < mem.now.frames }
        ensures address { result.at ≡ table_entry self.now va }
        ensures frame { result.at / 4096 ≡ self.now }
        ensures place { result.at % 4096 / 4 ≡ vpn_1 va }
        ensures aligned { result.at % 4 ≡ 0 }
        ensures word { (m : Mem) → Holds mem.now m → result.entry.0 ≡ first_entry m self.now va }
    {
        entry_of(mem, self.root().number(), (va >> 22) & 0x3ff)
    }
}

// The entry for an address in a table.
#[tactic(auto, unfolding(sv32_walk::specs::PageTableEntry::vpn_0))]
fn leaf_of(mem: &PhysMem, table: u32, va: u32) -> Placed
    requires within { table < mem.now.frames }
    ensures address { result.at ≡ entry_address table (vpn_0 va) }
    ensures frame { result.at / 4096 ≡ table }
    ensures place { result.at % 4096 / 4 ≡ vpn_0 va }
    ensures aligned { result.at % 4 ≡ 0 }
    ensures word { (m : Mem) → Holds mem.now m → result.entry.0 ≡ word m table (vpn_0 va) }
{
    entry_of(mem, table, (va >> 12) & 0x3ff)
}

// The entry of a table at an index.
#[tactic(auto, unfolding(sv32_walk::specs::Walk::entry_address))]
fn entry_of(mem: &PhysMem, table: u32, index: u32) -> Placed
    requires within { table < mem.now.frames }
    requires index { index < 1024 }
    ensures address { result.at ≡ entry_address table index }
    ensures frame { result.at / 4096 ≡ table }
    ensures place { result.at % 4096 / 4 ≡ index }
    ensures aligned { result.at % 4 ≡ 0 }
    ensures word { (m : Mem) → Holds mem.now m → result.entry.0 ≡ word m table index }
{
    // For the prover: the number of frames bounds the address.
    let _frames = mem.frames();
    let at = table * 4096 + index * 4;
    Placed {
        at,
        entry: PageTableEntry(mem.read_word(at)),
    }
}
