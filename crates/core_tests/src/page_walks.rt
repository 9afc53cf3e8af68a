// Walks of tables that were written by hand, and the words of entries. The bits
// of the words were put together from the manual.
ghost use Rattle.std.specs.Prelude.{◌≡◌, ◌<◌, true};
ghost use Rattle.tp_base.specs.Rights.{are_good};

use phys_mem::PhysMem;
use std::alloc::Global;
use sv32_walk::{Access, PageTableEntry, WalkFault, Walked, leaf_word, table_word, walk};
use tp_base::{FrameNo, Memory, Rights};

const PAGE: Result<u32, WalkFault> = Err(WalkFault::Page);

const OUTSIDE: Result<u32, WalkFault> = Err(WalkFault::Access);

// The walk with the root in frame 2 of 64. The root's entry 1 is `first`; the
// table in frame 3 has `second` at place 5.
fn walked(
    alloc: Global,
    first: u32,
    second: u32,
    at: u32,
    access: Access,
) -> Result<Walked, Memory> {
    let mut mem = PhysMem::new(alloc, 64)?;
    mem.write_word(0x2004, first);
    mem.write_word(0x3014, second);
    Ok(walk(&mem, 2, at, access))
}

// The root's entry, the table's, the address, and what a load there comes to:
// its end, and what it read.
#[rattlefmt::skip]
const LOADS: [(u32, u32, u32, Result<u32, WalkFault>, [u32; 2], u32); 10] = [
    // in pages of 4 MiB: the last address of a page, the next page, the next region
    (0x53, 0, 0x0040_5fff, Ok(0x1453), [0x2004, 0], 1),
    (0x53, 0, 0x0040_6000, Ok(0x1853), [0x2004, 0], 1),
    (0x53, 0, 0x0044_0000, OUTSIDE, [0x2004, 0], 1),
    (0x53, 0, 0x0080_5008, PAGE, [0x2008, 0], 1),
    // in pages of 4 KiB
    (0xc01, 0x1453, 0x0040_5fff, Ok(0x1453), [0x2004, 0x3014], 2),
    (0xc01, 0x1453, 0x0040_6000, PAGE, [0x2004, 0x3018], 2),
    (0xc01, 0x1453, 0x0080_5008, PAGE, [0x2008, 0], 1),
    (0xffff_fc01, 0, 0x007f_f000, OUTSIDE, [0x2004, 0], 1),
    // bit 31 and bit 21 of an address count
    (0xc01, 0x1453, 0x8040_5008, PAGE, [0x2804, 0], 1),
    (0xc01, 0x1453, 0x0060_5008, PAGE, [0x2004, 0x3814], 2),
];

fn walk_of(end: Result<u32, WalkFault>, reads: [u32; 2], count: u32) -> Walked {
    Walked {
        result: end,
        reads,
        count,
    }
}

#[test]
fn walks(rt: HostRuntime) -> Result<(), Memory> {
    for (first, second, at, result, reads, count) in LOADS {
        let found = walked(rt.alloc(), first, second, at, Access::Load)?;
        let wanted = walk_of(result, reads, count);
        assert_eq!(rt; found, wanted, "{first:x} {second:x} {at:x}");
    }
    Ok(())
}

#[test]
fn roots_outside_memory(rt: HostRuntime) -> Result<(), Memory> {
    let mem = PhysMem::new(rt.alloc(), 64)?;
    for root in [64, 0xffff_ffff] {
        let found = walk(&mem, root, 0, Access::Load);
        assert_eq!(rt; found, walk_of(OUTSIDE, [0, 0], 0), "root {root:x}");
    }
    Ok(())
}

// The low bits of a leaf, an access to its page, and how the walk ends: as a page
// of 4 MiB from frame 0 on, and as a page of 4 KiB in frame 5. Both have the frame
// 5 for the address 0x0040_5008.
#[rattlefmt::skip]
const LEAVES: [(u32, Access, Result<u32, WalkFault>); 21] = [
    // V, R, U, A, and then V, R, X, U, A each clear once. D is not wanted, G and
    // software's bits are ignored
    (0x053, Access::Load, Ok(0x1453)), (0x373, Access::Load, Ok(0x1773)),
    (0x052, Access::Load, PAGE), (0x051, Access::Load, PAGE),
    (0x059, Access::Load, PAGE), (0x043, Access::Load, PAGE),
    (0x013, Access::Load, PAGE),
    (0x0d7, Access::Store, Ok(0x14d7)), (0x0d6, Access::Store, PAGE),
    (0x0d3, Access::Store, PAGE), (0x0c7, Access::Store, PAGE),
    (0x097, Access::Store, PAGE), (0x057, Access::Store, PAGE),
    (0x059, Access::Fetch, Ok(0x1459)), (0x058, Access::Fetch, PAGE),
    (0x0d7, Access::Fetch, PAGE), (0x049, Access::Fetch, PAGE),
    (0x019, Access::Fetch, PAGE),
    // W without R is reserved, with X and without
    (0x0d5, Access::Store, PAGE), (0x0dd, Access::Store, PAGE),
    (0x0dd, Access::Fetch, PAGE),
];

#[test]
fn bits_of_leaves(rt: HostRuntime) -> Result<(), Memory> {
    for (bits, access, end) in LEAVES {
        let big = walked(rt.alloc(), bits, 0, 0x0040_5008, access)?;
        let small = walked(rt.alloc(), 0xc01, 0x1400 | bits, 0x0040_5008, access)?;
        let ends = (big.result, big.count, small.result, small.count);
        assert_eq!(rt; ends, (end, 1, end, 2), "{bits:x} {access:?}");
    }
    Ok(())
}

// The root's entry and the table's at 0x0040_5008, how a load there ends, and how
// many entries it reads.
#[rattlefmt::skip]
const ENTRIES: [(u32, u32, Result<u32, WalkFault>, u32); 23] = [
    // pages of 4 MiB: some that begin between, one outside memory; what the entry
    // refuses comes first
    (0x0000_0453, 0, PAGE, 1), (0x000f_fc53, 0, PAGE, 1),
    (0x0010_0453, 0, PAGE, 1), (0x0010_0053, 0, OUTSIDE, 1),
    (0x0010_0043, 0, PAGE, 1),
    // pointers: V, then each bit that is reserved there
    (0xc01, 0x1453, Ok(0x1453), 2), (0xf21, 0x1453, Ok(0x1453), 2),
    (0xc00, 0x1453, PAGE, 1), (0xc05, 0x1453, PAGE, 1),
    (0xc11, 0x1453, PAGE, 1), (0xc41, 0x1453, PAGE, 1),
    (0xc81, 0x1453, PAGE, 1),
    // the last frame of memory, whose words are zero, and the next one
    (0x0000_fc01, 0, PAGE, 2), (0x0001_0001, 0, OUTSIDE, 1),
    (0x0001_0041, 0, PAGE, 1),
    // at the last level: the last frame of memory, and the next one
    (0xc01, 0x0000_fc53, Ok(0xfc53), 2), (0xc01, 0x0001_0053, OUTSIDE, 2),
    (0xc01, 0x0001_0043, PAGE, 2),
    // no pointer stands there, in memory or not, with bits or without
    (0xc01, 0x0000_1401, PAGE, 2), (0xc01, 0x0001_0001, PAGE, 2),
    (0xc01, 0x0000_1411, PAGE, 2), (0xc01, 0x0000_1441, PAGE, 2),
    (0xc01, 0x0000_1481, PAGE, 2),
];

#[test]
fn entries(rt: HostRuntime) -> Result<(), Memory> {
    for (first, second, end, count) in ENTRIES {
        let found = walked(rt.alloc(), first, second, 0x0040_5008, Access::Load)?;
        assert_eq!(rt;
            (found.result, found.count),
            (end, count),
            "{first:x} {second:x}"
        );
    }
    Ok(())
}

// A leaf for frame 5, and whether it permits a fetch, a load and a store.
fn leaf(rights: Rights) -> (u32, [bool; 3])
    requires good { are_good rights ≡ true }
{
    let word = leaf_word(FrameNo::new(5), rights);
    let entry = PageTableEntry(word);
    let permitted = [Access::Fetch, Access::Load, Access::Store];
    (word, permitted.map(|access| entry.permits(access)))
}

#[test]
fn words(rt: HostRuntime) {
    let leaves = [
        leaf(Rights::new(1)),
        leaf(Rights::new(3)),
        leaf(Rights::new(4)),
        leaf(Rights::new(5)),
        leaf(Rights::new(7)),
    ];
    let wanted = [
        (0x1453, [false, true, false]),
        (0x14d7, [false, true, true]),
        (0x1459, [true, false, false]),
        (0x145b, [true, true, false]),
        (0x14df, [true, true, true]),
    ];
    assert_eq!(rt; leaves, wanted);
    let table = PageTableEntry(table_word(FrameNo::new(0x7fff)));
    let read = (table, table.frame(), table.is_valid());
    assert_eq!(rt; read, (PageTableEntry(0x01ff_fc01), 0x7fff, true));
    assert!(rt; !PageTableEntry(0xffff_fffe).is_valid());
}

#[test]
fn texts(rt: HostRuntime) -> Result<(), Memory> {
    let texts = format!(in rt.alloc(); "{}; {}", WalkFault::Page, WalkFault::Access)?;
    assert_eq!(rt; texts.as_str(), "page fault; access fault");
    Ok(())
}
