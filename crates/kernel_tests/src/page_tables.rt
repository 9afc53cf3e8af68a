// Page tables of 64 frames with the root in frame 2, changed and walked. What is
// written stands in the manual's section on Sv32.
ghost use Rattle.std.specs.Prelude.{◌≡◌, ℕ, ◌+◌, ◌<◌, ◌≤◌, true, IfOk};
ghost use Rattle.tp_base.specs.Rights.{are_good};
ghost use Rattle.phys_mem.specs.Contents.{zeroed};
ghost use Rattle.page_map.specs.Tables.{IsPageMap, IsBlank, StandsWith, has_table, has_page};
ghost use Rattle.page_map.specs.Reached.{TablesIn};

use frame_colours::{AllColours, Frame, Pool, Table};
use page_map::{MapRefusal, PageMap};
use phys_mem::PhysMem;
use std::alloc::Global;
use std::process::Abort;
use sv32_walk::{Access, WalkFault, walk};
use tp_base::{FrameNo, Memory, Rights};

// The frame of the root: of 64 frames in four colours, the least one of colour 2.
fn root_frame(alloc: Global, mem: &mut PhysMem) -> Result<Frame<Table>, Memory>
    requires size { mem.old.frames ≡ 64 }
    ensures number { IfOk result (λ root. root ≡ 2) }
    ensures zeroed { IfOk result (λ root. mem.new ≡ zeroed mem.old root) }
{
    let colours = vec![in alloc; Vec::from_slice(alloc, &[2])?]?;
    let mut shares = AllColours::new(64, 4).split(alloc, &colours)?;
    let share = shares.remove(0);
    shares.destroy_empty();
    match Pool::new(alloc, share) {
        Ok(mut pool) => Ok(pool.take().unwrap().table(mem)),
        Err((share, error)) => {
            share.discard();
            Err(error)
        }
    }
}

// Each function below says for the prover that from a frame on all are blank and
// no tables: that is what the next call asks.

fn open(alloc: Global) -> Result<(PhysMem, PageMap), Memory>
    ensures size { IfOk result (λ opened. opened.0.frames ≡ 64) }
    ensures root { IfOk result (λ opened. opened.1 ≡ 2) }
    ensures ready { IfOk result (λ opened. StandsWith opened.0 (λ m. IsPageMap m opened.1 opened.0.frames
        × (TablesIn (λ table. table < 3) m opened.1 × ((f : ℕ) → 3 ≤ f → IsBlank m f)))) }
{
    let mut mem = PhysMem::new(alloc, 64)?;
    let root = root_frame(alloc, &mut mem)?;
    Ok((mem, PageMap::new(root)))
}

fn install(mem: &mut PhysMem, map: &mut PageMap, va: u32, frame: u32) -> Result<u32, MapRefusal>
    requires size { mem.old.frames ≡ 64 }
    requires root { map.old ≡ 2 }
    requires few { (2 < frame) × (frame < 60) }
    requires ready { StandsWith mem.old (λ m. IsPageMap m map.old mem.old.frames
        × (TablesIn (λ table. table < frame) m map.old × ((f : ℕ) → frame ≤ f → IsBlank m f))) }
    ensures size { mem.new.frames ≡ 64 }
    ensures root { map.new ≡ 2 }
    ensures ready { StandsWith mem.new (λ m. IsPageMap m map.new mem.new.frames
        × (TablesIn (λ table. table < frame + 1) m map.new × ((f : ℕ) → frame + 1 ≤ f → IsBlank m f))) }
    ensures there { IfOk result (λ at. StandsWith mem.new (λ m. has_table m map.new va ≡ true)) }
{
    map.install_table(mem, va, FrameNo::new(frame))
}

fn map_page(
    mem: &mut PhysMem,
    map: &mut PageMap,
    va: u32,
    frame: u32,
    rights: Rights,
) -> Result<u32, MapRefusal>
    requires size { mem.old.frames ≡ 64 }
    requires root { map.old ≡ 2 }
    requires few { (2 < frame) × (frame < 60) }
    requires rights { are_good rights ≡ true }
    requires ready { StandsWith mem.old (λ m. IsPageMap m map.old mem.old.frames
        × (TablesIn (λ table. table < frame) m map.old × ((f : ℕ) → frame ≤ f → IsBlank m f))) }
    ensures size { mem.new.frames ≡ 64 }
    ensures root { map.new ≡ 2 }
    ensures ready { StandsWith mem.new (λ m. IsPageMap m map.new mem.new.frames
        × (TablesIn (λ table. table < frame) m map.new × ((f : ℕ) → frame ≤ f → IsBlank m f))) }
    ensures there { IfOk result (λ at. StandsWith mem.new (λ m. has_page m map.new va ≡ true)) }
{
    map.map(mem, va, FrameNo::new(frame), rights)
}

// A fetch, a load and a store at an address.
fn walks(mem: &PhysMem, map: &PageMap, va: u32) -> [Result<u32, WalkFault>; 3] {
    let root = map.root().number();
    [
        walk(mem, root, va, Access::Fetch).result,
        walk(mem, root, va, Access::Load).result,
        walk(mem, root, va, Access::Store).result,
    ]
}

// A page in frame 5 with these rights: its entry, and the walks at its end.
fn page_with(
    alloc: Global,
    rights: Rights,
) -> Result<(Result<u32, MapRefusal>, [Result<u32, WalkFault>; 3]), Memory>
    requires rights { are_good rights ≡ true }
{
    let (mut mem, mut map) = open(alloc)?;
    let _ = install(&mut mem, &mut map, 0x0040_0000, 3);
    let _ = install(&mut mem, &mut map, 0x0080_0000, 4);
    let at = map_page(&mut mem, &mut map, 0x0040_5000, 5, rights);
    Ok((at, walks(&mem, &map, 0x0040_5fff)))
}

fn page_is(
    rt: &impl Abort,
    alloc: Global,
    rights: Rights,
    walks: [Result<u32, WalkFault>; 3],
) -> Result<(), Memory>
    requires rights { are_good rights ≡ true }
{
    assert_eq!(rt; page_with(alloc, rights)?, (Ok(0x3014), walks));
    Ok(())
}

#[test]
fn rights(rt: HostRuntime) -> Result<(), Memory> {
    let alloc = rt.alloc();
    let page = Err(WalkFault::Page);
    page_is(&rt, alloc, Rights::new(1), [page, Ok(0x1453), page])?;
    page_is(&rt, alloc, Rights::new(3), [page, Ok(0x14d7), Ok(0x14d7)])?;
    page_is(&rt, alloc, Rights::new(4), [Ok(0x1459), page, page])?;
    page_is(&rt, alloc, Rights::new(5), [Ok(0x145b), Ok(0x145b), page])?;
    page_is(
        &rt,
        alloc,
        Rights::new(7),
        [Ok(0x14df), Ok(0x14df), Ok(0x14df)],
    )
}

// For the prover no assert stands where a memory is held, below.

// Answers before a table is installed, at it, and after it; and the walks between and then.
type Answers = (
    [Result<u32, MapRefusal>; 3],
    [Result<u32, MapRefusal>; 3],
    [Result<u32, MapRefusal>; 4],
    [[Result<u32, WalkFault>; 3]; 3],
);

fn refused(alloc: Global) -> Result<Answers, Memory> {
    let (mut mem, mut map) = open(alloc)?;
    let before = [
        map_page(&mut mem, &mut map, 0x0040_5000, 3, Rights::new(1)),
        map_page(&mut mem, &mut map, 0x0040_5004, 3, Rights::new(1)),
        install(&mut mem, &mut map, 0x0040_1000, 3),
    ];
    let at = [
        install(&mut mem, &mut map, 0x0040_0000, 4),
        install(&mut mem, &mut map, 0x0040_0000, 5),
        install(&mut mem, &mut map, 0x0040_1000, 6),
    ];
    let between = walks(&mem, &map, 0x0040_5000);
    let after = [
        map_page(&mut mem, &mut map, 0x0040_5000, 7, Rights::new(7)),
        map_page(&mut mem, &mut map, 0x0040_5000, 7, Rights::new(1)),
        map_page(&mut mem, &mut map, 0x0040_5800, 7, Rights::new(1)),
        map_page(&mut mem, &mut map, 0x0080_5000, 7, Rights::new(1)),
    ];
    let walks = [
        between,
        walks(&mem, &map, 0x0040_5000),
        walks(&mem, &map, 0x0040_6000),
    ];
    Ok((before, at, after, walks))
}

#[test]
fn refusals(rt: HostRuntime) -> Result<(), Memory> {
    let no_table = Err(MapRefusal::NoTable);
    let bad_address = Err(MapRefusal::BadAddress);
    let mapped = Err(MapRefusal::Mapped);
    let (before, at, after, walks) = refused(rt.alloc())?;
    assert_eq!(rt; before, [no_table, bad_address, bad_address]);
    assert_eq!(rt; at, [Ok(0x2004), mapped, bad_address]);
    assert_eq!(rt; after, [Ok(0x4014), mapped, bad_address, no_table]);
    let page = [Err(WalkFault::Page); 3];
    assert_eq!(rt; walks, [page, [Ok(0x1cdf); 3], page]);
    Ok(())
}

// The entries of a table that is installed and taken away, and the word that is left.
fn table_cleared(alloc: Global) -> Result<(Result<u32, MapRefusal>, Option<u32>, u32), Memory> {
    let (mut mem, mut map) = open(alloc)?;
    let installed = install(&mut mem, &mut map, 0x0040_0000, 3);
    let uninstalled = match installed {
        Ok(_) => Some(map.uninstall_table(&mut mem, 0x0040_0000)),
        Err(_) => None,
    };
    Ok((installed, uninstalled, mem.read_word(0x2004)))
}

// The entries of a page that is mapped and taken away, and the walks in it and in the one
// before it then.
fn page_cleared(
    alloc: Global,
) -> Result<
    (
        Result<u32, MapRefusal>,
        Option<u32>,
        [[Result<u32, WalkFault>; 3]; 2],
    ),
    Memory,
> {
    let (mut mem, mut map) = open(alloc)?;
    let _ = install(&mut mem, &mut map, 0x0040_0000, 3);
    let _ = map_page(&mut mem, &mut map, 0x0040_4000, 4, Rights::new(3));
    let mapped = map_page(&mut mem, &mut map, 0x0040_5000, 4, Rights::new(3));
    let unmapped = match mapped {
        Ok(_) => Some(map.unmap(&mut mem, 0x0040_5000)),
        Err(_) => None,
    };
    let walks = [
        walks(&mem, &map, 0x0040_5000),
        walks(&mem, &map, 0x0040_4000),
    ];
    Ok((mapped, unmapped, walks))
}

#[test]
fn clearing(rt: HostRuntime) -> Result<(), Memory> {
    assert_eq!(rt; table_cleared(rt.alloc())?, (Ok(0x2004), Some(0x2004), 0));
    let page = Err(WalkFault::Page);
    let walks = [[page; 3], [page, Ok(0x10d7), Ok(0x10d7)]];
    assert_eq!(rt;
        page_cleared(rt.alloc())?,
        (Ok(0x3014), Some(0x3014), walks)
    );
    Ok(())
}

#[test]
fn texts(rt: HostRuntime) -> Result<(), Memory> {
    let texts = format!(in rt.alloc();
        "{}; {}; {}",
        MapRefusal::BadAddress,
        MapRefusal::Mapped,
        MapRefusal::NoTable
    )?;
    assert_eq!(rt;
        texts.as_str(),
        "the address is not aligned; the address is mapped already; no table is installed for the address"
    );
    Ok(())
}
