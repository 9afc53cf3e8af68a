// Slots that are filled, copied, noted and emptied.
ghost use Rattle.std.specs.Prelude.{⊤};

use cap_table::{Cap, CapTable, Given, Gone};
use frame_colours::{AllColours, Pool};
use std::alloc::Global;
use std::process::Abort;
use std::test::Fail;
use tp_base::{FrameNo, Memory, Rights, Zero};

// A memory that reads zero everywhere.
#[derive(Drop)]
struct Zeros;

impl Zero for Zeros {
    ghost has_frame = { λ z f. ⊤ };

    ghost word = { λ z f i. 0 };

    ghost zeroed = { λ z f. z };

    fn zero_frame(&mut self, _: FrameNo) {}
}

// The frames 1, 5, .. to 61.
fn frames(alloc: Global) -> Result<Pool, Memory> {
    let colours = vec![in alloc; Vec::from_slice(alloc, &[1])?]?;
    let mut shares = AllColours::new(64, 4).split(alloc, &colours)?;
    let share = shares.remove(0);
    shares.destroy_empty();
    Pool::new(alloc, share).map_err(|(share, error)| {
        share.discard();
        error
    })
}

// Slot 0 has a page, frame 1; slot 1 a table, frame 5; and slot 2 line 3.
fn filled(alloc: Global) -> Result<CapTable, Memory> {
    let mut pool = frames(alloc)?;
    let page = pool.take().ok_or(Memory)?;
    let table = pool.take().ok_or(Memory)?;
    let mut caps = CapTable::new(alloc)?;
    caps.put(0, Given::Page(page.hold(&mut Zeros), Rights::new(7)));
    caps.put(1, Given::Table(table.table(&mut Zeros)));
    caps.put(2, Given::Irq(3));
    Ok(caps)
}

// The calls where they may be called; what they may not be called with is left out.

fn copy(caps: &mut CapTable, from: u32, to: u32, rights: Rights) {
    if from < 64 && to < 64 && caps.get(to).is_none() {
        if let Some(Cap::Frame { .. } | Cap::Irq { .. }) = caps.get(from) {
            caps.copy(from, to, rights);
        }
    }
}

fn note(caps: &mut CapTable, slot: u32, at: Option<u32>) {
    if slot < 64 {
        if let Some(Cap::Frame { .. } | Cap::Table { .. }) = caps.get(slot) {
            caps.note(slot, at);
        }
    }
}

fn delete(caps: &mut CapTable, slot: u32) -> Option<Gone> {
    if slot < 64 && caps.get(slot).is_some() && !caps.in_use(slot) {
        Some(caps.delete(slot))
    } else {
        None
    }
}

// What came back: the addresses, the page's number and the table's.
fn deleted(caps: &mut CapTable, slot: u32) -> Option<[Option<u32>; 4]> {
    let gone = delete(caps, slot)?;
    Some([
        gone.unmapped,
        gone.uninstalled,
        gone.held.map(|page| page.number().number()),
        gone.table.map(|table| table.number().number()),
    ])
}

// How many slots were emptied, and the first two addresses.
fn revoked(caps: &mut CapTable, slot: u32) -> Option<(u32, u32, u32, u32)> {
    if slot < 64 && caps.get(slot).is_some() {
        let revoked = caps.revoke(slot);
        Some((
            revoked.count,
            revoked.written,
            revoked.entries[0],
            revoked.entries[1],
        ))
    } else {
        None
    }
}

// For the prover the slots are lent to functions with few asserts each.

fn fill_more(caps: &mut CapTable) {
    // Page 1 has slots 0, 63, 9 and 10, of which 9 isn't mapped; line 3 has 2 and 11.
    for (from, to, rights) in [
        (0, 63, Rights::new(1)),
        (0, 9, Rights::new(3)),
        (63, 10, Rights::new(5)),
        (2, 11, Rights::new(0)),
        (1, 12, Rights::new(7)),
    ] {
        copy(caps, from, to, rights);
    }
    for (slot, at) in [
        (1, 0x0040_0000),
        (0, 0x0040_1000),
        (63, 0x0080_0000),
        (10, 0x007f_f000),
        (2, 0x0040_0000),
    ] {
        note(caps, slot, Some(at));
    }
}

fn slots_are_filled(rt: &impl Abort, caps: &CapTable) {
    let in_use = [caps.in_use(0), caps.in_use(1), caps.in_use(2)];
    assert_eq!(rt; in_use, [false, true, false]);
    assert_eq!(rt; caps.get(12), None);
    assert_eq!(rt; caps.get(11), Some(Cap::Irq { line: 3 }));
    assert_eq!(rt;
        caps.get(10),
        Some(Cap::Frame {
            frame: FrameNo::new(1),
            rights: Rights::new(5),
            mapped: Some(0x007f_f000),
        })
    );
}

// A slot, and what comes back when it is deleted.
type Deleted = (u32, Option<[Option<u32>; 4]>);

fn slots_are_deleted(rt: &impl Abort, caps: &mut CapTable, rows: &[Deleted]) {
    for &(slot, gone) in rows {
        assert_eq!(rt; deleted(caps, slot), gone, "slot {slot}");
    }
}

fn slots_are_emptied(rt: &impl Abort, caps: &mut CapTable) {
    // A table is deleted when no page is mapped through it.
    slots_are_deleted(rt, caps, &TABLE_IN_USE);
    assert_eq!(rt; revoked(caps, 9), Some((2, 2, 0x007f_f000, 0x0080_0000)));
    assert_eq!(rt; revoked(caps, 2), Some((1, 0, 0, 0)));
    slots_are_deleted(rt, caps, &LAST);
}

const TABLE_IN_USE: [Deleted; 3] = [
    (1, None),
    (0, Some([Some(0x0040_1000), None, None, None])),
    (1, None),
];

const LAST: [Deleted; 5] = [
    (1, Some([None, Some(0x0040_0000), None, Some(5)])),
    (63, None),
    (9, Some([None, None, Some(1), None])),
    (2, Some([None; 4])),
    (11, None),
];

#[test]
fn frames_come_back_with_their_last_capability(rt: HostRuntime) -> Result<(), Fail> {
    let mut caps = filled(rt.alloc())?;
    fill_more(&mut caps);
    slots_are_filled(&rt, &caps);
    slots_are_emptied(&rt, &mut caps);
    Ok(())
}
