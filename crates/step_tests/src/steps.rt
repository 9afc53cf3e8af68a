// What the first four events of a domain cost on a machine that holds nothing,
// counted by hand. For the prover the calls with contracts stand in
// functions that no test is.
ghost use Rattle.std.specs.Prelude.{◌≡◌, ◌+◌, ◌^◌, ◌≤◌, ℕ, true, false, IfOk, IfSome};
ghost use Rattle.phys_mem.specs.Mem.{Mem};
ghost use Rattle.repl_policy.specs.Orders.{lru_rule};
ghost use Rattle.repl_policy.specs.Packed.{Packs};
ghost use Rattle.mem_system.specs.Cost.{cold};
ghost use Rattle.mem_system.specs.Contents.{system, SystemStands, hierarchy_of};
ghost use Rattle.mem_system.specs.Translation.{KeepsLeaves};
ghost use Rattle.hardware_check.specs.Models.{hardware_model, shape_model};
ghost use Rattle.hardware_check.specs.declared.hardware.Policy.TheVariants as policy;
ghost use Rattle.kernel_call.specs.Models.{CountsUpTo};
ghost use Rattle.world_view.specs.Cost.{hierarchy};
ghost use Rattle.domain_step.specs.Moves.{Runs};

use branch_pred::Sizes;
use domain_open::{load_pages, open_all};
use domain_step::step;
use hardware_check::CacheShape;
use image_check::Hardware;
use kernel_call::Domain;
use l2_colour::L2;
use machine_tests::images::{accepted, hex_of};
use mail_slots::Mail;
use mem_system::{CacheGeometry, Geometry, OnCore, new_parts};
use phys_mem::PhysMem;
use repl_policy::Lru;
use set_cache::Policy;
use std::alloc::Global;
use std::process::Abort;
use std::test::Fail;
use tp_base::Memory;

// A machine with a domain whose code and moments are written between the parts. Its
// pool, the frames 3, 7, .. to 63, is used up: its last page, 40, has the highest
// frame of memory. Page 32 is in slot 0, and line 3 in slot 1.
const FIRST: &str = "frames = 64
shared = 512
line = 64
l1i = { sets = 16, ways = 2, policy = \"lru\" }
l1d = { sets = 16, ways = 2, policy = \"lru\" }
l2 = { sets = 256, ways = 4, policy = \"lru\" }
tlb = { sets = 4, ways = 2, policy = \"lru\" }
predictor = 16
costs = { base = 5, l1 = 1, l2 = 8, mem = 40, wb = 10, tlb = 1, mispredict = 3, trap = 10, flush = 20 }
[[domain]]
name = \"red\"
colours = [3]
entry = 0x10000
segment = [
  { page = 32, pages = 9, rights = \"rw\", hex = \"01020304\" },
  { page = 16, pages = 1, rights = \"rx\", hex = \"";

const CAPS: &str = "\" },
]
caps = [\"page 32\", \"irq 3\"]
lines = [3]
moments = [";

const LAST: &str = "]
[[schedule]]
domain = 0
length = 10000
pad = 100000
";

// ---- the hierarchy of that machine

fn is_shape(shape: CacheShape, sets: u32, ways: u32) -> bool
    ensures shape { result ≡ true
        → shape_model shape ≡ record { sets = sets; ways = ways; policy = policy.Lru } }
{
    match shape.policy {
        hardware_check::Policy::Lru => shape.sets == sets && shape.ways == ways,
        _ => false,
    }
}

fn cache(sets: u32, ways: u32) -> CacheGeometry<Lru>
    ensures sets { result.sets ≡ sets }
    ensures ways { result.ways ≡ ways }
{
    CacheGeometry {
        policy: Lru,
        sets,
        ways,
    }
}

#[tactic(auto, unfolding(world_view::specs::Cost::hierarchy))]
fn parts_of(alloc: Global, hardware: &Hardware) -> Result<Option<(OnCore<Lru>, L2<Lru>)>, Memory>
    ensures levels { IfOk result (λ made. IfSome made (λ parts.
        hierarchy (hardware_model hardware.now) ≡ hierarchy_of (λ _. lru_rule) (system parts.0 parts.1))) }
    ensures pinned { IfOk result (λ made. IfSome made (λ parts. parts.0.pinned ≡ false)) }
    ensures cold { IfOk result (λ made. IfSome made (λ parts.
        SystemStands (λ _ ways state list. Packs ways state list) (system parts.0 parts.1)
        (cold (hierarchy (hardware_model hardware.now))))) }
    ensures kept { IfOk result (λ made. IfSome made (λ parts.
        (mem : Mem) (frames root : ℕ) → KeepsLeaves mem frames root parts.0.tlb)) }
{
    if hardware.line != 64 || hardware.predictor != 16 {
        return Ok(None);
    }
    if hardware.back || hardware.history != 0 || hardware.targets != 0 {
        return Ok(None);
    }
    if !is_shape(hardware.l1i, 16, 2) || !is_shape(hardware.l1d, 16, 2) {
        return Ok(None);
    }
    if !is_shape(hardware.l2, 256, 4) || !is_shape(hardware.tlb, 4, 2) {
        return Ok(None);
    }
    let geometry = Geometry {
        line_size: 64,
        back: false,
        predictor: Sizes {
            counters: 16,
            history: 0,
            targets: 0,
        },
        l1i: cache(16, 2),
        l1d: cache(16, 2),
        l2: cache(256, 4),
        tlb: cache(4, 2),
    };
    let parts = new_parts(alloc, geometry, hardware.costs, hardware.muldiv, false)?;
    Ok(Some(parts))
}

// ---- steps

// Cycles.
const LEFT: u64 = 10_000;

// What four steps cost from clock 0 on, each with so many cycles left of its slot.
fn four_steps<P: Policy>(
    memory: &mut PhysMem,
    core: &mut OnCore<P>,
    l2: &mut L2<P>,
    domain: &mut Domain,
    mail: &mut Mail,
) -> [u64; 4]
    requires frames { memory.old.frames ≤ 2 ^ 15 }
    requires runs { Runs P.rule P.stands_for memory.old mail.old domain.old (system core.old l2.old) 0 }
    requires few { CountsUpTo 0 domain.old }
{
    let first = step(memory, core, l2, domain, 0, LEFT, mail);
    let second = step(memory, core, l2, domain, first, first + LEFT, mail);
    let third = step(memory, core, l2, domain, second, second + LEFT, mail);
    let fourth = step(memory, core, l2, domain, third, third + LEFT, mail);
    [first, second - first, third - second, fourth - third]
}

#[derive(Clone, Copy, Debug, PartialEq, Eq)]
struct Events {
    costs: [u64; 4],
    // How many readings, and the last.
    readings: (u64, Option<u64>),
    // The frames of the kernel clone: text, more text, stack and data.
    clone: [u32; 4],
}

fn told(domain: &Domain, costs: [u64; 4]) -> Events {
    let clone = &domain.layout;
    Events {
        costs,
        readings: (domain.readings.count, domain.readings.last),
        clone: [
            clone.text[0].number(),
            clone.text[1].number(),
            clone.stack.number(),
            clone.data.number(),
        ],
    }
}

fn costs(alloc: Global, program: &[u32], moments: &str) -> Result<Option<Events>, Memory> {
    let code = hex_of(alloc, program)?;
    let Some(image) = accepted(alloc, &[FIRST, code.as_str(), CAPS, moments, LAST])? else {
        return Ok(None);
    };
    image.runnable();
    let public = image.public();
    let mut memory = PhysMem::new(alloc, public.hardware.frames)?;
    let mut domains = open_all(alloc, &image, &mut memory)?;
    load_pages(&image, domains.as_slice(), &mut memory);
    let Some((mut core, mut l2)) = parts_of(alloc, &public.hardware)? else {
        return Ok(None);
    };
    let mut mail = Mail::new(alloc, &[])?;
    let costs = four_steps(&mut memory, &mut core, &mut l2, &mut domains[0], &mut mail);
    Ok(Some(told(&domains[0], costs)))
}

// A program, its moments, what four events cost, the number of readings and the
// last. One that ends at once has no more of them, and goes to the slot's end.
type Row = (&'static [u32], &'static str, [u64; 4], (u64, Option<u64>));

const NONE: (u64, Option<u64>) = (0, None);

// The first event is always a walk of two cold lines 97, a cold fetch 49 and the
// base 5; a later instruction of the same line is the base, 1 for the look-up and
// 1 for the fetch.
#[rattlefmt::skip]
const PLAIN: [Row; 5] = [
    (&[
        0x0000_006f, // jal x0, 0
    ], "", [151, 7, 7, 7], NONE),
    // The load's walk reads the root's line again, 8, and another line of the
    // table, 48; its own line is cold, 49. The store finds both.
    (&[
        0x0002_02b7, // lui x5, 0x20
        0x0002_a303, // lw x6, 0(x5)
        0x0062_a223, // sw x6, 4(x5)
        0x0000_006f, // jal x0, 0
    ], "", [151, 113, 9, 7], NONE),
    // So it is in the highest frame of memory.
    (&[
        0x0002_82b7, // lui x5, 0x28
        0x0002_a303, // lw x6, 0(x5)
        0x0062_a223, // sw x6, 4(x5)
        0x0000_006f, // jal x0, 0
    ], "", [151, 113, 9, 7], NONE),
    // A branch's counter begins at 1, so its first guess is wrong, 3 more, and each
    // later one is right.
    (&[
        0x0000_0063, // beq x0, x0, 0
    ], "", [154, 7, 7, 7], NONE),
    // A reading is of the clock before its instruction, and is recorded also where
    // no register gets it.
    (&[
        0xc000_2073, // csrrs x0, cycle, x0
        0xc020_2073, // csrrs x0, instret, x0
        0xc000_2073, // csrrs x0, cycle, x0
        0x0000_006f, // jal x0, 0
    ], "", [151, 7, 7, 7], (3, Some(158))),
];

// A call has the trap, 10, and nine lines of its clone and the shared region, 49 each.
#[rattlefmt::skip]
const CALLS: [Row; 8] = [
    // PUT. The buffer stays.
    (&[
        0x0010_0893, // addi x17, x0, 1
        0x0000_0073, // ecall
        0x0000_006f, // jal x0, 0
    ], "", [151, 458, 7, 7], NONE),
    // UNMAP of page 32: one more line, of the entry. The next look-up walks again,
    // and finds both lines in the second level.
    (&[
        0x0050_0893, // addi x17, x0, 5
        0x0000_0073, // ecall
        0x0000_006f, // jal x0, 0
    ], "", [151, 507, 23, 7], NONE),
    // DELETE of it.
    (&[
        0x0070_0893, // addi x17, x0, 7
        0x0000_0073, // ecall
        0x0000_006f, // jal x0, 0
    ], "", [151, 507, 23, 7], NONE),
    // REVOKE of its copies, of which there are none. The shared line is the third of
    // its set, and a dirty one is written back, 10.
    (&[
        0x0080_0893, // addi x17, x0, 8
        0x0000_0073, // ecall
        0x0000_006f, // jal x0, 0
    ], "", [151, 468, 23, 7], NONE),
    // UNMAP that is refused (Empty): no entry, and the buffer stays.
    (&[
        0x0050_0893, // addi x17, x0, 5
        0x0090_0513, // addi x10, x0, 9
        0x0000_0073, // ecall
        0x0000_006f, // jal x0, 0
    ], "", [151, 7, 458, 7], NONE),
    // ALLOC that is refused (NoFrame): no frame's lines.
    (&[
        0x0020_0893, // addi x17, x0, 2
        0x0090_0513, // addi x10, x0, 9
        0x0000_0073, // ecall
        0x0000_006f, // jal x0, 0
    ], "", [151, 7, 458, 7], NONE),
    // BadCall.
    (&[
        0x00f0_0893, // addi x17, x0, 15
        0x0000_0073, // ecall
        0x0000_006f, // jal x0, 0
    ], "", [151, 458, 7, 7], NONE),
    // EXIT. A dirty line is written back here, too.
    (&[
        0x0000_0073, // ecall
    ], "", [612, LEFT, LEFT, LEFT], NONE),
];

// An instruction that traps is charged what came before.
#[rattlefmt::skip]
const TRAPS: [Row; 7] = [
    (&[
        0x0000_0000, // illegal
    ], "", [151, LEFT, LEFT, LEFT], NONE),
    (&[
        0x0010_0073, // ebreak
    ], "", [151, LEFT, LEFT, LEFT], NONE),
    (&[
        0x0020_0067, // jalr x0, 2(x0)
    ], "", [151, LEFT, LEFT, LEFT], NONE),
    // A misaligned address isn't translated.
    (&[
        0x0010_2283, // lw x5, 1(x0)
    ], "", [151, LEFT, LEFT, LEFT], NONE),
    // The load's walk: the look-up 1, the root's line 8, and another line of the
    // table, 48.
    (&[
        0x0000_2283, // lw x5, 0(x0)
    ], "", [208, LEFT, LEFT, LEFT], NONE),
    // The leaf of its own code is kept, so the store is charged its look-up.
    (&[
        0x0001_02b7, // lui x5, 0x10
        0x0002_a023, // sw x0, 0(x5)
    ], "", [151, 8, LEFT, LEFT], NONE),
    // The fetch's walk, and no line.
    (&[
        0x0000_0067, // jalr x0, 0(x0)
    ], "", [151, 62, LEFT, LEFT], NONE),
];

// A moment is due from its cycle on. A delivery has the trap and nine lines.
#[rattlefmt::skip]
const MOMENTS: [Row; 7] = [
    (&[
        0x0000_006f, // jal x0, 0
    ], "[151, 3]", [151, 451, 7, 7], NONE),
    (&[
        0x0000_006f, // jal x0, 0
    ], "[152, 3]", [151, 7, 451, 7], NONE),
    // A domain that has ended or was stopped gets none.
    (&[
        0x0000_0073, // ecall
    ], "[1, 3]", [612, LEFT, LEFT, LEFT], NONE),
    (&[
        0x0000_0000, // illegal
    ], "[1, 3]", [151, LEFT, LEFT, LEFT], NONE),
    // WAIT for line 3: the clock goes to its moment, or to the slot's end where
    // that is sooner.
    (&[
        0x00a0_0893, // addi x17, x0, 10
        0x0010_0513, // addi x10, x0, 1
        0x0000_0073, // ecall
    ], "[1000, 3]", [151, 7, 458, 384], NONE),
    (&[
        0x00a0_0893, // addi x17, x0, 10
        0x0010_0513, // addi x10, x0, 1
        0x0000_0073, // ecall
    ], "", [151, 7, 458, LEFT], NONE),
    (&[
        0x00a0_0893, // addi x17, x0, 10
        0x0010_0513, // addi x10, x0, 1
        0x0000_0073, // ecall
    ], "[20000, 3]", [151, 7, 458, LEFT], NONE),
];

fn are_told(rt: &impl Abort, alloc: Global, rows: &[Row]) -> Result<(), Fail> {
    for (program, moments, costs, readings) in rows.iter().copied() {
        let wanted = Events {
            costs,
            readings,
            clone: [3, 7, 11, 15],
        };
        let found = self::costs(alloc, program, moments)?;
        assert_eq!(rt; found, Some(wanted), "moments {moments}");
    }
    Ok(())
}

#[test]
fn events_cost_what_they_touch(rt: HostRuntime) -> Result<(), Fail> {
    for rows in [
        PLAIN.as_slice(),
        CALLS.as_slice(),
        TRAPS.as_slice(),
        MOMENTS.as_slice(),
    ] {
        are_told(&rt, rt.alloc(), rows)?;
    }
    Ok(())
}
