// A domain in its slot.
ghost use Rattle.std.specs.Prelude.{◌≡◌, ℕ, ◌+◌, ◌^◌, ◌<◌, ◌≤◌, true, List, length, Some, None, Ok, option_map};
ghost use Rattle.cycle_cost.specs.Ranges.{most_data, most_guess, most_outcome, most_plain, most_instruction, most_operation, most_event};
ghost use Rattle.phys_mem.specs.Contents.{Contents};
ghost use Rattle.page_map.specs.Tables.{StandsWith};
ghost use Rattle.rv_core.specs.Effect.{effect_of};
ghost use Rattle.rv_core.specs.Memory.{address_of, misalignment_of};
ghost use Rattle.rv_decode.specs.Ranges.{HasRegisters};
ghost use Rattle.thread_set.specs.Threads.{is_ready};
ghost use Rattle.irq_partition.specs.Interrupts.{next_of};
ghost use Rattle.kernel_clone.specs.Footprints.{IsLayout, delivery_op};
ghost use Rattle.kernel_clone.specs.Models.{layout_model};
ghost use Rattle.cap_table.specs.Slots.{Slots};
ghost use Rattle.call_table.specs.declared.Reply.{Reply};
ghost use Rattle.call_table.specs.Domain.{delivered_on};
ghost use Rattle.kernel_call.specs.Models.{dom_model, Becomes, CountsUpTo};
ghost use Rattle.kernel_call.specs.Threads.{KeepsAtDelivery};
ghost use Rattle.mem_system.specs.Cost.{Touched};
ghost use Rattle.l2_colour.specs.Contents.{L2Contents};
ghost use Rattle.mem_system.specs.Contents.{system, MakesTouches, hierarchy_of};
ghost use Rattle.mem_system.specs.Translation.{KeepsLeaves};
ghost use Rattle.mem_system.specs.Operations.{operation, plain};
ghost use Rattle.world_view.specs.Event as event;
ghost use Rattle.world_view.specs.Machine as spec;
ghost use Rattle.world_view.specs.Kernel.{estate};
ghost use Rattle.domain_step.specs.Stands.{HasRoom, Grows, KeepsFrames, GoesOn, retired_by, IsPlain, IsOther};
ghost use Rattle.world_view.specs.Machine.{Setting};
ghost use Rattle.domain_step.specs.Kept.{Kept, KeptOf};
ghost use Rattle.domain_step.specs.Moves.{Yields, Answered, Finds, Leaves, Moves, MovesAlong, Runs};

use crate::access::{load, store, translate};
use crate::instruction::{call, counter_value, finish, stop};
use crate::products::{divide, multiply};
use call_table::DomainStatus;
use domain_switch::charge;
use kernel_call::{Domain, deliver};
use l2_colour::L2;
use mail_slots::Mail;
use mem_system::OnCore;
use phys_mem::PhysMem;
use rv_core::{Effect, Exception, Trap, address, misalignment};
use rv_decode::{Instr, decode};
use set_cache::Policy;
use sv32_walk::Access;
use tp_base::FrameNo;

// ---- an instruction. The cycles that it charges are added to those spent.

// An instruction that has begun.
#[derive(Clone, Copy)]
struct Begun {
    instr: Instr,
    /// The root of the page tables that it runs by.
    root: FrameNo,
    /// The clock at which it began, in cycles.
    clock: u64,
}

// What the instruction needs from outside the registers: what a load finds at
// its address, or a counter's value.
#[inline(always)]
fn loaded<P: Policy>(
    memory: &PhysMem,
    core: &mut OnCore<P>,
    l2: &mut L2<P>,
    domain: &Domain,
    spent: &mut u32,
    begun: &Begun,
    at: u32,
) -> Result<u32, Trap>
    requires address { at ≡ address_of domain.now.threads.active.regs begun.now.instr }
    requires aligned { misalignment_of begun.now.instr at ≡ None }
    requires frames { memory.now.frames ≤ 2 ^ 15 }
    requires leaves { StandsWith memory.now
        (λ m. KeepsLeaves m memory.now.frames begun.now.root core.old.tlb) }
    requires spent { spent.old < 2 ^ 31 }
    ensures finds { (w : Setting) (caps : Slots) (s : event.Storage) (r : Touched)
        (readings : List ℕ) (replies : List Reply)
        → Kept P.rule P.stands_for w caps begun.now.root memory.now (system core.old l2.old) spent.old s r
        → Yields w (event.loaded w.machine begun.now.root begun.now.clock
        (dom_model domain.now readings replies) begun.now.instr) s r
        (Answered (dom_model domain.now readings replies) result
        (Kept P.rule P.stands_for w caps begun.now.root memory.now (system core.new l2.new) spent.new)) }
    ensures leaves { StandsWith memory.now
        (λ m. KeepsLeaves m memory.now.frames begun.now.root core.new.tlb) }
    ensures few { spent.new ≤ spent.old + most_data }
{
    match begun.instr {
        Instr::Load { width, .. } => load(memory, core, l2, spent, begun.root, width, at),
        Instr::ReadCounter { counter, .. } => Ok(counter_value(counter, begun.clock, domain)),
        _ => Ok(0),
    }
}

// A branch is guessed, and taught whether it is taken; where it or a jump goes is looked up.
#[inline(always)]
fn guess<P: Policy>(core: &mut OnCore<P>, spent: &mut u32, instr: Instr, pc: u32, effect: Effect)
    requires spent { spent.old < 2 ^ 31 }
    ensures finds { (w : Setting) (l2 : L2Contents P) (caps : Slots) (root : ℕ) (memory : Contents)
        → Finds w (λ d. event.guessed instr pc effect) (Ok tt)
        (Kept P.rule P.stands_for w caps root memory (system core.old l2) spent.old)
        (Kept P.rule P.stands_for w caps root memory (system core.new l2) spent.new) }
    ensures buffer { core.new.tlb ≡ core.old.tlb }
    ensures few { spent.new ≤ spent.old + most_guess }
{
    match instr {
        Instr::Branch { .. } => *spent += core.branch(pc, effect.taken, effect.next),
        Instr::Jal { .. } => *spent += core.jump(pc, effect.next),
        Instr::Jalr { .. } => *spent += core.jump(pc, effect.next),
        _ => {}
    }
}

// The effect of an instruction: a trap, or a branch's guess, a store, the
// registers and the next instruction. Answers whether the domain goes on.
#[inline(always)]
fn settle<P: Policy>(
    memory: &mut PhysMem,
    core: &mut OnCore<P>,
    l2: &mut L2<P>,
    domain: &mut Domain,
    spent: &mut u32,
    begun: &Begun,
    value: u32,
) -> bool
    requires registers { HasRegisters begun.now.instr }
    requires room { HasRoom domain.old }
    requires frames { memory.old.frames ≤ 2 ^ 15 }
    requires leaves { StandsWith memory.old
        (λ m. KeepsLeaves m memory.old.frames begun.now.root core.old.tlb) }
    requires spent { spent.old < 2 ^ 30 }
    ensures leaves { (w : Setting) → Leaves w
        (λ d. event.settle w.machine begun.now.root d begun.now.instr value
        (effect_of d.threads.current.regs d.threads.current.pc begun.now.instr value))
        domain.old (Kept P.rule P.stands_for w domain.old.caps begun.now.root
        memory.old (system core.old l2.old) spent.old)
        domain.new (Kept P.rule P.stands_for w domain.old.caps begun.now.root
        memory.new (system core.new l2.new) spent.new) }
    ensures frames { memory.new.frames ≡ memory.old.frames }
    ensures grows { Grows (retired_by result) 1 0 domain.old domain.new }
    ensures keeps { KeepsFrames domain.old domain.new }
    ensures goes_on { result ≡ true → GoesOn domain.old domain.new }
    ensures few { spent.new ≤ spent.old + most_outcome }
{
    let pc = domain.threads.active.pc;
    let effect = rv_core::execute(&mut domain.threads.active.regs, pc, begun.instr, value);
    if let Some(trap) = effect.trap {
        stop(domain, trap);
        return false;
    }
    guess(core, spent, begun.instr, pc, effect);
    match store(memory, core, l2, spent, begun.root, effect.store) {
        Ok(()) => {
            finish(domain, begun.instr, value, effect.next);
            true
        }
        Err(trap) => {
            stop(domain, trap);
            false
        }
    }
}

// An instruction that is no kernel call. Misaligned loads and stores trap
// before their address is translated. Answers whether the domain goes on.
#[inline(always)]
fn execute<P: Policy>(
    memory: &mut PhysMem,
    core: &mut OnCore<P>,
    l2: &mut L2<P>,
    domain: &mut Domain,
    spent: &mut u32,
    begun: &Begun,
) -> bool
    requires registers { HasRegisters begun.now.instr }
    requires room { HasRoom domain.old }
    requires frames { memory.old.frames ≤ 2 ^ 15 }
    requires leaves { StandsWith memory.old
        (λ m. KeepsLeaves m memory.old.frames begun.now.root core.old.tlb) }
    requires spent { spent.old < 2 ^ 29 }
    ensures leaves { (w : Setting) → Leaves w
        (λ d. event.execute w.machine begun.now.root begun.now.clock d begun.now.instr)
        domain.old (Kept P.rule P.stands_for w domain.old.caps begun.now.root
        memory.old (system core.old l2.old) spent.old)
        domain.new (Kept P.rule P.stands_for w domain.old.caps begun.now.root
        memory.new (system core.new l2.new) spent.new) }
    ensures frames { memory.new.frames ≡ memory.old.frames }
    ensures grows { Grows (retired_by result) 1 0 domain.old domain.new }
    ensures keeps { KeepsFrames domain.old domain.new }
    ensures goes_on { result ≡ true → GoesOn domain.old domain.new }
    ensures few { spent.new ≤ spent.old + most_plain }
{
    let at = address(&domain.threads.active.regs, begun.instr);
    if let Some(trap) = misalignment(begun.instr, at) {
        stop(domain, trap);
        return false;
    }
    match loaded(memory, core, l2, domain, spent, begun, at) {
        Ok(value) => settle(memory, core, l2, domain, spent, begun, value),
        Err(trap) => {
            stop(domain, trap);
            false
        }
    }
}

// The domain's next instruction, at a clock, with the kernel call that it makes.
// Answers true only where the domain goes on, and no call was made.
#[inline(always)]
fn run_instruction<P: Policy>(
    memory: &mut PhysMem,
    core: &mut OnCore<P>,
    l2: &mut L2<P>,
    domain: &mut Domain,
    spent: &mut u32,
    now: u64,
    mail: &mut Mail,
) -> bool
    requires room { HasRoom domain.old }
    requires frames { memory.old.frames ≤ 2 ^ 15 }
    requires runs { Runs P.rule P.stands_for memory.old mail.old domain.old (system core.old l2.old) now }
    requires ready { is_ready domain.old.threads.active.state ≡ true }
    requires spent { spent.old < 2 ^ 28 }
    ensures leaves { (w : Setting) → Leaves w
        (event.instruction w.machine (estate w.machine w.own) w.clone now)
        domain.old (KeptOf P.rule P.stands_for w domain.old memory.old mail.old
        (system core.old l2.old) spent.old)
        domain.new (KeptOf P.rule P.stands_for w domain.new memory.new mail.new
        (system core.new l2.new) spent.new) }
    ensures frames { memory.new.frames ≡ memory.old.frames }
    ensures grows { Grows (retired_by result) 1 2 domain.old domain.new }
    ensures moments { domain.new.interrupts.moments ≡ domain.old.interrupts.moments }
    ensures goes_on { result ≡ true → GoesOn domain.old domain.new }
    ensures few { spent.new ≤ spent.old + most_instruction }
{
    let root = domain.map.root();
    let pc = domain.threads.active.pc;
    let at = match translate(memory, core, l2, spent, root, Access::Fetch, pc) {
        Ok(at) => at,
        Err(trap) => {
            stop(domain, trap);
            return false;
        }
    };
    let line = l2.line_of(at);
    *spent += core.fetch(l2, line);
    let word = memory.read_word(at / 4 * 4);
    let Some(instr) = decode(word, core.products().is_some()) else {
        stop(
            domain,
            Trap {
                exception: Exception::IllegalInstruction,
                value: word,
            },
        );
        return false;
    };
    match instr {
        Instr::Ecall => {
            *spent = call(memory, core, l2, domain, *spent, mail);
            false
        }
        Instr::Multiply {
            product,
            rd,
            rs1,
            rs2,
        } => {
            *spent = multiply(core, domain, *spent, product, rd, rs1, rs2);
            true
        }
        Instr::Divide {
            division,
            rd,
            rs1,
            rs2,
        } => {
            *spent = divide(core, domain, *spent, division, rd, rs1, rs2);
            true
        }
        _ => execute(
            memory,
            core,
            l2,
            domain,
            spent,
            &Begun {
                instr,
                root,
                clock: now,
            },
        ),
    }
}

// ---- a slot

// When an idle domain goes on: at its next moment, or at the slot's end where
// that is sooner.
fn idle_until(end: u64, next: Option<u64>) -> u64
    ensures value { result ≡ event.idle_until end next }
{
    match next {
        Some(next) => next.min(end),
        None => end,
    }
}

// Delivers the moment that is due, and charges the delivery. Answers the cycles.
// It stands apart, since a step would pay at each event for the room of its work.
#[inline(never)]
fn deliver_due<P: Policy>(core: &mut OnCore<P>, l2: &mut L2<P>, domain: &mut Domain) -> u32
    requires left { domain.old.interrupts.delivered < length domain.old.interrupts.moments }
    requires clone { IsLayout (layout_model domain.old.layout) }
    requires replies { domain.old.replies.count < 2 ^ 63 }
    ensures delivers { (line : ℕ) → option_map (λ x. x.line) (next_of domain.old.interrupts) ≡ Some line
        → Becomes (delivered_on line) domain.old domain.new }
    ensures keeps { KeepsAtDelivery domain.old domain.new }
    ensures makes { MakesTouches P.rule P.stands_for
        (operation core.old.costs (layout_model domain.new.layout) (plain delivery_op)) result
        (system core.old l2.old) (system core.new l2.new) }
    ensures buffer { core.new.tlb ≡ core.old.tlb }
    ensures some { 0 < result }
    ensures few { result ≤ most_operation }
{
    let work = deliver(domain);
    charge(core, l2, &domain.layout, &work)
}

// What an instruction came to.
#[derive(Clone, Copy)]
struct Ran {
    /// The clock after it, in cycles.
    clock: u64,
    /// Whether the domain goes on as it stood, so that its next event is an
    /// instruction too, unless a moment is due.
    goes_on: bool,
}

// The event of a domain whose next one is an instruction.
#[inline(always)]
fn run<P: Policy>(
    memory: &mut PhysMem,
    core: &mut OnCore<P>,
    l2: &mut L2<P>,
    domain: &mut Domain,
    now: u64,
    mail: &mut Mail,
) -> Ran
    requires frames { memory.old.frames ≤ 2 ^ 15 }
    requires runs { Runs P.rule P.stands_for memory.old mail.old domain.old (system core.old l2.old) now }
    requires plain { IsPlain domain.old now }
    requires early { now < 2 ^ 62 }
    requires few { CountsUpTo now domain.old }
    ensures becomes { (end : ℕ) → Moves P.rule P.stands_for (λ w. spec.step w end)
        memory.old mail.old domain.old (system core.old l2.old) now memory.new mail.new domain.new
        (system core.new l2.new) result.clock }
    ensures frames { memory.new.frames ≡ memory.old.frames }
    ensures hierarchy { hierarchy_of P.rule (system core.new l2.new) ≡ hierarchy_of P.rule
        (system core.old l2.old) }
    ensures pinned { core.new.pinned ≡ core.old.pinned }
    ensures runs { Runs P.rule P.stands_for memory.new mail.new domain.new
        (system core.new l2.new) result.clock }
    ensures few { CountsUpTo result.clock domain.new }
    ensures goes_on { result.goes_on ≡ true → GoesOn domain.old domain.new }
    ensures retired { domain.new.retired ≡ domain.old.retired + retired_by result.goes_on }
    ensures later { now < result.clock }
    ensures soon { result.clock ≤ now + most_event }
{
    let mut spent = 0;
    let goes_on = run_instruction(memory, core, l2, domain, &mut spent, now, mail);
    let clock = now + u64::from(core.costs().base) + u64::from(spent);
    Ran { clock, goes_on }
}

// Until when instructions are all that a domain does which goes on as it stands:
// the slot's end, or its next moment where that is sooner. 0 of one whose next
// event is none.
#[inline(always)]
fn plain_until(domain: &Domain, end: u64) -> u64
    ensures plain { (now : ℕ) → now < result → IsPlain domain.now now }
    ensures other { (now : ℕ) → result ≤ now → IsOther domain.now now end }
    ensures within { result ≤ end }
{
    let DomainStatus::Running = domain.status else {
        return 0;
    };
    if !domain.threads.active.state.is_ready() {
        return 0;
    }
    idle_until(end, domain.interrupts.next_moment())
}

// One event of a domain whose next one is no instruction. The instructions stand
// in one place by that, and are no call there.
#[inline(never)]
fn wait_or_deliver<P: Policy>(
    memory: &PhysMem,
    core: &mut OnCore<P>,
    l2: &mut L2<P>,
    domain: &mut Domain,
    now: u64,
    end: u64,
    mail: &Mail,
) -> u64
    requires runs { Runs P.rule P.stands_for memory.now mail.now domain.old (system core.old l2.old) now }
    requires before { now < end }
    requires end { end < 2 ^ 62 }
    requires few { CountsUpTo now domain.old }
    requires other { IsOther domain.old now end }
    ensures becomes { Moves P.rule P.stands_for (λ w. spec.step w end)
        memory.now mail.now domain.old (system core.old l2.old) now memory.now mail.now domain.new
        (system core.new l2.new) result }
    ensures hierarchy { hierarchy_of P.rule (system core.new l2.new) ≡ hierarchy_of P.rule
        (system core.old l2.old) }
    ensures pinned { core.new.pinned ≡ core.old.pinned }
    ensures runs { Runs P.rule P.stands_for memory.now mail.now domain.new (system core.new l2.new) result }
    ensures few { CountsUpTo result domain.new }
    ensures later { now < result }
    ensures soon { result < end + most_event }
{
    // For the prover: what is said of memory and boxes.
    let _ = memory;
    let _ = mail;
    let DomainStatus::Running = domain.status else {
        return end;
    };
    let next = idle_until(end, domain.interrupts.next_moment());
    if next <= now {
        // The end is later, so a moment is due.
        return now + u64::from(deliver_due(core, l2, domain));
    }
    next
}

/// How far events come.
#[derive(Clone, Copy)]
pub struct Advance {
    /// The clock after them, in cycles.
    pub clock: u64,
    /// How many they are.
    pub events: u64,
}

// Instructions, one after the other, while the domain goes on and the clock is
// below `until`; one at least.
#[inline(always)]
fn run_plain<P: Policy>(
    memory: &mut PhysMem,
    core: &mut OnCore<P>,
    l2: &mut L2<P>,
    domain: &mut Domain,
    now: u64,
    until: u64,
    mail: &mut Mail,
) -> Advance
    requires frames { memory.old.frames ≤ 2 ^ 15 }
    requires runs { Runs P.rule P.stands_for memory.old mail.old domain.old (system core.old l2.old) now }
    requires plain { (t : ℕ) → t < until → IsPlain domain.old t }
    requires before { now < until }
    requires until { until < 2 ^ 62 }
    requires few { CountsUpTo now domain.old }
    ensures along { (end : ℕ) → MovesAlong P.rule P.stands_for end until result.events
        memory.old mail.old domain.old (system core.old l2.old) now memory.new mail.new domain.new
        (system core.new l2.new) result.clock }
    ensures frames { memory.new.frames ≡ memory.old.frames }
    ensures hierarchy { hierarchy_of P.rule (system core.new l2.new) ≡ hierarchy_of P.rule
        (system core.old l2.old) }
    ensures pinned { core.new.pinned ≡ core.old.pinned }
    ensures runs { Runs P.rule P.stands_for memory.new mail.new domain.new
        (system core.new l2.new) result.clock }
    ensures few { CountsUpTo result.clock domain.new }
    ensures later { now < result.clock }
    ensures apart { now + result.events ≤ result.clock }
    ensures soon { result.clock < until + most_event }
{
    let before = domain.retired;
    let mut clock = now;
    let mut goes_on = true;
    while goes_on && clock < until {
        let ran = run(memory, core, l2, domain, clock, mail);
        clock = ran.clock;
        goes_on = ran.goes_on;
    }
    // Each retired, but for a last one with which the domain doesn't go on.
    let retired = domain.retired - before;
    if goes_on {
        return Advance {
            clock,
            events: retired,
        };
    }
    Advance {
        clock,
        events: retired + 1,
    }
}

/// Events while the clock is below `until`, in a slot that ends then or later. Answers the
/// clock after them, and how many they are. Of a domain that runs, a moment that is due is delivered, and
/// the delivery charged; else, where no thread is ready, the clock goes on to the next moment
/// or the end; else the current thread runs an instruction, which with all that it charges
/// may be past the end. One that doesn't run waits for the end.
///
/// One event and a whole slot are both this call, so that who wants both has the code of an
/// instruction in one place.
pub fn run_until<P: Policy>(
    memory: &mut PhysMem,
    core: &mut OnCore<P>,
    l2: &mut L2<P>,
    domain: &mut Domain,
    now: u64,
    until: u64,
    end: u64,
    mail: &mut Mail,
) -> Advance
    requires frames { memory.old.frames ≤ 2 ^ 15 }
    requires runs { Runs P.rule P.stands_for memory.old mail.old domain.old (system core.old l2.old) now }
    requires within { until ≤ end }
    requires end { end < 2 ^ 62 }
    requires few { CountsUpTo now domain.old }
    ensures along { MovesAlong P.rule P.stands_for end until result.events
        memory.old mail.old domain.old (system core.old l2.old) now memory.new mail.new domain.new
        (system core.new l2.new) result.clock }
    ensures once { until ≡ now + 1 → Moves P.rule P.stands_for (λ w. spec.step w end)
        memory.old mail.old domain.old (system core.old l2.old) now memory.new mail.new domain.new
        (system core.new l2.new) result.clock }
    ensures whole { until ≡ end → Moves P.rule P.stands_for (λ w. spec.stretch w end)
        memory.old mail.old domain.old (system core.old l2.old) now memory.new mail.new domain.new
        (system core.new l2.new) result.clock }
    ensures frames { memory.new.frames ≡ memory.old.frames }
    ensures hierarchy { hierarchy_of P.rule (system core.new l2.new) ≡ hierarchy_of P.rule
        (system core.old l2.old) }
    ensures pinned { core.new.pinned ≡ core.old.pinned }
    ensures runs { Runs P.rule P.stands_for memory.new mail.new domain.new
        (system core.new l2.new) result.clock }
    ensures few { CountsUpTo result.clock domain.new }
    ensures over { until ≤ result.clock }
    ensures soon { now < until → result.clock < end + most_event }
    ensures done { until ≤ now → result.clock ≡ now }
    ensures apart { now + result.events ≤ result.clock }
{
    // Each event takes a cycle or more.
    let _costs = core.costs();
    let mut clock = now;
    let mut events = 0;
    while clock < until {
        let plain = plain_until(domain, until);
        if clock < plain {
            let ran = run_plain(memory, core, l2, domain, clock, plain, mail);
            clock = ran.clock;
            events += ran.events;
        } else {
            clock = wait_or_deliver(memory, core, l2, domain, clock, end, mail);
            events += 1;
        }
    }
    Advance { clock, events }
}

/// One event of the domain in a slot that ends then. Answers the new clock, in cycles.
pub fn step<P: Policy>(
    memory: &mut PhysMem,
    core: &mut OnCore<P>,
    l2: &mut L2<P>,
    domain: &mut Domain,
    now: u64,
    end: u64,
    mail: &mut Mail,
) -> u64
    requires frames { memory.old.frames ≤ 2 ^ 15 }
    requires runs { Runs P.rule P.stands_for memory.old mail.old domain.old (system core.old l2.old) now }
    requires before { now < end }
    requires end { end < 2 ^ 62 }
    requires few { CountsUpTo now domain.old }
    ensures becomes { Moves P.rule P.stands_for (λ w. spec.step w end)
        memory.old mail.old domain.old (system core.old l2.old) now memory.new mail.new domain.new
        (system core.new l2.new) result }
    ensures frames { memory.new.frames ≡ memory.old.frames }
    ensures hierarchy { hierarchy_of P.rule (system core.new l2.new) ≡ hierarchy_of P.rule
        (system core.old l2.old) }
    ensures pinned { core.new.pinned ≡ core.old.pinned }
    ensures runs { Runs P.rule P.stands_for memory.new mail.new domain.new (system core.new l2.new) result }
    ensures few { CountsUpTo result domain.new }
    ensures later { now < result }
    ensures soon { result < end + most_event }
{
    run_until(memory, core, l2, domain, now, now + 1, end, mail).clock
}

/// Events while the clock is below the end. Answers the clock after them.
#[inline(always)]
pub fn stretch<P: Policy>(
    memory: &mut PhysMem,
    core: &mut OnCore<P>,
    l2: &mut L2<P>,
    domain: &mut Domain,
    now: u64,
    end: u64,
    mail: &mut Mail,
) -> u64
    requires frames { memory.old.frames ≤ 2 ^ 15 }
    requires runs { Runs P.rule P.stands_for memory.old mail.old domain.old (system core.old l2.old) now }
    requires end { end < 2 ^ 62 }
    requires few { CountsUpTo now domain.old }
    ensures becomes { Moves P.rule P.stands_for (λ w. spec.stretch w end)
        memory.old mail.old domain.old (system core.old l2.old) now memory.new mail.new domain.new
        (system core.new l2.new) result }
    ensures frames { memory.new.frames ≡ memory.old.frames }
    ensures hierarchy { hierarchy_of P.rule (system core.new l2.new) ≡ hierarchy_of P.rule
        (system core.old l2.old) }
    ensures pinned { core.new.pinned ≡ core.old.pinned }
    ensures runs { Runs P.rule P.stands_for memory.new mail.new domain.new (system core.new l2.new) result }
    ensures few { CountsUpTo result domain.new }
    ensures over { end ≤ result }
    ensures soon { now < end → result < end + most_event }
    ensures done { end ≤ now → result ≡ now }
{
    run_until(memory, core, l2, domain, now, end, end, mail).clock
}
