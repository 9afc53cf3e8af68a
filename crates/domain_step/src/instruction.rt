// What traps, counters, kernel calls and instructions do to a domain.
ghost use Rattle.std.specs.Prelude.{◌≡◌, ℕ, ◌+◌, ◌^◌, ◌<◌, ◌≤◌, true, List, length};
ghost use Rattle.cycle_cost.specs.Ranges.{most_operation};
ghost use Rattle.phys_mem.specs.Mem.{Mem};
ghost use Rattle.rv_core.specs.Registers.{register};
ghost use Rattle.thread_set.specs.Threads.{is_ready};
ghost use Rattle.kernel_clone.specs.Footprints.{IsLayout};
ghost use Rattle.kernel_clone.specs.Models.{layout_model, IsWork};
ghost use Rattle.call_table.specs.declared.Reply.{Reply};
ghost use Rattle.call_table.specs.Claims.{Estate};
ghost use Rattle.call_table.specs.Calls as table;
ghost use Rattle.call_table.specs.Mail.{called};
ghost use Rattle.kernel_call.specs.Logs.{log_of};
ghost use Rattle.kernel_call.specs.LogModel.{log_model};
ghost use Rattle.kernel_call.specs.Models.{dom_model, Becomes};
ghost use Rattle.kernel_call.specs.Facts.{HasFacts, Valid};
ghost use Rattle.kernel_call.specs.Calls.{KeepsParts};
ghost use Rattle.kernel_call.specs.Mailboxes.{HasCalled};
ghost use Rattle.mem_system.specs.Contents.{system};
ghost use Rattle.world_view.specs.Instruction as spec;
ghost use Rattle.world_view.specs.Event as event;
ghost use Rattle.world_view.specs.Kernel.{estate};
ghost use Rattle.domain_step.specs.Stands.{GoesOn, HasRoom, Grows, KeepsFrames};
ghost use Rattle.world_view.specs.Machine.{Setting};
ghost use Rattle.domain_step.specs.Kept.{KeptOf};
ghost use Rattle.domain_step.specs.Moves.{Leaves};

use call_table::DomainStatus;
use domain_switch::charge;
use kernel_call::{Domain, Outcome};
use l2_colour::L2;
use mail_slots::Mail;
use mem_system::OnCore;
use phys_mem::PhysMem;
use rv_core::Trap;
use rv_decode::{Counter, Instr};
use set_cache::Policy;

// ---- exceptions

/// Stops the domain by an exception, where it stands.
#[tactic(auto, unfolding(world_view::specs::Instruction::trapped, world_view::specs::Instruction::stopped))]
#[inline(never)]
pub fn stop(domain: &mut Domain, trap: Trap)
    ensures becomes { Becomes (spec.trapped trap) domain.old domain.new }
    ensures grows { Grows 0 0 0 domain.old domain.new }
    ensures keeps { KeepsFrames domain.old domain.new }
{
    domain.status = DomainStatus::Stopped {
        code: trap.exception.code(),
        pc: domain.threads.active.pc,
        value: trap.value,
    };
}

// ---- counters

fn low_half(n: u64) -> u32
    ensures value { result ≡ spec.low_half n }
{
    (n & 0xffff_ffff) as u32
}

fn high_half(n: u64) -> u32
    ensures value { result ≡ spec.high_half n }
{
    (n >> 32) as u32
}

/// What a read of a counter gives, at a clock in cycles.
pub fn counter_value(counter: Counter, now: u64, domain: &Domain) -> u32
    ensures value { (readings : List ℕ) (replies : List Reply)
        → result ≡ spec.counter_value counter now (dom_model domain.now readings replies) }
{
    match counter {
        Counter::Cycle | Counter::Time => low_half(now),
        Counter::Instret => low_half(domain.retired),
        Counter::CycleHigh | Counter::TimeHigh => high_half(now),
        Counter::InstretHigh => high_half(domain.retired),
    }
}

// ---- what retires

// Records a counter's value that the domain read.
#[tactic(auto, unfolding(world_view::specs::Instruction::read_out))]
fn read_out(domain: &mut Domain, value: u32)
    requires readings { domain.old.readings.count < 2 ^ 63 }
    ensures becomes { Becomes (spec.read_out value) domain.old domain.new }
    ensures grows { Grows 0 1 0 domain.old domain.new }
    ensures keeps { KeepsFrames domain.old domain.new }
    ensures goes_on { GoesOn domain.old domain.new }
{
    domain.readings.push(u64::from(value));
}

/// The domain goes on there, and one more instruction has retired.
#[tactic(auto, unfolding(world_view::specs::Instruction::retired_at, call_table::specs::Domain::placed, thread_set::specs::Threads::with_current))]
pub fn retire(domain: &mut Domain, next: u32)
    requires retired { domain.old.retired < 2 ^ 63 }
    ensures becomes { Becomes (λ d. spec.retired_at next d.threads.current.regs d) domain.old domain.new }
    ensures grows { Grows 1 0 0 domain.old domain.new }
    ensures keeps { KeepsFrames domain.old domain.new }
    ensures goes_on { GoesOn domain.old domain.new }
{
    domain.threads.active.pc = next;
    domain.retired += 1;
}

/// Ends an instruction whose registers are written: the counter's value that it
/// read is recorded, and the domain goes on at `next`.
#[inline(always)]
pub fn finish(domain: &mut Domain, instr: Instr, value: u32, next: u32)
    requires room { HasRoom domain.old }
    ensures becomes { Becomes (λ d. spec.retired_at next d.threads.current.regs (event.noted instr value d))
        domain.old domain.new }
    ensures grows { Grows 1 1 0 domain.old domain.new }
    ensures keeps { KeepsFrames domain.old domain.new }
    ensures goes_on { GoesOn domain.old domain.new }
{
    if let Instr::ReadCounter { .. } = instr {
        read_out(domain, value);
        retire(domain, next);
        return;
    }
    retire(domain, next);
}

// ---- kernel calls

// The kernel call in x17, if the domain may make it, with the arguments in x10, x11
// and x12. As a call of its own it would copy the outcome, which is large, once more.
#[tactic(auto, unfolding(call_table::specs::Mail::called))]
#[inline(always)]
fn answer(memory: &mut PhysMem, domain: &mut Domain, mail: &mut Mail) -> Outcome
    requires valid { Valid memory.old domain.old }
    requires frames { memory.old.frames ≤ 2 ^ 15 }
    requires ready { is_ready domain.old.threads.active.state ≡ true }
    requires replies { domain.old.replies.count < 2 ^ 63 }
    ensures calls { (e : Estate) (readings : List ℕ) (replies : List Reply) (m : Mem)
        → HasFacts e memory.old m domain.old
        → log_model domain.old.readings ≡ log_of readings → log_model domain.old.replies ≡ log_of replies
        → HasCalled e memory.new mail.new domain.new
        (table.number_made e (dom_model domain.old readings replies)) (length replies) result
        (called e (dom_model domain.old readings replies) (record { mem = m; boxes = mail.old })) }
    ensures work { IsWork result.work }
    ensures keeps { KeepsParts domain.old domain.new }
    ensures frames { memory.new.frames ≡ memory.old.frames }
    ensures grows { Grows 0 0 2 domain.old domain.new }
{
    let regs = &domain.threads.active.regs;
    let number = regs.get(17);
    let args = [regs.get(10), regs.get(11), regs.get(12)];
    kernel_call::call(domain, memory, number, args, mail)
}

/// The kernel call that the domain makes. Its work is charged, and then the
/// translation buffer is emptied where the call does that. Answers the cycles
/// spent then, of which so many were before.
#[inline(never)]
pub fn call<P: Policy>(
    memory: &mut PhysMem,
    core: &mut OnCore<P>,
    l2: &mut L2<P>,
    domain: &mut Domain,
    spent: u32,
    mail: &mut Mail,
) -> u32
    requires valid { Valid memory.old domain.old }
    requires clone { IsLayout (layout_model domain.old.layout) }
    requires frames { memory.old.frames ≤ 2 ^ 15 }
    requires ready { is_ready domain.old.threads.active.state ≡ true }
    requires replies { domain.old.replies.count < 2 ^ 63 }
    requires spent { spent < 2 ^ 31 }
    ensures leaves { (w : Setting) → Leaves w
        (λ d. event.make_call w.machine (estate w.machine w.own) w.clone d)
        domain.old (KeptOf P.rule P.stands_for w domain.old memory.old mail.old
        (system core.old l2.old) spent)
        domain.new (KeptOf P.rule P.stands_for w domain.new memory.new mail.new
        (system core.new l2.new) result) }
    ensures frames { memory.new.frames ≡ memory.old.frames }
    ensures grows { Grows 0 0 2 domain.old domain.new }
    ensures moments { domain.new.interrupts.moments ≡ domain.old.interrupts.moments }
    ensures few { result ≤ spent + most_operation }
{
    let outcome = answer(memory, domain, mail);
    let charged = spent + charge(core, l2, &domain.layout, &outcome.work);
    if !outcome.empties_buffer() {
        return charged;
    }
    core.empty_tlb();
    charged
}
