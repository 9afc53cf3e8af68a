// A slot in which moments of all domains come.
ghost use Rattle.std.specs.Prelude.{◌≡◌, ◌+◌, ◌^◌, ◌<◌, ◌≤◌, length, option_map};
ghost use Rattle.irq_partition.specs.Interrupts.{next_of};
ghost use Rattle.cycle_cost.specs.Ranges.{most_event};
ghost use Rattle.mem_system.specs.Contents.{system};
ghost use Rattle.world_view.specs.Machine as spec;
ghost use Rattle.world_view.specs.Machine.{first_of, if_due};
ghost use Rattle.domain_step.specs.OpenSlot.{Becomes, CountUpTo, Stands, first_among, owned};

use crate::slot::step;
use call_table::DomainStatus;
use domain_switch::charge;
use kernel_call::{Domain, deliver};
use l2_colour::L2;
use mail_slots::Mail;
use mem_system::OnCore;
use phys_mem::PhysMem;
use repl_policy::AnyPolicy;

/// A moment that is due, and whose it is.
#[derive(Clone, Copy)]
struct Due {
    owner: usize,
    /// In cycles.
    at: u64,
    line: u8,
}

// A domain's next moment, if its cycle has come.
fn due_of(domain: &Domain, owner: usize, now: u64) -> Option<Due>
    ensures due { option_map owned result ≡ if_due now owner (next_of domain.now.interrupts) }
{
    let at = domain.interrupts.next_moment()?;
    let line = domain.interrupts.due(now)?;
    Some(Due { owner, at, line })
}

// The moment that comes first, if there is one.
fn sooner(one: Option<Due>, other: Option<Due>) -> Option<Due>
    ensures first { option_map owned result ≡ first_of (option_map owned one) (option_map owned other) }
{
    let Some(x) = one else {
        return other;
    };
    let Some(y) = other else {
        return one;
    };
    let is_before = if y.at == x.at {
        y.line < x.line
    } else {
        y.at < x.at
    };
    if is_before { other } else { one }
}

// The first moment that is due of any domain.
fn first_due(domains: &[Domain], now: u64) -> Option<Due>
    ensures first { option_map owned result ≡ first_among now domains.now (length domains.now) }
{
    let mut first = None;
    for owner in 0..domains.len() {
        first = sooner(first, due_of(&domains[owner], owner, now));
    }
    first
}

// One event in a slot of domain `d`: while it runs, the first moment that is due
// of any domain comes to its owner, and the kernel clone of `d` is charged.
fn step_among(
    memory: &mut PhysMem,
    core: &mut OnCore<AnyPolicy>,
    l2: &mut L2<AnyPolicy>,
    domains: &mut [Domain],
    d: usize,
    now: u64,
    end: u64,
    mail: &mut Mail,
) -> u64
    requires domain { d < length domains.old }
    requires stands { Stands d memory.old mail.old (system core.old l2.old) domains.old now }
    requires before { now < end }
    requires end { end < 2 ^ 62 }
    requires few { CountUpTo now domains.old }
    ensures becomes { Becomes (λ g i w. spec.step_among g i 0 d end w) d
        memory.old mail.old (system core.old l2.old) domains.old now
        memory.new mail.new (system core.new l2.new) domains.new result }
    ensures few { CountUpTo result domains.new }
    ensures same { length domains.new ≡ length domains.old }
    ensures later { now < result }
    ensures soon { result < end + most_event }
{
    if let DomainStatus::Running = domains[d].status {
        if let Some(due) = first_due(domains, now) {
            let layout = domains[d].layout;
            let work = deliver(&mut domains[due.owner]);
            return now + u64::from(charge(core, l2, &layout, &work));
        }
    }
    step(memory, core, l2, &mut domains[d], now, end, mail)
}

/// A slot of domain `d`, from a clock on. Answers the clock after it, in cycles.
pub fn open_slot(
    memory: &mut PhysMem,
    core: &mut OnCore<AnyPolicy>,
    l2: &mut L2<AnyPolicy>,
    domains: &mut [Domain],
    d: usize,
    now: u64,
    end: u64,
    mail: &mut Mail,
) -> u64
    requires domain { d < length domains.old }
    requires stands { Stands d memory.old mail.old (system core.old l2.old) domains.old now }
    requires end { end < 2 ^ 62 }
    requires few { CountUpTo now domains.old }
    ensures becomes { Becomes (λ g i w. spec.open_slot g i d end w) d
        memory.old mail.old (system core.old l2.old) domains.old now
        memory.new mail.new (system core.new l2.new) domains.new result }
    ensures few { CountUpTo result domains.new }
    ensures same { length domains.new ≡ length domains.old }
    ensures over { now ≤ result }
    ensures past { end ≤ result }
    ensures soon { now < end → result < end + most_event }
    ensures done { end ≤ now → result ≡ now }
{
    let mut clock = now;
    while clock < end {
        clock = step_among(memory, core, l2, domains, d, clock, end, mail);
    }
    clock
}
