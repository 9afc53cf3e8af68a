// How a thread gets the reply to its call.
ghost use Rattle.std.specs.Prelude.{◌≡◌, ◌+◌, ◌^◌, ◌≤◌};
ghost use Rattle.thread_set.specs.Models.{threads_model};
ghost use Rattle.call_table.specs.Domain as domain_spec;
ghost use Rattle.kernel_call.specs.Models.{Becomes};
ghost use Rattle.kernel_call.specs.Calls.{KeepsParts, answered};

use crate::Domain;
use call_table::Reply;
use thread_set::Thread;

// A reply goes to x10 and x11, and the thread moves on.
fn answer(thread: &mut Thread, reply: Reply)
    ensures answered { thread.new ≡ answered thread.old reply }
{
    thread.regs.set(10, reply.code);
    thread.regs.set(11, reply.value);
    thread.pc = thread.pc.wrapping_add(4);
}

/// The current thread gets a reply, which is recorded and handed back.
#[tactic(auto, unfolding(call_table::specs::Domain::replied, call_table::specs::Domain::placed, thread_set::specs::Threads::with_current))]
pub fn reply_to(domain: &mut Domain, reply: Reply) -> Reply
    requires replies { domain.old.replies.count ≤ 2 ^ 63 }
    ensures reply { result ≡ reply }
    ensures becomes { Becomes (domain_spec.replied reply.code reply.value) domain.old domain.new }
    ensures keeps { KeepsParts domain.old domain.new }
    ensures replies { domain.new.replies.count ≡ domain.old.replies.count + 1 }
    ensures status { domain.new.status ≡ domain.old.status }
    ensures threads { threads_model domain.new.threads
        ≡ record (threads_model domain.old.threads) { current = answered domain.old.threads.active reply } }
    ensures interrupts { domain.new.interrupts ≡ domain.old.interrupts }
    ensures caps { domain.new.caps ≡ domain.old.caps }
    ensures pool { domain.new.pool ≡ domain.old.pool }
    ensures printed { domain.new.printed ≡ domain.old.printed }
{
    answer(&mut domain.threads.active, reply);
    domain.replies.push(reply);
    reply
}
