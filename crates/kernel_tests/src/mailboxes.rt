// Calls on mailboxes, among the others.
ghost use Rattle.std.specs.Prelude.{IfSome};
ghost use Rattle.kernel_clone.specs.Models.{IsWork};
ghost use Rattle.kernel_call.specs.Facts.{Valid};

use crate::calls::opened;
use crate::permissions::restrict;
use call_table::Reply;
use kernel_call::{Domain, Outcome, call};
use kernel_clone::BAD_CALL;
use mail_slots::Mail;
use phys_mem::PhysMem;
use std::alloc::Global;
use std::test::Fail;
use tp_base::{DomainNo, Memory};

const SEND: u32 = 19;

const RECEIVE: u32 = 20;

// Box 0 leads from domain 0, whose the calls are, to domain 1, and box 1 back.
fn boxes(alloc: Global) -> Result<Mail, Memory> {
    let (red, blue) = (DomainNo::new(0), DomainNo::new(1));
    Mail::new(alloc, &[(red, blue), (blue, red)])
}

// What a call comes to; None where the current thread may not call.
fn made(
    domain: &mut Domain,
    memory: &mut PhysMem,
    mail: &mut Mail,
    number: u32,
    args: [u32; 3],
) -> Option<Outcome>
    requires valid { Valid memory.old domain.old }
    ensures valid { Valid memory.new domain.new }
    ensures work { IfSome result (λ outcome. IsWork outcome.work) }
{
    let is_ready = domain.threads.active.state.is_ready();
    if !is_ready || domain.replies.count > 1000 || memory.frames() > 64 {
        return None;
    }
    Some(call(domain, memory, number, args, mail))
}

// Whether it was answered so, as an operation of this number that wrote nothing beside
// its own work.
fn is_answered(outcome: Option<Outcome>, operation: u32, code: u32, value: u32) -> bool {
    match outcome {
        Some(outcome) => {
            outcome.reply == Some(Reply { code, value })
                && u32::from(outcome.work.op) == operation
                && outcome.work.zeroed.is_none()
                && outcome.work.count == 0
        }
        None => false,
    }
}

// A call with its arguments, and the code and the value that it is answered.
type Row = (u32, [u32; 3], u32, u32);

// The place of the first call that isn't answered so.
fn first_wrong(
    domain: &mut Domain,
    memory: &mut PhysMem,
    mail: &mut Mail,
    rows: &[Row],
) -> Option<usize>
    requires valid { Valid memory.old domain.old }
    ensures valid { Valid memory.new domain.new }
{
    for (place, row) in rows.iter().enumerate() {
        let outcome = made(domain, memory, mail, row.0, row.1);
        if !is_answered(outcome, row.0, row.2, row.3) {
            return Some(place);
        }
    }
    None
}

const SIXTEEN: [Row; 16] = [(SEND, [0, 7, 0], 0, 0); 16];

const ONE_MORE: [Row; 1] = [(SEND, [0, 8, 0], 15, 0)];

const AGAIN: [Row; 1] = [(SEND, [0, 9, 0], 0, 0)];

// What is wrong of sixteen words, of one more, and of one after the box was emptied.
fn filled(alloc: Global) -> Result<[Option<usize>; 3], Memory> {
    let (mut domain, mut memory) = opened(alloc)?;
    let mut mail = boxes(alloc)?;
    let sixteen = first_wrong(&mut domain, &mut memory, &mut mail, &SIXTEEN);
    let one_more = first_wrong(&mut domain, &mut memory, &mut mail, &ONE_MORE);
    // Its slot ends and the receiver's begins, which reads nothing: there is room again.
    mail.ends(DomainNo::new(0));
    mail.begins(DomainNo::new(1));
    let again = first_wrong(&mut domain, &mut memory, &mut mail, &AGAIN);
    Ok([sixteen, one_more, again])
}

#[test]
fn a_box_takes_sixteen_words(rt: HostRuntime) -> Result<(), Fail> {
    let wrong = filled(rt.alloc())?;
    assert_eq!(rt; wrong, [None, None, None]);
    Ok(())
}

const EARLY: [Row; 1] = [(RECEIVE, [1, 0, 0], 16, 0)];

const RECEIVED: [Row; 3] = [
    (RECEIVE, [1, 0, 0], 0, 77),
    (RECEIVE, [1, 0, 0], 0, 78),
    (RECEIVE, [1, 0, 0], 16, 0),
];

// Whether two words were sent, and what is wrong of calls before they came and after.
fn received(alloc: Global) -> Result<(bool, Option<usize>, Option<usize>), Memory> {
    let (mut domain, mut memory) = opened(alloc)?;
    let mut mail = boxes(alloc)?;
    let blue = DomainNo::new(1);
    let are_sent = mail.send(blue, 1, 77).is_ok() && mail.send(blue, 1, 78).is_ok();
    let early = first_wrong(&mut domain, &mut memory, &mut mail, &EARLY);
    mail.ends(blue);
    mail.begins(DomainNo::new(0));
    let wrong = first_wrong(&mut domain, &mut memory, &mut mail, &RECEIVED);
    Ok((are_sent, early, wrong))
}

#[test]
fn words_are_received_in_their_order(rt: HostRuntime) -> Result<(), Fail> {
    let (are_sent, early, wrong) = received(rt.alloc())?;
    assert!(rt; are_sent);
    assert_eq!(rt; early, None);
    assert_eq!(rt; wrong, None);
    Ok(())
}

const NO_BOX: [Row; 5] = [
    (SEND, [1, 5, 0], 14, 0),
    (SEND, [2, 5, 0], 14, 0),
    (SEND, [0xffff_ffff, 5, 0], 14, 0),
    (RECEIVE, [0, 5, 0], 14, 0),
    (RECEIVE, [64, 5, 0], 14, 0),
];

fn one_way(alloc: Global) -> Result<Option<usize>, Memory> {
    let (mut domain, mut memory) = opened(alloc)?;
    let mut mail = boxes(alloc)?;
    Ok(first_wrong(&mut domain, &mut memory, &mut mail, &NO_BOX))
}

#[test]
fn a_box_is_one_way(rt: HostRuntime) -> Result<(), Fail> {
    let wrong = one_way(rt.alloc())?;
    assert_eq!(rt; wrong, None);
    Ok(())
}

#[test]
fn a_call_on_mailboxes_that_is_left_out_is_a_bad_call(rt: HostRuntime) -> Result<(), Fail> {
    let (mut domain, mut memory) = opened(rt.alloc())?;
    let mut mail = boxes(rt.alloc())?;
    restrict(&mut domain, &memory, 1 << SEND);
    let received = made(&mut domain, &mut memory, &mut mail, RECEIVE, [1, 0, 0]);
    assert!(rt; is_answered(received, u32::from(BAD_CALL), 1, 0));
    let sent = made(&mut domain, &mut memory, &mut mail, SEND, [0, 5, 0]);
    assert!(rt; is_answered(sent, SEND, 0, 0));
    Ok(())
}
