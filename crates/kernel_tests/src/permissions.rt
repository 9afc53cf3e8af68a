// Calls that a domain may not make.
ghost use Rattle.kernel_call.specs.Facts.{Valid};

use crate::calls::{made, opened};
use call_table::Reply;
use kernel_call::{Domain, Outcome};
use kernel_clone::{BAD_CALL, EVERY_CALL};
use phys_mem::PhysMem;
use std::alloc::Global;
use std::test::Fail;
use tp_base::Memory;

// From now on the domain may make these calls alone.
pub fn restrict(domain: &mut Domain, memory: &PhysMem, calls: u32)
    requires valid { Valid memory.now domain.old }
    ensures valid { Valid memory.now domain.new }
{
    domain.calls = calls;
}

// What a call comes to in an opened domain that may make these calls alone.
fn made_among(
    alloc: Global,
    calls: u32,
    number: u32,
    args: [u32; 3],
) -> Result<Option<Outcome>, Memory> {
    let (mut domain, mut memory) = opened(alloc)?;
    restrict(&mut domain, &memory, calls);
    Ok(made(&mut domain, &mut memory, number, args))
}

// Whether a call was refused as a bad one, with no work beside its operation's.
fn is_bad(outcome: &Option<Outcome>) -> bool {
    match outcome {
        Some(outcome) => {
            outcome.reply == Some(Reply { code: 1, value: 0 })
                && outcome.work.op == BAD_CALL
                && outcome.work.zeroed.is_none()
                && outcome.work.count == 0
        }
        None => false,
    }
}

fn is_refused(alloc: Global, calls: u32, number: u32, args: [u32; 3]) -> Result<bool, Memory> {
    Ok(is_bad(&made_among(alloc, calls, number, args)?))
}

// The reply and the operation of a call on slots 0 and 1.
fn told(alloc: Global, calls: u32, number: u32) -> Result<Option<(Option<Reply>, u32)>, Memory> {
    let made = made_among(alloc, calls, number, [0, 1, 7])?;
    Ok(made.map(|outcome| (outcome.reply, u32::from(outcome.work.op))))
}

#[test]
fn a_call_that_is_left_out_is_a_bad_call(rt: HostRuntime) -> Result<(), Fail> {
    for number in 0..15 {
        let others = EVERY_CALL & !(1 << number);
        // Whatever else it would be refused by: no slot, an empty one, a used one.
        for args in [[64, 64, 64], [40, 0, 0], [0, 1, 7], [2, 0x1000, 9]] {
            assert!(rt; is_refused(rt.alloc(), others, number, args)?);
            assert!(rt; is_refused(rt.alloc(), 0, number, args)?);
        }
    }
    Ok(())
}

#[test]
fn a_call_that_is_listed_is_made(rt: HostRuntime) -> Result<(), Fail> {
    for number in 0..15 {
        assert!(rt; !is_refused(rt.alloc(), 1 << number, number, [0, 1, 7])?);
        let alone = told(rt.alloc(), 1 << number, number)?;
        let among_all = told(rt.alloc(), EVERY_CALL, number)?;
        assert_eq!(rt; alone, among_all);
        assert!(rt; alone.is_some_and(|(_, operation)| operation == number));
    }
    Ok(())
}

// A bit above the calls' allows none.
#[test]
fn no_bit_allows_another_call(rt: HostRuntime) -> Result<(), Fail> {
    for number in [15, 18, 21, 31, 32] {
        assert!(rt; is_refused(rt.alloc(), 0xffff_ffff, number, [0, 0, 0])?);
    }
    Ok(())
}
