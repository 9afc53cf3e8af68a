//! The bound on a switch: the most cycles past a slot's end at which the next
//! domain has entered, whatever ran before.
#![tactic(auto)]

ghost use Rattle.std.specs.Prelude.{◌≡◌, ◌^◌, ◌<◌};
ghost use Rattle.pad_bound.specs.Bound.{worst_instruction, worst_operation, worst_leave, worst_enter};
ghost use Rattle.pad_bound.specs.Bound.{worst_prefetch, worst_flush, bound_of, with_calls, IsShape};
ghost use Rattle.pad_bound.specs.Models.{shape_model};

mod laws;
mod shape;

pub use laws::{
    calls_write, flushes, grows_with_calls, grows_with_machines, kernel_touches, late_steps,
    prefetches,
};
pub use shape::{Bound, Shape, most_written};

/// The most cycles that a switch uses past a slot's end, with its parts, in cycles.
#[tactic(auto, unfolding(crate::specs::Bound::bound_of))]
pub fn bound(shape: &Shape) -> Bound
    requires shape { IsShape (shape_model shape.now) }
    ensures instruction { result.instruction ≡ worst_instruction (shape_model shape.now) }
    ensures operation { result.operation ≡ worst_operation (shape_model shape.now) }
    ensures leave { result.leave ≡ worst_leave (shape_model shape.now) }
    ensures prefetch { result.prefetch ≡ worst_prefetch (shape_model shape.now) }
    ensures flush { result.flush ≡ worst_flush (shape_model shape.now) }
    ensures enter { result.enter ≡ worst_enter (shape_model shape.now) }
    ensures total { result.total ≡ bound_of (shape_model shape.now) }
    ensures few { result.total < 2 ^ 26 }
{
    let instruction = shape.instruction();
    let operation = shape.operation();
    let leave = shape.leave();
    let prefetch = shape.prefetch();
    let flush = shape.flush();
    let enter = shape.enter();
    let total = instruction + operation + leave + prefetch + flush + enter - 1;
    Bound {
        instruction,
        operation,
        leave,
        prefetch,
        flush,
        enter,
        total,
    }
}

/// The same, where the domain that leaves may make these calls alone: bit n is
/// that of call n, and a bit of no call counts for nothing. The shape's own `written`
/// isn't looked at.
#[tactic(auto, unfolding(crate::specs::Bound::worst_instruction, crate::specs::Bound::worst_leave, crate::specs::Bound::worst_prefetch, crate::specs::Bound::worst_flush, crate::specs::Bound::worst_enter))]
pub fn bound_from(shape: &Shape, calls: u32) -> Bound
    requires shape { IsShape (shape_model shape.now) }
    ensures instruction { result.instruction ≡ worst_instruction (shape_model shape.now) }
    ensures operation { result.operation ≡ worst_operation (with_calls (shape_model shape.now) calls) }
    ensures leave { result.leave ≡ worst_leave (shape_model shape.now) }
    ensures prefetch { result.prefetch ≡ worst_prefetch (shape_model shape.now) }
    ensures flush { result.flush ≡ worst_flush (shape_model shape.now) }
    ensures enter { result.enter ≡ worst_enter (shape_model shape.now) }
    ensures total { result.total ≡ bound_of (with_calls (shape_model shape.now) calls) }
    ensures few { result.total < 2 ^ 26 }
{
    bound(&Shape {
        written: most_written(calls, shape.line),
        ..*shape
    })
}
