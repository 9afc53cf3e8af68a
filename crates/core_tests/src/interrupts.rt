// Moments and bits, step by step.
use irq_partition::{IrqPart, Moment};
use std::process::Abort;
use std::test::Fail;

// The clock, the line that is due, and the next moment; what is due is delivered.
const ROWS: [(u64, Option<u8>, Option<u64>); 8] = [
    (0, Some(31), Some(0)),
    (0, None, Some(9000)),
    (8999, None, Some(9000)),
    (9000, Some(3), Some(9000)),
    (9000, Some(5), Some(9000)),
    (9001, None, Some(1_000_000_000_000)),
    (2_000_000_000_000, Some(0), Some(1_000_000_000_000)),
    (2_000_000_000_000, None, None),
];

fn check_moments(rt: &impl Abort, irqs: &mut IrqPart) {
    for (now, line, next) in ROWS {
        assert_eq!(rt; irqs.next_moment(), next, "at {now}");
        assert_eq!(rt; irqs.due(now), line, "at {now}");
        if irqs.due(now).is_some() {
            assert_eq!(rt; Some(irqs.deliver()), line, "at {now}");
        }
    }
}

fn check_bits(rt: &impl Abort, irqs: &mut IrqPart) {
    irqs.signal(0);
    irqs.signal(31);
    irqs.signal(31);
    let rows = [(0, true), (0, false), (30, false), (31, true), (31, false)];
    for (line, is_set) in rows {
        assert_eq!(rt; irqs.poll(line), is_set, "line {line}");
    }
}

#[test]
fn moments_come_in_order_and_bits_stay_apart(rt: HostRuntime) -> Result<(), Fail> {
    let moments = [
        Moment { at: 0, line: 31 },
        Moment { at: 9000, line: 3 },
        Moment { at: 9000, line: 5 },
        Moment {
            at: 1_000_000_000_000,
            line: 0,
        },
    ];
    let mut irqs = IrqPart::new(rt.alloc(), &moments)?;
    check_moments(&rt, &mut irqs);
    check_bits(&rt, &mut irqs);
    Ok(())
}
