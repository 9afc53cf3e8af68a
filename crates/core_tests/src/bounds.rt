// The bounds of two machines, worked out by hand.
use cycle_cost::Costs;
use kernel_clone::EVERY_CALL;
use pad_bound::{Bound, Shape, bound, bound_from, most_written};

#[test]
fn bounds_are_as_worked_out(rt: HostRuntime) {
    // A line at its worst is fetched in 49 cycles and accessed in 59.
    let costs = Costs {
        base: 1,
        l1: 1,
        l2: 8,
        mem: 40,
        wb: 10,
        tlb: 1,
        mispredict: 3,
        trap: 10,
        flush: 20,
    };
    let small = Shape {
        costs,
        line: 64,
        shared: 512,
        sets: 16,
        ways: 2,
        written: most_written(EVERY_CALL, 64),
        again: 0,
        product: 0,
    };
    let of_small = Bound {
        instruction: 306,
        operation: 4277,
        leave: 383,
        prefetch: 472,
        flush: 340,
        enter: 373,
        total: 6150,
    };
    assert_eq!(rt; bound(&small), of_small);
    // 256 lines in a frame and 4,096 shared lines.
    let fine = Shape {
        line: 16,
        shared: 65536,
        written: most_written(EVERY_CALL, 16),
        ..small
    };
    let of_fine = Bound {
        operation: 15605,
        prefetch: 241664,
        total: 258670,
        ..of_small
    };
    assert_eq!(rt; bound(&fine), of_fine);
    // A miss of the second level costs 10 more.
    let written_back = Shape { again: 10, ..small };
    let of_written_back = Bound {
        instruction: 366,
        operation: 5007,
        leave: 453,
        enter: 443,
        total: 7080,
        ..of_small
    };
    assert_eq!(rt; bound(&written_back), of_written_back);
    // So it does, and a product costs up to 132 cycles.
    let larger = Shape {
        again: 10,
        product: 132,
        ..small
    };
    let of_larger = Bound {
        instruction: 498,
        operation: 5007,
        leave: 453,
        enter: 443,
        total: 7212,
        ..of_small
    };
    assert_eq!(rt; bound(&larger), of_larger);
}

#[test]
fn bounds_go_by_the_calls_that_are_left(rt: HostRuntime) {
    let small = Shape {
        costs: Costs {
            base: 1,
            l1: 1,
            l2: 8,
            mem: 40,
            wb: 10,
            tlb: 1,
            mispredict: 3,
            trap: 10,
            flush: 20,
        },
        line: 64,
        shared: 512,
        sets: 16,
        ways: 2,
        written: 0,
        again: 0,
        product: 0,
    };
    // No call; EXIT and PUT; TABLE; MAP and UNMAP; DELETE; REVOKE; ALLOC with REVOKE; all; bits of no call.
    let operations = [
        (0, 501),
        (0b11, 501),
        (1 << 3, 560),
        (0b11 << 4, 560),
        (1 << 7, 560),
        (1 << 8, 4218),
        (0b1_0000_0100, 4277),
        (EVERY_CALL, 4277),
        (0xffff_8000, 501),
    ];
    for (calls, operation) in operations {
        let found = bound_from(&small, calls);
        assert_eq!(rt; found.operation, operation);
        assert_eq!(rt; found.total, operation + 1873);
        assert_eq!(rt; found.leave, 383);
    }
}
