// The charge of the costs of one load, near the end of the clock; and of divisions.
use cycle_cost::{Costs, ProductCosts, charge, charges_fit};
use tp_base::Cycles;

#[test]
fn a_clock_moves_by_what_is_charged(rt: HostRuntime) {
    let costs = Costs {
        base: 1,
        l1: 2,
        l2: 10,
        mem: 100,
        wb: 20,
        tlb: 1,
        mispredict: 5,
        trap: 40,
        flush: 1000,
    };
    let mut clock = Cycles::new(4_611_686_018_427_387_000);
    charges_fit(clock.number());
    charge(&mut clock, costs.l1 + costs.l2 + costs.mem + costs.wb);
    assert_eq!(rt; clock.number(), 4_611_686_018_427_387_132);
}

#[test]
fn a_division_costs_by_its_digits(rt: HostRuntime) {
    let costs = ProductCosts { mul: 67, div: 2 };
    assert_eq!(rt;
        (costs.division(0), costs.division(32), costs.most()),
        (2, 66, 67)
    );
    let costs = ProductCosts { mul: 66, div: 1000 };
    assert_eq!(rt; costs.most(), 33000);
}
