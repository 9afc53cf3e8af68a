// Guesses after outcomes, which branches share a counter, and which jumps are known.
ghost use Rattle.std.specs.Prelude.{◌≤◌, ◌⊎◌, ◌≡◌};
ghost use Rattle.std.specs.Int.{IsPowerOfTwo};

use branch_pred::{Jump, Predictor, Sizes};
use std::alloc::Global;
use std::process::Abort;
use std::test::Fail;
use tp_base::Memory;

fn made(alloc: Global, counters: u32, history: u32, targets: u32) -> Result<Predictor, Memory>
    requires counters { IsPowerOfTwo counters }
    requires history { history ≤ 8 }
    requires targets { (targets ≡ 0) ⊎ IsPowerOfTwo targets }
{
    Predictor::new(
        alloc,
        Sizes {
            counters,
            history,
            targets,
        },
    )
}

#[test]
fn guesses_follow_the_outcomes(rt: HostRuntime) -> Result<(), Fail> {
    let mut predictor = made(rt.alloc(), 16, 0, 0)?;
    // The outcome at one pc, and the guess before it.
    let rows = [
        (true, false),
        (true, true),
        (true, true),
        (false, true),
        (false, true),
        (false, false),
    ];
    for (taken, guess) in rows {
        assert_eq!(rt; predictor.guess(0x10000), guess);
        predictor.learn(0x10000, taken);
    }
    // One outcome at 0x10004: what is guessed at other pcs, of which the one 64
    // bytes on has the same counter, and the next word and the half word beside have not.
    predictor.learn(0x10004, true);
    let rows = [
        (0x10004, true),
        (0x10006, true),
        (0x10044, true),
        (0x10000, false),
        (0x10008, false),
        (0x10024, false),
        (0x10040, false),
    ];
    for (pc, guess) in rows {
        assert_eq!(rt; predictor.guess(pc), guess, "at {pc}");
    }
    predictor.reset();
    assert!(rt; !predictor.guess(0x10044));
    Ok(())
}

#[test]
fn one_counter_is_shared_by_all(rt: HostRuntime) -> Result<(), Fail> {
    let mut predictor = made(rt.alloc(), 1, 0, 0)?;
    predictor.learn(0, true);
    assert!(rt; predictor.guess(u32::MAX));
    predictor.learn(u32::MAX, false);
    assert!(rt; !predictor.guess(0));
    Ok(())
}

/// Which guesses at one pc are wrong, as bits from the first outcome on, for
/// outcomes that alternate, the first one taken.
fn wrong_guesses(predictor: &mut Predictor) -> u32 {
    let mut wrong = 0;
    for step in 0..7u32 {
        let taken = step % 2 == 0;
        if predictor.guess(0x10000) != taken {
            wrong |= 1 << step;
        }
        predictor.learn(0x10000, taken);
    }
    wrong
}

// These are wrong, and again after a reset, which forgets outcomes as well.
fn check_wrong(rt: &impl Abort, predictor: Predictor, wrong: u32) {
    let mut predictor = predictor;
    assert_eq!(rt; wrong_guesses(&mut predictor), wrong);
    predictor.reset();
    assert_eq!(rt; wrong_guesses(&mut predictor), wrong);
}

#[test]
fn a_history_sees_what_alternates(rt: HostRuntime) -> Result<(), Fail> {
    // One counter is wrong each time; with the last outcome alone a branch has two
    // counters, each of which sees one kind of outcome.
    check_wrong(&rt, made(rt.alloc(), 16, 0, 0)?, 0b111_1111);
    check_wrong(&rt, made(rt.alloc(), 16, 1, 0)?, 0b1);
    check_wrong(&rt, made(rt.alloc(), 16, 2, 0)?, 0b101);
    check_wrong(&rt, made(rt.alloc(), 16, 8, 0)?, 0b1_0101);
    Ok(())
}

#[test]
fn a_history_chooses_by_exclusive_or(rt: HostRuntime) -> Result<(), Fail> {
    let mut predictor = made(rt.alloc(), 4, 2, 0)?;
    // Taken at word 3 with the history 0: counter 3. Then the history is 1, with
    // which word 2 has counter 3, too, and word 3 counter 2.
    predictor.learn(0x1000c, true);
    assert!(rt; predictor.guess(0x10008));
    assert!(rt; !predictor.guess(0x1000c));
    assert!(rt; !predictor.guess(0x10000));
    Ok(())
}

#[test]
fn jumps_are_known_by_pc_and_target(rt: HostRuntime) -> Result<(), Fail> {
    let mut predictor = made(rt.alloc(), 1, 0, 4)?;
    // The jumps in turn, and whether each was known.
    let rows = [
        (0x10000, 0x10040, false),
        (0x10000, 0x10040, true),
        // another target
        (0x10000, 0x10044, false),
        (0x10000, 0x10044, true),
        // the next place, and the same one 16 bytes on
        (0x10004, 0x10044, false),
        (0x10010, 0x10044, false),
        (0x10000, 0x10044, false),
        (0x10004, 0x10044, true),
    ];
    for (pc, target, known) in rows {
        assert_eq!(rt;
            predictor.look(Jump { pc, target }),
            known,
            "from {pc} to {target}"
        );
    }
    predictor.reset();
    assert!(rt;
        !predictor.look(Jump {
            pc: 0x10004,
            target: 0x10044
        })
    );
    // Without a target buffer each is.
    let mut without = made(rt.alloc(), 1, 0, 0)?;
    assert!(rt;
        without.look(Jump {
            pc: 0,
            target: u32::MAX
        })
    );
    Ok(())
}
