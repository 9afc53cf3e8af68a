// The touches of some operations, line by line, counted out by hand.
ghost use Rattle.kernel_clone.specs.Footprints.{IsLayout};
ghost use Rattle.kernel_clone.specs.Models.{layout_model, IsWork};

use kernel_clone::Kind::{Fetch, Load, Store};
use kernel_clone::{
    BAD_CALL, Call, CloneLayout, DELIVERY, ENTER, EVERY_CALL, Kind, LEAVE, Work, touches,
};
use std::process::Abort;
use tp_base::FrameNo;

const ALLOC: u8 = 2;

const REVOKE: u8 = 8;

fn have(rt: &impl Abort, layout: &CloneLayout, work: &Work, wanted: &[(u32, Kind)])
    requires layout { IsLayout (layout_model layout.now) }
    requires work { IsWork work.now }
{
    let touches = touches(work.op, layout, work);
    assert_eq!(rt;
        touches.len() as usize,
        wanted.len(),
        "operation {}",
        work.op
    );
    for place in 0..touches.len() {
        let (line, kind) = touches.get(place);
        let touch = (line.number(), kind);
        assert_eq!(rt;
            Some(&touch),
            wanted.get(place as usize),
            "operation {}",
            work.op
        );
    }
}

#[test]
fn lines_are_touched_in_order(rt: HostRuntime) {
    // 64 lines a frame, 8 shared lines.
    let fine = CloneLayout {
        text: [FrameNo::new(1), FrameNo::new(3)],
        stack: FrameNo::new(5),
        data: FrameNo::new(7),
        line: 64,
        shared: 512,
        colours: 2,
    };
    // 32 lines a frame, 64 shared lines.
    let coarse = CloneLayout {
        line: 128,
        shared: 8192,
        ..fine
    };
    let mut entries = [0; 64];
    entries[0] = 45068;
    entries[1] = 45120;
    entries[2] = 57340;
    let revoke = Work {
        op: REVOKE,
        zeroed: None,
        count: 3,
        entries,
    };
    have(
        &rt,
        &fine,
        &revoke,
        &[
            (96, Fetch),
            (97, Fetch),
            (98, Fetch),
            (99, Fetch),
            (320, Store),
            (321, Store),
            (464, Store),
            (465, Store),
            (0, Load),
            (704, Store),
            (705, Store),
            (895, Store),
        ],
    );
    let refused = Work { count: 0, ..revoke };
    have(
        &rt,
        &coarse,
        &Work {
            op: LEAVE,
            ..refused
        },
        &[
            (32, Fetch),
            (33, Fetch),
            (34, Fetch),
            (35, Fetch),
            (160, Store),
            (161, Store),
            (224, Store),
        ],
    );
    let alloc = Work {
        op: ALLOC,
        zeroed: Some(9),
        ..refused
    };
    let touches = touches(ALLOC, &fine, &alloc);
    assert_eq!(rt; touches.len(), 73);
    let (first, last) = (touches.get(9).0, touches.get(72).0);
    assert_eq!(rt; (first.number(), last.number()), (576, 639));
    // The second frame of the shared region has colour 0, too.
    assert_eq!(rt;
        (coarse.shared_lines(), coarse.shared_line(33).number()),
        (64, 65)
    );
}

#[test]
fn operations_have_their_numbers(rt: HostRuntime) {
    assert_eq!(rt; [DELIVERY, LEAVE, ENTER, BAD_CALL], [15, 16, 17, 18]);
}

#[test]
fn calls_have_a_bit_each(rt: HostRuntime) {
    assert_eq!(rt; EVERY_CALL, 0x18_7fff);
    for number in (0..15).chain(19..21) {
        let call = Call::of(number).expect(&rt, "a call");
        assert!(rt; call.is_in(EVERY_CALL));
        assert!(rt; !call.is_in(0));
        let named = call == Call::Table || call == Call::Revoke;
        assert_eq!(rt; call.is_in(0b1_0000_1000), named, "call {}", number);
    }
}
