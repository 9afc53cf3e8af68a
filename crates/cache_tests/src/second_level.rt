// Colours and their sets, at the ends of the sizes too, and lines that are written back.
use l2_colour::L2;
use repl_policy::Lru;
use set_cache::Touch;
use std::alloc::Global;
use std::process::Abort;
use std::test::Fail;
use tp_base::{Colour, FrameNo, Line, Memory};

// Lines 5 of frames 0, 2 and 3, and the greatest line.
fn check_hits(rt: &impl Abort, l2: &mut L2<Lru>) {
    let rows = [
        (5, false),
        (133, false),
        (197, false),
        (133, true),
        (5, false),
        (197, true),
        (8_388_607, false),
        (5, true),
    ];
    for (line, hit) in rows {
        assert_eq!(rt; l2.touch(Line::new(line)).hit, hit, "line {line}");
    }
}

// Lines of 64 bytes in 128 sets: two colours of 64 sets.
#[test]
fn a_line_meets_lines_of_its_colour_alone(rt: HostRuntime) -> Result<(), Fail> {
    let mut l2 = L2::new(rt.alloc(), 64, Lru, 128, 1, false)?;
    assert_eq!(rt; l2.sets_of(Colour::new(0)), (0, 64));
    assert_eq!(rt; l2.sets_of(Colour::new(1)), (64, 128));
    for (frame, colour) in [(0, 0), (1, 1), (2, 0), (32_767, 1)] {
        assert_eq!(rt; l2.colour_of(FrameNo::new(frame)).number(), colour);
    }
    check_hits(&rt, &mut l2);
    Ok(())
}

#[test]
fn one_colour_has_every_set(rt: HostRuntime) -> Result<(), Fail> {
    let l2 = L2::new(rt.alloc(), 16, Lru, 256, 1, false)?;
    assert_eq!(rt; l2.sets_of(Colour::new(0)), (0, 256));
    assert_eq!(rt; l2.colour_of(FrameNo::new(32_767)).number(), 0);
    Ok(())
}

#[test]
fn there_are_up_to_64_colours(rt: HostRuntime) -> Result<(), Fail> {
    let l2 = L2::new(rt.alloc(), 128, Lru, 2048, 16, false)?;
    assert_eq!(rt; l2.sets_of(Colour::new(63)), (2016, 2048));
    assert_eq!(rt; l2.colour_of(FrameNo::new(32_767)).number(), 63);
    Ok(())
}

// What lines 133, 5 and 69 give up in turn, after lines 5 and 69 came into their set
// of two ways, and lines 5 and 133 were written back.
fn given_up(alloc: Global, back: bool) -> Result<[Touch; 3], Memory> {
    let mut l2 = L2::new(alloc, 64, Lru, 64, 2, back)?;
    l2.touch(Line::new(5));
    l2.touch(Line::new(69));
    l2.write_back(Line::new(5));
    l2.write_back(Line::new(133));
    Ok([
        l2.touch(Line::new(133)),
        l2.touch(Line::new(5)),
        l2.touch(Line::new(69)),
    ])
}

fn gave_up(line: u32, dirty: bool) -> Touch {
    Touch {
        hit: false,
        victim: Some(line),
        dirty_victim: dirty,
    }
}

// Line 5 has the mark, and is still the older one; line 133 wasn't here, so has none.
#[test]
fn a_line_that_is_here_is_marked(rt: HostRuntime) -> Result<(), Fail> {
    let wanted = [gave_up(5, true), gave_up(69, false), gave_up(133, false)];
    assert_eq!(rt; given_up(rt.alloc(), true)?, wanted);
    Ok(())
}

#[test]
fn no_line_is_marked_where_they_pass(rt: HostRuntime) -> Result<(), Fail> {
    let wanted = [gave_up(5, false), gave_up(69, false), gave_up(133, false)];
    assert_eq!(rt; given_up(rt.alloc(), false)?, wanted);
    Ok(())
}
