// A memory read and written in parts, and one of the most frames at its end.
ghost use Rattle.std.specs.Prelude.{◌≡◌, ◌+◌, ◌/◌, ◌<◌};

use phys_mem::PhysMem;
use tp_base::{FrameNo, Memory, Zero};

fn blank<Z: Zero>(memory: &mut Z, frame: FrameNo)
    requires within { Z.has_frame memory.old frame }
    ensures becomes { memory.new ≡ Z.zeroed memory.old frame }
{
    memory.zero_frame(frame);
}

fn bytes_at(memory: &PhysMem, at: u32) -> [u8; 4]
    requires within { (at + 3) / 4096 < memory.now.frames }
    requires small { at < 4096 }
{
    [
        memory.read_byte(at),
        memory.read_byte(at + 1),
        memory.read_byte(at + 2),
        memory.read_byte(at + 3),
    ]
}

#[test]
fn words_halves_and_bytes(rt: HostRuntime) -> Result<(), Memory> {
    let mut memory = PhysMem::new(rt.alloc(), 2)?;
    assert_eq!(rt; (memory.frames(), memory.read_word(8188)), (2, 0));
    memory.write_word(4, 0x0403_0201);
    assert_eq!(rt; bytes_at(&memory, 4), [1, 2, 3, 4]);
    assert_eq!(rt;
        (memory.read_half(4), memory.read_half(6)),
        (0x0201, 0x0403)
    );
    memory.write_half(6, 0xabcd);
    memory.write_byte(5, 0xef);
    assert_eq!(rt; memory.read_word(4), 0xabcd_ef01);
    assert_eq!(rt; (memory.read_word(0), memory.read_word(8)), (0, 0));
    memory.write_word(4096, 5);
    memory.write_word(8188, 6);
    blank(&mut memory, FrameNo::new(1));
    assert_eq!(rt; (memory.read_word(4096), memory.read_word(8188)), (0, 0));
    assert_eq!(rt; memory.read_word(4), 0xabcd_ef01);
    Ok(())
}

// A machine has 4,096 frames at most: the last word of such a memory.
#[test]
fn the_last_word_of_the_most_frames(rt: HostRuntime) -> Result<(), Memory> {
    let mut memory = PhysMem::new(rt.alloc(), 4096)?;
    memory.write_word(0x00ff_fffc, 0x8765_4321);
    memory.write_byte(0x00ff_fffd, 0xab);
    let read = (
        memory.frames(),
        memory.read_word(0x00ff_fffc),
        memory.read_half(0x00ff_fffe),
        memory.read_byte(0x00ff_ffff),
        memory.read_word(0x00ff_fff8),
        memory.read_word(0),
    );
    assert_eq!(rt; read, (4096, 0x8765_ab21, 0x8765, 0x87, 0, 0));
    blank(&mut memory, FrameNo::new(4095));
    assert_eq!(rt; memory.read_word(0x00ff_fffc), 0);
    Ok(())
}

// Frames that were never written, below and above one that was.
#[test]
fn frames_never_written(rt: HostRuntime) -> Result<(), Memory> {
    let mut memory = PhysMem::new(rt.alloc(), 4)?;
    blank(&mut memory, FrameNo::new(2));
    memory.write_half(0x2002, 0xabcd);
    let below = (memory.read_word(0), memory.read_word(0x1ffc));
    let written = (memory.read_word(0x2000), memory.read_word(0x2ffc));
    let above = (memory.read_word(0x3000), memory.read_byte(0x3fff));
    assert_eq!(rt; (below, written, above), ((0, 0), (0xabcd_0000, 0), (0, 0)));
    let told = (
        memory.is_blank(FrameNo::new(2)),
        memory.is_blank(FrameNo::new(3)),
    );
    assert_eq!(rt; told, (false, true));
    memory.write_byte(0x3fff, 0xef);
    assert_eq!(rt;
        (memory.read_word(0x2000), memory.read_word(0x3ffc)),
        (0xabcd_0000, 0xef00_0000)
    );
    blank(&mut memory, FrameNo::new(2));
    assert_eq!(rt;
        (memory.read_word(0x2000), memory.read_word(0x3ffc)),
        (0, 0xef00_0000)
    );
    Ok(())
}

// A write sets a frame apart, also one of zero; a frame that is zeroed is marked again,
// and its slot serves the next one.
#[test]
fn frames_with_the_mark(rt: HostRuntime) -> Result<(), Memory> {
    let mut memory = PhysMem::new(rt.alloc(), 64)?;
    assert_eq!(rt; memory.zeros(), 64);
    memory.write_word(4096, 5);
    assert_eq!(rt; memory.zeros(), 63);
    blank(&mut memory, FrameNo::new(1));
    assert_eq!(rt; (memory.zeros(), memory.read_word(4096)), (64, 0));
    memory.write_word(0x3_f000, 0);
    assert_eq!(rt; (memory.zeros(), memory.read_word(0x3_f000)), (63, 0));
    memory.write_byte(0x2000, 7);
    let told = (
        memory.zeros(),
        memory.read_word(0x2000),
        memory.read_word(0x3_f000),
    );
    assert_eq!(rt; told, (62, 7, 0));
    Ok(())
}
