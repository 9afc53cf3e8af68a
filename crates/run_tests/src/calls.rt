// Kernel calls on memory, through whole runs.
use crate::answers::{DATA, image, tells};
use std::alloc::Global;
use std::process::Abort;
use std::test::Fail;

// A capability of the data page.
const DATA_CAP: &str = "caps = [\"page 32\"]";

// A program, and what its report has. ALLOC of a table, and MAP of it.
//
//     addi x11, x0, 1; addi x17, x0, 2; ecall
//     addi x17, x0, 4; ecall
//     addi x17, x0, 0; ecall
const WITHOUT_DATA: &str =
    "93051000930820007300000093084000730000009308000073000000;status exited 5|replies 2 last 5:0 list 0:0 5:0";

// With a data page and its capability. A load, DELETE, a load; then COPY, COPY
// beyond its rights, REVOKE, UNMAP of an empty slot, UNMAP, UNMAP again.
//
//     lui x5, 0x20; lw x6, 0(x5)
//     addi x17, x0, 7; ecall
//     lw x6, 0(x5)
//
//     addi x11, x0, 1; addi x12, x0, 1; addi x17, x0, 6; ecall
//     addi x11, x0, 2; addi x12, x0, 7; ecall
//     addi x10, x0, 0; addi x17, x0, 8; ecall
//     addi x10, x0, 1; addi x17, x0, 5; ecall
//     addi x10, x0, 0; ecall
//     ecall
//     addi x17, x0, 0; ecall
const WITH_DATA: &str =
    "b702020003a30200930870007300000003a30200;status stopped 13 pc 00010010 value 00020000|retired 3|replies 1 last 0:0 list 0:0
930510001306100093086000730000009305200013067000730000001305000093088000730000001305100093085000730000001305000073000000730000009308000073000000;status exited 7|replies 6 last 7:0 list 0:0 6:0 0:1 3:0 0:0 7:0";

// Ten ALLOCs, of which the last finds no frame, a DELETE, and an ALLOC again.
//
//     addi x10, x5, 0; addi x11, x0, 0; addi x17, x0, 2; ecall
//     addi x5, x5, 1; beq x10, x0, .-20
//     addi x10, x0, 0; addi x17, x0, 7; ecall
//     addi x17, x0, 2; ecall
//     addi x17, x0, 0; ecall
pub const TEN_FRAMES: &str =
    "1385020093050000930820007300000093821200e30605fe13050000930870007300000093082000730000009308000073000000";

pub const TEN_REPLIES: &str =
    "status exited 0|replies 12 last 0:0 list 0:0 0:0 0:0 0:0 0:0 0:0 0:0 0:0 0:0 10:0 0:0 0:0";

// ALLOC of a page and of a table; MAP where no table is, TABLE, MAP, a store and
// a load through it, and DELETE of the table, which is in use.
//
//     addi x17, x0, 2; ecall
//     addi x10, x0, 1; addi x11, x0, 1; ecall
//     addi x12, x0, 3; lui x11, 0x400; addi x17, x0, 4; ecall
//     addi x10, x0, 1; lui x11, 0x400; addi x17, x0, 3; ecall
//     lui x11, 0x400; addi x17, x0, 4; ecall
//     lui x5, 0x400; sw x17, 0(x5); lw x6, 0(x5)
//     addi x10, x0, 1; addi x17, x0, 7; ecall
//     addi x17, x0, 0; ecall
const NEW_TABLE: &str =
    "930820007300000013051000930510007300000013063000b7054000930840007300000013051000b70540009308300073000000b70540009308400073000000b702400023a0120103a302001305100093087000730000009308000073000000";

const NEW_TABLE_REPLIES: &str =
    "status exited 12|x6=00000004|replies 6 last 12:0 list 0:0 0:0 9:0 0:0 0:0 12:0";

fn each_tells(
    rt: &impl Abort,
    alloc: Global,
    segments: &str,
    caps: &str,
    rows: &str,
) -> Result<(), Fail> {
    for row in rows.split('\n') {
        let mut fields = row.split(';');
        let program = fields.next().unwrap_or("");
        let texts = fields.next().unwrap_or("");
        let image = image(alloc, segments, caps, program)?;
        tells(rt, alloc, "tp run --slots 2", image.as_str(), texts)?;
    }
    Ok(())
}

#[test]
fn calls_change_a_domains_memory(rt: HostRuntime) -> Result<(), Fail> {
    let alloc = rt.alloc();
    each_tells(&rt, alloc, "", "", WITHOUT_DATA)?;
    each_tells(&rt, alloc, DATA, DATA_CAP, WITH_DATA)?;
    let ten = image(alloc, "", "", TEN_FRAMES)?;
    tells(&rt, alloc, "tp run --slots 16", ten.as_str(), TEN_REPLIES)?;
    let table = image(alloc, "", "", NEW_TABLE)?;
    tells(
        &rt,
        alloc,
        "tp run --slots 2",
        table.as_str(),
        NEW_TABLE_REPLIES,
    )
}
