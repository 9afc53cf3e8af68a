// Machines with products and divisions, and with a target buffer.
use crate::answers::{expect, image, tells};
use crate::timed::BLUE;
use std::test::Fail;
use tp_run::Status;

const PREDICTOR: &str = "predictor = 16\n";

// csrrs x5, cycle, x0; addi x6, x0, 100; div x7, x6, x0; csrrs x8, cycle, x0; addi x17,
// x0, 0; ecall. A hundred has seven digits: the division takes eight steps of two cycles.
const DIVIDES: &str = "f32200c013034006b3430302732400c09308000073000000";

#[test]
fn divisions_take_a_step_for_each_digit(rt: HostRuntime) -> Result<(), Fail> {
    let alloc = rt.alloc();
    let short = image(alloc, "", "", DIVIDES)?;
    // Without them the word is no instruction.
    let texts = "status stopped 2 pc 00010008 value 020343b3|retired 2";
    tells(&rt, alloc, "tp run --slots 2", short.as_str(), texts)?;
    let parts = "predictor = 16\nmuldiv = { mul = 4, div = 2 }\n";
    let short = short.replace(alloc, PREDICTOR, parts)?;
    let line = "refused K17 at 0 found 6150 wanted 6216\n";
    expect(
        &rt,
        alloc,
        "tp check",
        short.as_str(),
        Status::Refused,
        line,
    )?;
    let padded = short.replace(alloc, "pad = 6150", "pad = 6216")?;
    let texts = "status exited 0|x7=ffffffff|readings 2 last 6385 list 6216 6385";
    tells(&rt, alloc, "tp run --slots 2", padded.as_str(), texts)
}

// jal x0, 0 looks once where it never was; from then on it is known.
#[test]
fn a_jump_is_known_from_its_second_time_on(rt: HostRuntime) -> Result<(), Fail> {
    let alloc = rt.alloc();
    let image = image(alloc, "", "", "6f000000")?;
    tells(
        &rt,
        alloc,
        "tp run --slots 2",
        image.as_str(),
        "retired 3286",
    )?;
    let parts = "predictor = 16\ntargets = 16\n";
    let image = image.replace(alloc, PREDICTOR, parts)?;
    tells(
        &rt,
        alloc,
        "tp run --slots 2",
        image.as_str(),
        "retired 3285",
    )?;
    tells(&rt, alloc, "tp run --slots 2", image.as_str(), BLUE)
}
