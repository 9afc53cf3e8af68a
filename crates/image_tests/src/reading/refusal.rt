// The texts of errors.
use crate::equal::is_equal;
use image_record::{ReadRefusal, Refusal};
use std::alloc::Global;
use std::process::Abort;
use std::test::Fail;

const BROKEN: Refusal = Refusal {
    rule: 1,
    at: 0,
    found: 0,
    wanted: 0,
};

fn is_written(
    rt: &impl Abort,
    alloc: Global,
    refusal: ReadRefusal,
    text: &str,
) -> Result<(), Fail> {
    let written = format!(in alloc; "{refusal}")?;
    is_equal(rt, "the text", written.as_str(), text);
    Ok(())
}

#[test]
fn texts(rt: HostRuntime) -> Result<(), Fail> {
    let broken = ReadRefusal::Broken(BROKEN);
    is_written(&rt, rt.alloc(), broken, "the image breaks a rule")?;
    is_written(&rt, rt.alloc(), ReadRefusal::Memory, "memory ran out")
}
