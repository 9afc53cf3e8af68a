// A word in a box: when it comes in, on one hart and on two.
use crate::answers::{READS_B, image, tells};
use std::alloc::Global;
use std::test::Fail;

// addi x11, x0, 77; addi x17, x0, 19; ecall; addi x17, x0, 0; ecall: SEND to box 0, and EXIT.
const SENDS: &str = "9305d00493083001730000009308000073000000";

// addi x17, x0, 20; ecall; addi x17, x0, 0; ecall: RECV from box 0, and EXIT.
const RECEIVES: &str = "93084001730000009308000073000000";

const COMES: &str =
    "replies 1 last 0:0 list 0:0|blue\nstatus exited 0|replies 1 last 0:77 list 0:77";

const COMES_LATER: &str =
    "replies 1 last 0:0 list 0:0|blue\nstatus exited 16|replies 1 last 16:0 list 16:0";

// Red sends, and blue receives, by a box that leads from red to blue; blue's entry, which is
// the last, ends so.
fn told(alloc: Global, last: &str) -> Result<String, Fail> {
    let image = image(alloc, "", "", SENDS)?.replace(alloc, READS_B, RECEIVES)?;
    Ok(format!(in alloc; "{image}{last}[[mail]]\nfrom = 0\nto = 1\n")?)
}

#[test]
fn a_word_comes_in_with_the_receivers_next_slot(rt: HostRuntime) -> Result<(), Fail> {
    let alloc = rt.alloc();
    let image = told(alloc, "")?;
    tells(&rt, alloc, "tp run --slots 2", image.as_str(), COMES)?;
    // Alone nothing comes to it.
    let alone = "status exited 16|replies 1 last 16:0 list 16:0";
    tells(
        &rt,
        alloc,
        "tp alone --domain 1 --slots 2",
        image.as_str(),
        alone,
    )
}

#[test]
fn no_word_comes_in_before_its_senders_slot_ended(rt: HostRuntime) -> Result<(), Fail> {
    let alloc = rt.alloc();
    let red_last = told(alloc, "")?
        .replace(alloc, "domain = 0\n", "domain = 2\n")?
        .replace(alloc, "domain = 1\n", "domain = 0\n")?
        .replace(alloc, "domain = 2\n", "domain = 1\n")?;
    tells(
        &rt,
        alloc,
        "tp run --slots 2",
        red_last.as_str(),
        COMES_LATER,
    )?;
    // On two harts both have their first slots at once.
    let at_once = told(alloc, "hart = 1\n")?;
    tells(
        &rt,
        alloc,
        "tp run --slots 2",
        at_once.as_str(),
        COMES_LATER,
    )
}
