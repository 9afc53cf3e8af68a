// What an image may have at most, by its version.
use super::{IMAGE, are_named, checked};
use crate::equal::is_equal;
use image_check::{CheckRefusal, Checked};
use std::alloc::Global;

// K4, K7 and K16 of the second version: past the first's limits, at their own and past it. Of more
// domains than two, the third and the fourth have one name: the rule's next case.
const OF_THE_SECOND: &str = r#"# K4
frames = 64 => version = 2~frames = 4096
accepted
frames = 64 => version = 2~frames = 4097
accepted
frames = 64 => version = 2~frames = 16384
accepted
frames = 64 => version = 2~frames = 16385
K4 at 0 found 16385 wanted 16384
frames = 64 => version = 2~frames = 63
K4 at 0 found 63 wanted 64
# K7
frames = 64 => version = 2~frames = 64
[[schedule]] => MORE[[schedule]]
MORE => [[domain]]~name = "c"~colours = [2]~entry = 0~segment = [{ page = 0, pages = 1, rights = "x", hex = "" }]~ * 15
K7 at 3 found 2 wanted 0
frames = 64 => version = 2~frames = 64
[[schedule]] => MORE[[schedule]]
MORE => [[domain]]~name = "c"~colours = [2]~entry = 0~segment = [{ page = 0, pages = 1, rights = "x", hex = "" }]~ * 30
K7 at 3 found 2 wanted 0
frames = 64 => version = 2~frames = 64
[[schedule]] => MORE[[schedule]]
MORE => [[domain]]~name = "c"~colours = [2]~entry = 0~segment = [{ page = 0, pages = 1, rights = "x", hex = "" }]~ * 31
K7 at 32 found 33 wanted 32
# K16
frames = 64 => version = 2~frames = 64
[[schedule]]~domain = 0~length = 10000~pad = 6150~ => [[schedule]]~domain = 0~length = 10000~pad = 6150~ * 64
accepted
frames = 64 => version = 2~frames = 64
[[schedule]]~domain = 0~length = 10000~pad = 6150~ => [[schedule]]~domain = 0~length = 10000~pad = 6150~ * 255
accepted
frames = 64 => version = 2~frames = 64
[[schedule]]~domain = 0~length = 10000~pad = 6150~ => [[schedule]]~domain = 0~length = 10000~pad = 6150~ * 256
K16 at 0 found 257 wanted 1"#;

// The same of an image that says that it is of the first.
const OF_THE_FIRST: &str = r#"# K4
frames = 64 => version = 1~frames = 4096
accepted
frames = 64 => version = 1~frames = 4097
K4 at 0 found 4097 wanted 4096
# K7
frames = 64 => version = 1~frames = 64
[[schedule]] => MORE[[schedule]]
MORE => [[domain]]~name = "c"~colours = [2]~entry = 0~segment = [{ page = 0, pages = 1, rights = "x", hex = "" }]~ * 14
K7 at 3 found 2 wanted 0
frames = 64 => version = 1~frames = 64
[[schedule]] => MORE[[schedule]]
MORE => [[domain]]~name = "c"~colours = [2]~entry = 0~segment = [{ page = 0, pages = 1, rights = "x", hex = "" }]~ * 15
K7 at 16 found 17 wanted 16
# K16
frames = 64 => version = 1~frames = 64
[[schedule]]~domain = 0~length = 10000~pad = 6150~ => [[schedule]]~domain = 0~length = 10000~pad = 6150~ * 63
accepted
frames = 64 => version = 1~frames = 64
[[schedule]]~domain = 0~length = 10000~pad = 6150~ => [[schedule]]~domain = 0~length = 10000~pad = 6150~ * 64
K16 at 0 found 65 wanted 1"#;

#[test]
fn the_first_broken_case_is_named(rt: HostRuntime) -> Result<(), CheckRefusal> {
    are_named(&rt, rt.alloc(), IMAGE, &[OF_THE_SECOND, OF_THE_FIRST])
}

const LARGE_MACHINE: &str = r#"version = 2
frames = 16384
shared = 512
line = 64
l1i = { sets = 16, ways = 2, policy = "lru" }
l1d = { sets = 16, ways = 2, policy = "lru" }
l2 = { sets = 4096, ways = 4, policy = "lru" }
tlb = { sets = 4, ways = 2, policy = "lru" }
predictor = 16
costs = { base = 1, l1 = 1, l2 = 8, mem = 40, wb = 10, tlb = 1, mispredict = 3, trap = 10, flush = 20 }
"#;

fn push_domain(alloc: Global, text: &mut String, d: u32, colour: u32) -> Result<(), CheckRefusal> {
    let domain = format!(in alloc;
        "[[domain]]\nname = \"d{d}\"\ncolours = [{colour}]\nentry = 0\ncalls = [0]\nsegment = [{{ page = 0, pages = 1, rights = \"x\", hex = \"\" }}]\n"
    )?;
    text.push_str(domain.as_str())?;
    Ok(())
}

fn push_entry(alloc: Global, text: &mut String, d: u32) -> Result<(), CheckRefusal> {
    let slot = format!(in alloc; "[[schedule]]\ndomain = {d}\nlength = 1000\npad = 2374\n")?;
    text.push_str(slot.as_str())?;
    Ok(())
}

fn push_box(alloc: Global, text: &mut String, from: u32, to: u32) -> Result<(), CheckRefusal> {
    let mailbox = format!(in alloc; "[[mail]]\nfrom = {from}\nto = {to}\n")?;
    text.push_str(mailbox.as_str())?;
    Ok(())
}

// 32 domains of a colour each, 256 entries, eight for each of them, and 64 boxes, two from each.
fn large_image(alloc: Global) -> Result<String, CheckRefusal> {
    let mut text = String::from_str(alloc, LARGE_MACHINE)?;
    for d in 0..32_u32 {
        push_domain(alloc, &mut text, d, d + 1)?;
    }
    for entry in 0..256_u32 {
        push_entry(alloc, &mut text, entry % 32)?;
    }
    for a in 0..64_u32 {
        push_box(alloc, &mut text, a % 32, (a + 1 + a / 32) % 32)?;
    }
    Ok(text)
}

fn large(alloc: Global) -> Result<Checked, CheckRefusal> {
    checked(alloc, large_image(alloc)?.as_str())
}

#[test]
fn an_image_may_have_as_much_as_the_second_allows(rt: HostRuntime) -> Result<(), CheckRefusal> {
    let checked = large(rt.alloc())?;
    let public = checked.public();
    let found = (
        public.hardware.frames,
        public.domains,
        public.schedule.len(),
    );
    let last = public.schedule.entry(255).domain;
    let boxes = public.mail.len();
    drop(checked);
    is_equal(&rt, "frames, domains, entries", found, (16384, 32, 256));
    is_equal(&rt, "the last entry's", last, 31);
    is_equal(&rt, "boxes", boxes, 64);
    Ok(())
}
