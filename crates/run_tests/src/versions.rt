// Images of the second version: calls that a domain may not make, and pads by those that it may.
use crate::answers::{READS_A, SCHEDULE, expect, image, tells};
use std::alloc::Global;
use std::process::Abort;
use std::test::Fail;
use tp_run::Status;

const RUN: &str = "tp run --slots 4";

// EXIT and PUT alone, by which both domains can go with a pad of 2374.
const FEW: &str = "calls = [0, 1]";

// The image of red's program and of blue, who prints B, with a line for the calls of each and a pad
// for each entry.
fn second(alloc: Global, program: &str, calls: [&str; 2], pads: [u32; 2]) -> Result<String, Fail> {
    let [of_red, of_blue] = calls;
    let [first, last] = pads;
    let blue = format!(in alloc; "name = \"blue\"\n{of_blue}")?;
    let entries = format!(in alloc;
        "[[schedule]]\ndomain = 0\nlength = 10000\npad = {first}\n[[schedule]]\ndomain = 1\nlength = 10000\npad = {last}\n"
    )?;
    Ok(
        image(alloc, "", of_red, program)?
            .replace(alloc, "frames = 64", "version = 2\nframes = 64")?
            .replace(alloc, "name = \"blue\"", blue.as_str())?
            .replace(alloc, SCHEDULE, entries.as_str())?,
    )
}

// Each slot begins at its start: 2374, and 14748 = 2 * 2374 + 10000.
const FEW_REPORT: &str = "domain 0 red
status exited 0
retired 5
thread 0 ended pc 00010018 x5=00000946 x6=00000b1d
readings 2 last 2845 list 2374 2845
replies 1 last 0:0 list 0:0
out 1 41
mem 842115e1
domain 1 blue
status exited 0
retired 5
thread 0 ended pc 00010018 x5=0000399c x6=00003b73
readings 2 last 15219 list 14748 15219
replies 1 last 0:0 list 0:0
out 1 42
mem 84311de1
switch 0 used 820 pad 2374 count 2
switch 1 used 755 pad 2374 count 2
end
";

#[test]
fn domains_that_may_make_few_calls_have_short_pads(rt: HostRuntime) -> Result<(), Fail> {
    let alloc = rt.alloc();
    let both = second(alloc, READS_A, [FEW, FEW], [2374, 2374])?;
    let accepted = "accepted\n";
    expect(
        &rt,
        alloc,
        "tp check",
        both.as_str(),
        Status::Done,
        accepted,
    )?;
    expect(&rt, alloc, RUN, both.as_str(), Status::Done, FEW_REPORT)?;
    // Each pad is held against the calls of its own entry's domain.
    let short = second(alloc, READS_A, [FEW, FEW], [2373, 2374])?;
    let line = "refused K17 at 0 found 2373 wanted 2374\n";
    expect(&rt, alloc, RUN, short.as_str(), Status::Refused, line)?;
    let every = second(alloc, READS_A, [FEW, ""], [2374, 6149])?;
    let line = "refused K17 at 1 found 6149 wanted 6150\n";
    expect(&rt, alloc, RUN, every.as_str(), Status::Refused, line)?;
    let every = second(alloc, READS_A, [FEW, ""], [2374, 6150])?;
    expect(
        &rt,
        alloc,
        "tp check",
        every.as_str(),
        Status::Done,
        accepted,
    )
}

#[test]
fn calls_out_of_order_are_refused_after_the_pads(rt: HostRuntime) -> Result<(), Fail> {
    let alloc = rt.alloc();
    let line = "refused K18 at 1 found 1 wanted 14\n";
    let back = second(alloc, READS_A, [FEW, "calls = [1, 0]"], [2374, 2374])?;
    for words in ["tp check", "tp bound", RUN, "tp alone --domain 0 --slots 4"] {
        expect(&rt, alloc, words, back.as_str(), Status::Refused, line)?;
    }
    let short = second(alloc, READS_A, [FEW, "calls = [1, 0]"], [2373, 2374])?;
    expect(
        &rt,
        alloc,
        "tp bound",
        short.as_str(),
        Status::Refused,
        line,
    )?;
    let line = "refused K17 at 0 found 2373 wanted 2374\n";
    expect(
        &rt,
        alloc,
        "tp check",
        short.as_str(),
        Status::Refused,
        line,
    )
}

// What a domain may make, and the operation and bound of its entry: an ALLOC writes the 64 lines of a
// frame, TABLE, MAP, UNMAP and DELETE one, REVOKE 63, each of 59 cycles, and the others none.
const BOUNDS: &str = "calls = []|501|2374
calls = [0]|501|2374
calls = [1]|501|2374
calls = [2]|4277|6150
calls = [3]|560|2433
calls = [4]|560|2433
calls = [5]|560|2433
calls = [6]|501|2374
calls = [7]|560|2433
calls = [8]|4218|6091
calls = [9]|501|2374
calls = [10]|501|2374
calls = [11]|501|2374
calls = [12]|501|2374
calls = [13]|501|2374
calls = [14]|501|2374
calls = [3, 4, 5, 7]|560|2433
calls = [5, 8]|4218|6091
calls = [2, 8]|4277|6150
calls = [0, 1, 6, 9, 10, 11, 12, 13, 14]|501|2374
calls = [0, 1, 2, 3, 4, 5, 6, 7, 8, 9, 10, 11, 12, 13, 14]|4277|6150
|4277|6150";

// The parts that are the same whoever leaves.
const SHARED_PARTS: &str = "instruction 306\nleave 383\nprefetch 472\nflush 340\nenter 373\n";

// The bounds of red's calls in one of the entries, and of blue's, who may make few, in the other.
fn bounds_are(
    rt: &impl Abort,
    alloc: Global,
    calls: &str,
    operation: &str,
    bound: &str,
) -> Result<(), Fail> {
    let few = "operation 501 bound 2374";
    let own = format!(in alloc; "operation {operation} bound {bound}")?;
    let first = second(alloc, READS_A, [calls, FEW], [0, 0])?;
    let text = format!(in alloc; "{SHARED_PARTS}entry 0 {own}\nentry 1 {few}\n")?;
    expect(
        rt,
        alloc,
        "tp bound",
        first.as_str(),
        Status::Done,
        text.as_str(),
    )?;
    let last = second(alloc, READS_A, [FEW, calls], [0, 0])?;
    let text = format!(in alloc; "{SHARED_PARTS}entry 0 {few}\nentry 1 {own}\n")?;
    expect(
        rt,
        alloc,
        "tp bound",
        last.as_str(),
        Status::Done,
        text.as_str(),
    )
}

#[test]
fn each_entry_is_bound_by_its_domains_calls(rt: HostRuntime) -> Result<(), Fail> {
    for row in BOUNDS.split('\n') {
        let mut fields = row.split('|');
        let calls = fields.next().unwrap_or("");
        let operation = fields.next().unwrap_or("");
        let bound = fields.next().unwrap_or("");
        bounds_are(&rt, rt.alloc(), calls, operation, bound)?;
    }
    Ok(())
}

// A frame has 32 lines of 128 bytes: a REVOKE writes more than an ALLOC.
#[test]
fn the_most_lines_are_of_a_revoke_where_lines_are_long(rt: HostRuntime) -> Result<(), Fail> {
    let alloc = rt.alloc();
    let image = second(alloc, READS_A, ["calls = [2]", "calls = [2, 8]"], [0, 0])?.replace(
        alloc,
        "line = 64",
        "line = 128",
    )?;
    let text =
        "instruction 306\nleave 383\nprefetch 236\nflush 340\nenter 373\nentry 0 operation 2389 bound 4026\nentry 1 operation 4218 bound 5855\n";
    expect(&rt, alloc, "tp bound", image.as_str(), Status::Done, text)
}

// The clock around calls 2, 8 and 15. The first reading takes 147 cycles, an instruction from then on 3. A
// bad call has the same lines each time, those of operation 18: they take 315 cycles at first, and then 19.
//
//     csrrs x5, cycle, x0; addi x17, x0, 2; ecall
//     csrrs x6, cycle, x0; addi x17, x0, 8; ecall
//     csrrs x7, cycle, x0; addi x17, x0, 15; ecall
//     csrrs x8, cycle, x0; addi x17, x0, 0; ecall
const TRIES_CALLS: &str =
    "f32200c09308200073000000732300c09308800073000000f32300c09308f00073000000732400c09308000073000000";

const ONE_BAD_CALL_THREE_TIMES: &str = "domain 0 red
status exited 1
retired 8
thread 0 ended pc 0001002c x5=00000946 x6=00000b1a x7=00000b36 x8=00000b52 x10=00000001
readings 4 last 2898 list 2374 2842 2870 2898
replies 3 last 1:0 list 1:0 1:0 1:0
out 0
";

// ALLOC and REVOKE are made, and have lines of their own.
const TWO_CALLS_AND_A_BAD_ONE: &str = "domain 0 red
status exited 1
retired 8
|replies 3 last 1:0 list 0:0 0:0 1:0
out 0
";

#[test]
fn a_call_that_is_left_out_takes_as_long_as_one_that_is_none(rt: HostRuntime) -> Result<(), Fail> {
    let alloc = rt.alloc();
    let few = second(alloc, TRIES_CALLS, [FEW, FEW], [2374, 2374])?;
    for words in ["tp run --slots 2", "tp alone --domain 0 --slots 2"] {
        tells(&rt, alloc, words, few.as_str(), ONE_BAD_CALL_THREE_TIMES)?;
    }
    // So it is whichever guard is off.
    for off in "flush prefetch pad colour clone irq".split(' ') {
        let words = format!(in alloc; "tp ablate --off {off} --slots 2")?;
        let replies = "replies 3 last 1:0 list 1:0 1:0 1:0\n";
        tells(&rt, alloc, words.as_str(), few.as_str(), replies)?;
    }
    // Where the calls aren't listed each is made, as in the first version.
    let every = second(alloc, TRIES_CALLS, ["", FEW], [6150, 2374])?;
    tells(&rt, alloc, RUN, every.as_str(), TWO_CALLS_AND_A_BAD_ONE)
}

// A domain that may not exit goes on after it, and is still there.
//
//     addi x17, x0, 0; ecall; addi x17, x0, 14; ecall; jal x0, 0
#[test]
fn a_domain_that_may_not_end_runs_on(rt: HostRuntime) -> Result<(), Fail> {
    let alloc = rt.alloc();
    let ends = "93080000730000009308e000730000006f000000";
    let image = second(alloc, ends, ["calls = []", FEW], [2374, 2374])?;
    let texts =
        "domain 0 red\nstatus running\n|thread 0 ready pc 00010010 x10=00000001 x17=0000000e\n|replies 2 last 1:0 list 1:0 1:0\n";
    tells(&rt, alloc, RUN, image.as_str(), texts)
}
