// Whole runs, through sources and sinks in memory.
ghost use Rattle.std.specs.Prelude.{◌≤◌, ◌<◌, IfOk, length};
ghost use Rattle.tp_answer.specs.Answer as spec;
ghost use Rattle.tp_answer.specs.TopCall.{ComesTo};
ghost use Rattle.tp_words.specs.Words.{words_of};

use std::alloc::Global;
use std::process::Abort;
use std::test::Fail;
use tp_base::Memory;
use tp_io::{MemSink, MemSource, Source, SureSource};
use tp_run::{Status, tp_main};

mod refusals;
mod rules;
mod seeds;
mod tenants;

// Prints A, or B, and exits; or jumps to itself.
//
//     addi x10, x0, 0x41; addi x17, x0, 1; ecall
//     addi x17, x0, 0; ecall
const PRINTS_A: &str = "1305100493081000730000009308000073000000";

//     addi x10, x0, 0x42; addi x17, x0, 1; ecall
//     addi x17, x0, 0; ecall
const PRINTS_B: &str = "1305200493081000730000009308000073000000";

//     jal x0, 0
const SPINS: &str = "6f000000";

// Reads the cycle counter before and after it prints A, or B.
//
//     csrrs x5, cycle, x0
//     addi x10, x0, 0x41; addi x17, x0, 1; ecall
//     csrrs x6, cycle, x0
//     addi x17, x0, 0; ecall
const READS_A: &str = "f32200c0130510049308100073000000732300c09308000073000000";

//     csrrs x5, cycle, x0
//     addi x10, x0, 0x42; addi x17, x0, 1; ecall
//     csrrs x6, cycle, x0
//     addi x17, x0, 0; ecall
const READS_B: &str = "f32200c0130520049308100073000000732300c09308000073000000";

// Prints a byte 4,097 times, and exits with the last reply's code.
//
//     addi x17, x0, 1; lui x5, 0x1
//     addi x10, x0, 0x41; ecall
//     addi x5, x5, -1; bge x5, x0, .-12
//     addi x17, x0, 0; ecall
const PRINTS_TOO_MUCH: &str = "93081000b712000013051004730000009382f2ffe3da02fe9308000073000000";

// Goes 8,192 times round, and then reads cycle, time and instret, each low and high.
//
//     lui x5, 0x2
//     addi x5, x5, -1; bne x5, x0, .-4
//     csrrs x6, cycle, x0; csrrs x7, cycleh, x0
//     csrrs x8, time, x0; csrrs x9, timeh, x0
//     csrrs x12, instret, x0; csrrs x13, instreth, x0
//     addi x10, x0, 0; ecall
const WAITS: &str =
    "b72200009382f2ffe39e02fe732300c0f32300c8732410c0f32410c8732620c0f32620c81305000073000000";

const REPORT: &str =
    "domain 0 red\nstatus exited 0\nretired 3\nthread 0 ended pc 00010010\nreadings 0\nreplies 1 last 0:0 list 0:0\nout 1 41\nmem 0420cf7b\ndomain 1 blue\nstatus exited 0\nretired 3\nthread 0 ended pc 00010010\nreadings 0\nreplies 1 last 0:0 list 0:0\nout 1 42\nmem 0430d77b\nswitch 0 used 820 pad 6150 count 2\nswitch 1 used 755 pad 6150 count 2\nend\n";

const SPINS_REPORT: &str =
    "domain 0 red\nstatus running\nretired 3286\nthread 0 ready pc 00010000\nreadings 0\nreplies 0\nout 0\nmem 0000b8cb\ndomain 1 blue\nstatus exited 0\nretired 3\nthread 0 ended pc 00010010\nreadings 0\nreplies 1 last 0:0 list 0:0\nout 1 42\nmem 0430d77b\nswitch 0 used 734 pad 6150 count 1\nswitch 1 used 755 pad 6150 count 1\nend\n";

const FRESH_REPORT: &str =
    "domain 0 red\nstatus running\nretired 0\nthread 0 ready pc 00010000\nreadings 0\nreplies 0\nout 0\nmem 842115e1\ndomain 1 blue\nstatus running\nretired 0\nthread 0 ready pc 00010000\nreadings 0\nreplies 0\nout 0\nmem 84311de1\nswitch 0 used 0 pad 6150 count 0\nswitch 1 used 0 pad 6150 count 0\nend\n";

const READS_REPORT: &str =
    "domain 0 red\nstatus exited 0\nretired 5\nthread 0 ended pc 00010018 x5=00001806 x6=000019dd\nreadings 2 last 6621 list 6150 6621\nreplies 1 last 0:0 list 0:0\nout 1 41\nmem 842115e1\ndomain 1 blue\nstatus exited 0\nretired 5\nthread 0 ended pc 00010018 x5=0000571c x6=000058f3\nreadings 2 last 22771 list 22300 22771\nreplies 1 last 0:0 list 0:0\nout 1 42\nmem 84311de1\nswitch 0 used 820 pad 6150 count 2\nswitch 1 used 755 pad 6150 count 2\nend\n";

// What is seen of blue after it printed B.
const BLUE: &str =
    "domain 1 blue\nstatus exited 0\nretired 3\nthread 0 ended pc 00010010\nreadings 0\nreplies 1 last 0:0 list 0:0\nout 1 42\nmem 0430d77b\n";

const USAGE: &str = "usage: tp check|bound|run|alone|gen|demo\n";

// REPORT, with a bar after what each write of at most 64 bytes takes.
const PIECES: &str =
    "domain 0 red\nstatus exited 0\nretired 3\nthread 0 ended pc 0001001|0\nreadings 0\nreplies 1 last 0:0 list 0:0\nout 1 41\nmem 0420cf7b\n|domain 1 blue\nstatus exited 0\nretired 3\nthread 0 ended pc 000100|10\nreadings 0\nreplies 1 last 0:0 list 0:0\nout 1 42\nmem 0430d77b\n|switch 0 used 820 pad 6150 count 2\nswitch 1 used 755 pad 6150 co|unt 2\nend\n|";

// What every image begins with.
const MACHINE: &str =
    "frames = 64\nshared = 512\nline = 64\nl1i = { sets = 16, ways = 2, policy = \"lru\" }\nl1d = { sets = 16, ways = 2, policy = \"lru\" }\nl2 = { sets = 256, ways = 4, policy = \"lru\" }\ntlb = { sets = 4, ways = 2, policy = \"lru\" }\npredictor = 16\ncosts = { base = 1, l1 = 1, l2 = 8, mem = 40, wb = 10, tlb = 1, mispredict = 3, trap = 10, flush = 20 }\n";

// What every image ends with.
const SCHEDULE: &str =
    "[[schedule]]\ndomain = 0\nlength = 10000\npad = 6150\n[[schedule]]\ndomain = 1\nlength = 10000\npad = 6150\n";

// One domain with three pages under two tables, and the later pages first: it
// stores in the last page, loads from the one before, and stores past the last.
//
//     lui x5, 0x400; addi x6, x0, 1; sw x6, 0(x5)
//     lui x8, 0x3ff; lw x7, 0(x8)
//     lui x9, 0x401; sw x6, 0(x9)
const TWO_TABLES: &str =
    "[[domain]]\nname = \"red\"\ncolours = [1]\nentry = 0x10000\nsegment = [{ page = 1023, pages = 2, rights = \"rw\", hex = \"01020304\" }, { page = 16, pages = 1, rights = \"rx\", hex = \"b70240001303100023a0620037f43f0083230400b714400023a06400\" }]\n[[schedule]]\ndomain = 0\nlength = 10000\npad = 6150\n";

const TWO_TABLES_REPORT: &str =
    "domain 0 red\nstatus stopped 15 pc 00010018 value 00401000\nretired 6\nthread 0 ready pc 00010018 x5=00400000 x6=00000001 x7=04030201 x8=003ff000 x9=00401000\nreadings 0\nreplies 0\nout 0\nmem 05a0ba8e\nswitch 0 used 755 pad 6150 count 1\nend\n";

// The words of the runs that are tried with failures.
const RUN: &str = "tp run --slots 4";

// Two domains with these programs.
fn domains(alloc: Global, red: &str, blue: &str) -> Result<String, Fail> {
    let domains = format!(in alloc;
        "[[domain]]\nname = \"red\"\ncolours = [1]\nentry = 0x10000\nsegment = [{{ page = 16, pages = 1, rights = \"rx\", hex = \"{red}\" }}]\n[[domain]]\nname = \"blue\"\ncolours = [2]\nentry = 0x10000\nsegment = [{{ page = 16, pages = 1, rights = \"rx\", hex = \"{blue}\" }}]\n"
    )?;
    Ok(domains)
}

// The image with these two programs.
fn image(alloc: Global, red: &str, blue: &str) -> Result<String, Fail> {
    let domains = domains(alloc, red, blue)?;
    Ok(format!(in alloc; "{MACHINE}{domains}{SCHEDULE}")?)
}

fn words_in(alloc: Global, line: &str) -> Result<Vec<String>, Fail> {
    let mut words = Vec::new(alloc);
    for word in line.split(' ') {
        words.reserve(1)?;
        words.push_reserved(String::from_str(alloc, word)?);
    }
    Ok(words)
}

// Runs over a source that never fails and a sink with room for the text that is
// due: nothing but want of memory keeps the status from being the one that is due.
fn run_surely(
    alloc: Global,
    words: &[String],
    bytes: Vec<u8>,
    room: usize,
) -> Result<Status, Memory>
    ensures due { length (spec.answer (words_of words.now) bytes.items).1 ≤ room
        → IfOk result (λ status. ComesTo (spec.answer (words_of words.now) bytes.items) status) }
{
    let mut source = SureSource::new(bytes);
    let mut sink = MemSink::new(alloc, room, usize::MAX, &[])?;
    Ok(tp_main(alloc, words, &mut source, &mut sink))
}

// The status and the text for these words and bytes, through a source and a
// sink of at most so many bytes a call, of which the listed calls fail.
fn answer(
    alloc: Global,
    line: &str,
    bytes: &[u8],
    most: usize,
    source_fails: &[u64],
    sink_fails: &[u64],
) -> Result<(Status, Vec<u8>), Fail>
    requires some { 0 < most }
{
    let words = words_in(alloc, line)?;
    answer_to(
        alloc,
        words.as_slice(),
        bytes,
        most,
        source_fails,
        sink_fails,
    )
}

fn answer_to(
    alloc: Global,
    words: &[String],
    bytes: &[u8],
    most: usize,
    source_fails: &[u64],
    sink_fails: &[u64],
) -> Result<(Status, Vec<u8>), Fail>
    requires some { 0 < most }
{
    let mut source = MemSource::new(alloc, bytes, most, source_fails)?;
    let mut sink = MemSink::new(alloc, 16384, most, sink_fails)?;
    let status = tp_main(alloc, words, &mut source, &mut sink);
    drop(source);
    let text = Vec::from_slice(alloc, sink.bytes())?;
    Ok((status, text))
}

// What is answered to these words and this image.
fn expect(
    rt: &impl Abort,
    alloc: Global,
    line: &str,
    image: &str,
    status: Status,
    text: &str,
) -> Result<(), Fail> {
    let found = answer(alloc, line, image.as_bytes(), 64, &[], &[])?;
    is_answered(rt, line, &found, status, text);
    Ok(())
}

/// A line of words, and the status and the text that are due.
type Due = (&'static str, Status, &'static str);

// What is answered to this image, line by line.
fn expect_each(rt: &impl Abort, alloc: Global, image: &str, rows: &[Due]) -> Result<(), Fail> {
    for &(line, status, text) in rows {
        expect(rt, alloc, line, image, status, text)?;
    }
    Ok(())
}

fn is_answered(rt: &impl Abort, at: &str, found: &(Status, Vec<u8>), status: Status, text: &str) {
    assert_eq!(rt; found.0, status, "at {at}");
    assert_eq!(rt; found.1.as_slice(), text.as_bytes(), "at {at}");
}

// What is answered to a run of this image, of whose reads and writes these fail.
fn expect_failing(
    rt: &impl Abort,
    alloc: Global,
    image: &str,
    reads: &[u64],
    writes: &[u64],
    status: Status,
    text: &str,
) -> Result<(), Fail> {
    let found = answer(alloc, RUN, image.as_bytes(), 64, reads, writes)?;
    is_answered(rt, text, &found, status, text);
    Ok(())
}

// The report of the image with these two programs.
fn expect_run(
    rt: &impl Abort,
    alloc: Global,
    line: &str,
    red: &str,
    blue: &str,
    report: &str,
) -> Result<(), Fail> {
    let image = image(alloc, red, blue)?;
    expect(rt, alloc, line, image.as_str(), Status::Done, report)
}

#[test]
fn images_are_run(rt: HostRuntime) -> Result<(), Fail> {
    let alloc = rt.alloc();
    expect_run(&rt, alloc, RUN, PRINTS_A, PRINTS_B, REPORT)?;
    expect_run(
        &rt,
        alloc,
        "tp run --slots 2",
        SPINS,
        PRINTS_B,
        SPINS_REPORT,
    )?;
    expect_run(
        &rt,
        alloc,
        "tp run --slots 0",
        READS_A,
        READS_B,
        FRESH_REPORT,
    )?;
    // A counter gives the clock before its instruction.
    expect_run(&rt, alloc, RUN, READS_A, READS_B, READS_REPORT)
}

#[test]
fn pages_are_reached_by_their_tables(rt: HostRuntime) -> Result<(), Fail> {
    let alloc = rt.alloc();
    let image = format!(in alloc; "{MACHINE}{TWO_TABLES}")?;
    expect(
        &rt,
        alloc,
        "tp run --slots 1",
        image.as_str(),
        Status::Done,
        TWO_TABLES_REPORT,
    )
}

// What is seen of red, with this program, and the most cycles that a switch from it used,
// after so many rounds of a slot of its own and one of blue's.
fn expect_red(
    rt: &impl Abort,
    alloc: Global,
    rounds: u32,
    program: &str,
    used: &str,
    section: &str,
) -> Result<(), Fail>
    requires few { rounds ≤ 32768 }
{
    let image = image(alloc, program, PRINTS_B)?;
    expect_rounds(rt, alloc, rounds, image.as_str(), used, section)
}

fn expect_rounds(
    rt: &impl Abort,
    alloc: Global,
    rounds: u32,
    image: &str,
    used: &str,
    section: &str,
) -> Result<(), Fail>
    requires few { rounds ≤ 32768 }
{
    let slots = 2 * rounds;
    let line = format!(in alloc; "tp run --slots {slots}")?;
    let report = format!(in alloc;
        "domain 0 red\n{section}\n{BLUE}switch 0 used {used} pad 6150 count {rounds}\nswitch 1 used 755 pad 6150 count {rounds}\nend\n"
    )?;
    expect(
        rt,
        alloc,
        line.as_str(),
        image,
        Status::Done,
        report.as_str(),
    )
}

// A program, the most cycles that a switch from it used, and what is seen of red then,
// with a bar between and ~ for a new line. An exit with a code past 255; then the
// exceptions, by their codes: a jump to address 2; a misaligned branch that isn't taken,
// and a write of a counter; EBREAK; a load at address 1, and a store at address 2, both in
// no page; a jump to no page; a load from none; a store to its own code. No access fault
// comes, since no walk of a domain leaves memory. Each line is a program:
//
//     lui x10, 0x12345; addi x10, x10, 0x678; ecall
//     jalr x0, 2(x0)
//     bne x0, x0, .+2; csrrw x0, cycle, x0
//     ebreak
//     lw x5, 1(x0)
//     sw x0, 2(x0)
//     jalr x0, 0(x0)
//     lw x5, 0(x0)
//     lui x5, 0x10; sw x0, 8(x5)
const ENDS: &str =
    "375534121305856773000000|800|status exited 305419896~retired 2~thread 0 ended pc 00010008 x10=12345678~readings 0~replies 0~out 0~mem 79ba1319
67002000|732|status stopped 0 pc 00010000 value 00000002~retired 0~thread 0 ready pc 00010000~readings 0~replies 0~out 0~mem 0020b8c3
63110000731000c0|732|status stopped 2 pc 00010004 value c0001073~retired 1~thread 0 ready pc 00010004~readings 0~replies 0~out 0~mem c000da32
73001000|732|status stopped 3 pc 00010000 value 00010000~retired 0~thread 0 ready pc 00010000~readings 0~replies 0~out 0~mem 0010b8cf
83221000|732|status stopped 4 pc 00010000 value 00000001~retired 0~thread 0 ready pc 00010000~readings 0~replies 0~out 0~mem 0010dadf
23210000|732|status stopped 6 pc 00010000 value 00000002~retired 0~thread 0 ready pc 00010000~readings 0~replies 0~out 0~mem 0000d97f
67000000|732|status stopped 12 pc 00000000 value 00000000~retired 1~thread 0 ready pc 00000000~readings 0~replies 0~out 0~mem 0000b8c3
83220000|732|status stopped 13 pc 00010000 value 00000000~retired 0~thread 0 ready pc 00010000~readings 0~replies 0~out 0~mem 0000dadf
b702010023a40200|732|status stopped 15 pc 00010004 value 00010008~retired 1~thread 0 ready pc 00010004 x5=00010000~readings 0~replies 0~out 0~mem 00045f36";

fn ends_so(rt: &impl Abort, alloc: Global, row: &str) -> Result<(), Fail> {
    let (program, rest) = row.split_once('|').unwrap_or((row, ""));
    let (used, section) = rest.split_once('|').unwrap_or((rest, ""));
    let section = section.replace(alloc, "~", "\n")?;
    expect_red(rt, alloc, 2, program, used, section.as_str())
}

#[test]
fn a_domain_ends_by_an_exit_or_an_exception(rt: HostRuntime) -> Result<(), Fail> {
    for row in ENDS.split('\n') {
        ends_so(&rt, rt.alloc(), row)?;
    }
    Ok(())
}

#[test]
fn a_domain_prints_at_most_4096_bytes(rt: HostRuntime) -> Result<(), Fail> {
    let alloc = rt.alloc();
    let printed = "41".repeat(alloc, 4096)?;
    let replies = " 0:0".repeat(alloc, 256)?;
    let section = format!(in alloc;
        "status exited 11\nretired 12294\nthread 0 ended pc 0001001c x5=ffffffff x10=0000000b\nreadings 0\nreplies 4097 last 11:0 list{replies}\nout 4096 {printed}\nmem 02163fa8"
    )?;
    expect_red(&rt, alloc, 13, PRINTS_TOO_MUCH, "744", section.as_str())
}

// Red's slots are short and blue's are long: in its 51st slot the clock is past 2^32.
fn image_that_waits(alloc: Global) -> Result<String, Fail> {
    let two = domains(alloc, WAITS, PRINTS_B)?;
    let others = "[[schedule]]\ndomain = 1\nlength = 1000000\npad = 1000000\n".repeat(alloc, 63)?;
    Ok(format!(in alloc;
        "{MACHINE}{two}[[schedule]]\ndomain = 0\nlength = 1000\npad = 1000000\n{others}"
    )?)
}

fn push_switch(alloc: Global, report: &mut String, entry: u32) -> Result<(), Fail> {
    let used = match entry {
        0 => 734,
        1 => 580,
        _ => 252,
    };
    let line = format!(in alloc; "switch {entry} used {used} pad 1000000 count 50\n")?;
    report.push_str(line.as_str())?;
    Ok(())
}

fn report_of_waiting(alloc: Global) -> Result<String, Fail> {
    let mut report = format!(in alloc;
        "domain 0 red\nstatus exited 0\nretired 16392\nthread 0 ended pc 00010028 x6=7a8d573b x7=00000001 x8=7a8d5741 x9=00000001 x12=00004005\nreadings 6 last 0 list 2056083259 1 2056083265 1 16389 0\nreplies 0\nout 0\nmem 9656e041\n{BLUE}"
    )?;
    for entry in 0..63 {
        push_switch(alloc, &mut report, entry)?;
    }
    report.push_str("switch 63 used 755 pad 1000000 count 51\nend\n")?;
    Ok(report)
}

#[test]
fn counters_have_two_halves(rt: HostRuntime) -> Result<(), Fail> {
    let alloc = rt.alloc();
    let image = image_that_waits(alloc)?;
    let report = report_of_waiting(alloc)?;
    expect(
        &rt,
        alloc,
        "tp run --slots 3201",
        image.as_str(),
        Status::Done,
        report.as_str(),
    )
}

fn have_usage(rt: &impl Abort, alloc: Global, image: &str, lines: &str) -> Result<(), Fail> {
    for line in lines.split('|') {
        expect(rt, alloc, line, image, Status::Usage, USAGE)?;
    }
    Ok(())
}

#[test]
fn other_words_have_the_usage_line(rt: HostRuntime) -> Result<(), Fail> {
    let image = image(rt.alloc(), PRINTS_A, PRINTS_B)?;
    let lines =
        "tp|tp run|tp run --slots 65537|tp fly|tp help|tp run --help|tp check x|tp bound --slots 4|tp alone|tp alone --domain 32 --slots 4";
    have_usage(&rt, rt.alloc(), image.as_str(), lines)
}

// Each read of the sure run, the one that finds the end included, and one more.
fn each_read_fails(rt: &impl Abort, alloc: Global, image: &str) -> Result<(), Fail> {
    let reads = (image.len() as u64).div_ceil(64) + 1;
    for k in 1..=reads {
        expect_failing(rt, alloc, image, &[k], &[], Status::ReadFault, "")?;
    }
    expect_failing(rt, alloc, image, &[reads + 1], &[], Status::Done, REPORT)
}

#[test]
fn every_read_that_fails_is_told(rt: HostRuntime) -> Result<(), Fail> {
    let image = image(rt.alloc(), PRINTS_A, PRINTS_B)?;
    each_read_fails(&rt, rt.alloc(), image.as_str())
}

// The status where the second read fails, and what a further read gives.
fn read_after_a_failure(
    alloc: Global,
    image: &str,
    next: &mut [u8; 64],
) -> Result<(Status, usize), Fail> {
    let words = words_in(alloc, RUN)?;
    let mut source = MemSource::new(alloc, image.as_bytes(), 64, &[2])?;
    let mut sink = MemSink::new(alloc, 16384, 64, &[])?;
    let status = tp_main(alloc, words.as_slice(), &mut source, &mut sink);
    let count = source.read(next)?;
    Ok((status, count))
}

fn is_not_read_on(rt: &impl Abort, alloc: Global, image: &str) -> Result<(), Fail> {
    let mut next = [0u8; 64];
    let found = read_after_a_failure(alloc, image, &mut next)?;
    assert_eq!(rt; found, (Status::ReadFault, 64));
    are_bytes(rt, next.as_slice(), image.as_bytes().get(64..128));
    Ok(())
}

#[test]
fn nothing_is_read_after_a_read_that_failed(rt: HostRuntime) -> Result<(), Fail> {
    let image = image(rt.alloc(), PRINTS_A, PRINTS_B)?;
    is_not_read_on(&rt, rt.alloc(), image.as_str())
}

fn are_bytes(rt: &impl Abort, found: &[u8], wanted: Option<&[u8]>) {
    assert_eq!(rt; Some(found), wanted);
}

fn each_write_fails(rt: &impl Abort, alloc: Global, image: &str) -> Result<(), Fail> {
    let mut text = String::new(alloc);
    let mut k = 0u64;
    for piece in PIECES.split('|') {
        k = k.saturating_add(1);
        let due = if piece.is_empty() {
            Status::Done
        } else {
            Status::WriteFault
        };
        expect_failing(rt, alloc, image, &[], &[k], due, text.as_str())?;
        text.push_str(piece)?;
    }
    is_report(rt, text.as_str());
    Ok(())
}

#[test]
fn every_write_that_fails_is_told(rt: HostRuntime) -> Result<(), Fail> {
    let image = image(rt.alloc(), PRINTS_A, PRINTS_B)?;
    each_write_fails(&rt, rt.alloc(), image.as_str())
}

fn is_report(rt: &impl Abort, text: &str) {
    assert_eq!(rt; text, REPORT);
}

#[test]
fn a_write_of_a_byte_that_fails_is_told(rt: HostRuntime) -> Result<(), Fail> {
    let image = image(rt.alloc(), PRINTS_A, PRINTS_B)?;
    let found = answer(rt.alloc(), RUN, image.as_bytes(), 1, &[], &[5])?;
    is_answered(&rt, RUN, &found, Status::WriteFault, "doma");
    Ok(())
}

#[test]
fn a_long_section_goes_out_by_pieces_of_256_bytes(rt: HostRuntime) -> Result<(), Fail> {
    let image = image(rt.alloc(), PRINTS_TOO_MUCH, PRINTS_B)?;
    let found = answer(rt.alloc(), RUN, image.as_bytes(), usize::MAX, &[], &[3])?;
    assert_eq!(rt; (found.0, found.1.len()), (Status::WriteFault, 512));
    Ok(())
}

// The status of a run with as much room as this.
fn status_with_room(
    alloc: Global,
    words: &[String],
    image: &str,
    room: usize,
) -> Result<Status, Fail> {
    let bytes = Vec::from_slice(alloc, image.as_bytes())?;
    Ok(run_surely(alloc, words, bytes, room)?)
}

// All the room that the text wants, and one byte less.
fn has_room_for(
    rt: &impl Abort,
    alloc: Global,
    words: &[String],
    image: &str,
    text: &str,
) -> Result<(), Fail> {
    let done = status_with_room(alloc, words, image, text.len())?;
    let less = status_with_room(alloc, words, image, text.len().saturating_sub(1))?;
    assert_eq!(rt;
        (done, less),
        (Status::Done, Status::WriteFault),
        "for {text}"
    );
    Ok(())
}

fn has_room(
    rt: &impl Abort,
    alloc: Global,
    line: &str,
    image: &str,
    text: &str,
) -> Result<(), Fail> {
    let words = words_in(alloc, line)?;
    has_room_for(rt, alloc, words.as_slice(), image, text)
}

#[test]
fn a_run_with_room_is_done(rt: HostRuntime) -> Result<(), Fail> {
    let image = image(rt.alloc(), PRINTS_A, PRINTS_B)?;
    has_room(&rt, rt.alloc(), RUN, image.as_str(), REPORT)
}

// The answer to the image with new lines after it up to this size.
fn answer_to_size(alloc: Global, size: usize) -> Result<(Status, Vec<u8>), Fail> {
    let image = image(alloc, PRINTS_A, PRINTS_B)?;
    let mut bytes = Vec::from_slice(alloc, image.as_bytes())?;
    bytes.resize(size, b'\n')?;
    answer(alloc, RUN, bytes.as_slice(), usize::MAX, &[], &[])
}

fn is_run_of_size(
    rt: &impl Abort,
    alloc: Global,
    size: usize,
    due: Status,
    text: &str,
) -> Result<(), Fail> {
    let found = answer_to_size(alloc, size)?;
    is_answered(rt, text, &found, due, text);
    Ok(())
}

#[test]
fn an_image_has_a_greatest_size(rt: HostRuntime) -> Result<(), Fail> {
    let alloc = rt.alloc();
    is_run_of_size(&rt, alloc, 1_048_576, Status::Done, REPORT)?;
    is_run_of_size(&rt, alloc, 1_048_577, Status::TooLong, "too long\n")
}
