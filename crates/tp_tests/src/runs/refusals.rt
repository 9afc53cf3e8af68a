// Images that break a rule.
use super::{MACHINE, PRINTS_A, PRINTS_B, SCHEDULE, domains, expect, image};
use std::alloc::Global;
use std::process::Abort;
use std::test::Fail;
use tp_run::Status;

// The image is refused with this line.
pub fn refused(rt: &impl Abort, alloc: Global, text: &str, line: &str) -> Result<(), Fail> {
    let wanted = format!(in alloc; "refused {line}\n")?;
    expect(
        rt,
        alloc,
        "tp check",
        text,
        Status::Refused,
        wanted.as_str(),
    )
}

// So is the image of two domains, after this line, with one text in the place of
// another. A row of the table has both and the line, a bar between them, and ~ for a
// new line.
fn refuses(rt: &impl Abort, alloc: Global, front: &str, table: &str) -> Result<(), Fail> {
    for row in table.split('\n') {
        refuses_row(rt, alloc, front, row)?;
    }
    Ok(())
}

fn refuses_row(rt: &impl Abort, alloc: Global, front: &str, row: &str) -> Result<(), Fail> {
    let (old, rest) = row.split_once('|').unwrap_or((row, ""));
    let (new, line) = rest.split_once('|').unwrap_or((rest, ""));
    let text = with_change(alloc, front, old, new)?;
    refused(rt, alloc, text.as_str(), line)
}

// The image of two domains, after this line, with one text in the place of another, which both have ~
// for a new line.
fn with_change(alloc: Global, front: &str, old: &str, new: &str) -> Result<String, Fail> {
    let old = old.replace(alloc, "~", "\n")?;
    let new = new.replace(alloc, "~", "\n")?;
    let broken = image(alloc, PRINTS_A, PRINTS_B)?.replace(alloc, old.as_str(), new.as_str())?;
    Ok(format!(in alloc; "{front}{broken}")?)
}

fn refuses_all(rt: &impl Abort, alloc: Global, front: &str, tables: &[&str]) -> Result<(), Fail> {
    for table in tables {
        refuses(rt, alloc, front, table)?;
    }
    Ok(())
}

// The text itself, and the keys of its tables: a row of the key table each.
const KEYS: &str = "frames = 64|frames = |K1 at 0 found 0 wanted 0
frames = 64~||K2 at 1 found 0 wanted 0
shared = 512|shared = true|K2 at 2 found 0 wanted 0
line = 64~||K2 at 3 found 0 wanted 0
l1i = {|l1i = 1~x = {|K2 at 4 found 0 wanted 0
l1d = { sets = 16, |l1d = { |K2 at 5 found 0 wanted 0
l2 = { sets = 256|l2 = { sets = 25.6|K2 at 6 found 0 wanted 0
4, ways = 2, policy = \"lru\"|4, ways = 2, policy = 1|K2 at 7 found 0 wanted 0
predictor = 16|predictor = \"16\"|K2 at 8 found 0 wanted 0
, flush = 20||K2 at 9 found 0 wanted 0
[[domain]]|[[domains]]|K2 at 10 found 0 wanted 0
[[schedule]]|[[schedules]]|K2 at 22 found 0 wanted 0
frames = 64|frames = 64~x = 1|K2 at 26 found 0 wanted 0";

// The keys of domains, segments and entries. The second domain or entry breaks
// the row, and not the first.
const KEYS_OF_ITEMS: &str = "name = \"blue\"|name = 1|K2 at 11 found 1 wanted 0
colours = [2]|colours = 2|K2 at 12 found 1 wanted 0
[2]~entry = 0x10000|[2]~entry = -4|K2 at 13 found 1 wanted 0
segment = [|segment = []~x = [|K2 at 14 found 0 wanted 0
page = 16|page = 1048576|K2 at 15 found 0 wanted 0
pages = 1|pages = 65|K2 at 16 found 0 wanted 0
rights = \"rx\"|rights = 5|K2 at 17 found 0 wanted 0
hex = \"13052|hex = 13052 # |K1 at 0 found 0 wanted 0
hex = |text = |K2 at 18 found 0 wanted 0
colours = [2]|colours = [2]~caps = [3]|K2 at 19 found 1 wanted 0
colours = [2]|colours = [2]~lines = 3|K2 at 20 found 1 wanted 0
colours = [2]|colours = [2]~moments = [[9000]]|K2 at 21 found 1 wanted 0
domain = 1|domain = \"blue\"|K2 at 23 found 1 wanted 0
1~length = 10000|1|K2 at 24 found 1 wanted 0
1~length = 10000~pad = 6150|1~length = 10000|K2 at 25 found 1 wanted 0";

// In the first version it is an unknown key.
const CALLS_OF_THE_FIRST: &str = "colours = [2]|colours = [2]~calls = [0]|K2 at 26 found 0 wanted 0
colours = [2]|colours = [2]~calls = 3|K2 at 26 found 0 wanted 0";

// Numbers, names and the schedule, a case each.
const VALUES: &str = "frames = 64|frames = 63|K4 at 0 found 63 wanted 64
frames = 64|frames = 9223372036854775807|K4 at 0 found 9223372036854775807 wanted 4096
frames = 64|frames = -9223372036854775808|K4 at 0 found -9223372036854775808 wanted 64
name = \"red\"|name = \"Red\"|K7 at 0 found 3 wanted 16
name = \"blue\"|name = \"red\"|K7 at 1 found 0 wanted 0
domain = 1|domain = 2|K16 at 1 found 2 wanted 2
1~length = 10000|1~length = 999|K16 at 1 found 999 wanted 3
1~length = 10000~pad = 6150|1~length = 10000~pad = -1|K16 at 1 found -1 wanted 4";

// The machine and its colours, a rule or two each.
const GEOMETRY: &str = "line = 64|line = 48|K3 at 1 found 48 wanted 1
sets = 256|sets = 4611686018427387904|K3 at 4 found 4611686018427387904 wanted 1
sets = 256|sets = 64|K5 at 0 found 1 wanted 2
base = 1|base = 0|K6 at 1 found 0 wanted 1
flush = 20|flush = 1001|K6 at 9 found 1001 wanted 1000
colours = [2]|colours = [0]|K8 at 1 found 0 wanted 4
colours = [1]|colours = [2]|K9 at 1 found 2 wanted 0
pages = 1|pages = 12|K10 at 0 found 16 wanted 18
shared = 512|shared = 9223372036854775807|K11 at 1 found 9223372036854775807 wanted 65536
shared = 512|shared = 20480|K11 at 2 found 5 wanted 4";

// Segments, a case each; the next two are of the entry. Of the last four each
// breaks two cases at once, and the first is named.
const SEGMENTS: &str = "page = 16, pages = 1|page = 1048575, pages = 2|K12 at 0 found 0 wanted 1
rights = \"rx\"|rights = \"xr\"|K12 at 0 found 0 wanted 2
hex = \"13052|hex = \"3052|K12 at 1 found 0 wanted 3
segment = [|segment = [{ page = 15, pages = 2, rights = \"r\", hex = \"\" }, |K12 at 0 found 1 wanted 5
entry = 0x10000|entry = 0x10002|K12 at 0 found 65538 wanted 6
rights = \"rx\"|rights = \"rw\"|K12 at 0 found 65536 wanted 6
page = 16, pages = 1, rights = \"rx\"|page = 1048575, pages = 2, rights = \"xr\"|K12 at 0 found 0 wanted 1
rights = \"rx\", hex = \"1305|rights = \"xr\", hex = \"305|K12 at 0 found 0 wanted 2
segment = [{ page = 16, pages = 1, rights = \"rx\", hex = \"1305|segment = [{ page = 15, pages = 2, rights = \"r\", hex = \"\" }, { page = 16, pages = 1, rights = \"rx\", hex = \"305|K12 at 0 found 1 wanted 3
entry = 0x10000~segment = [{ page = 16, pages = 1|entry = 0x10002~segment = [{ page = 15, pages = 2, rights = \"r\", hex = \"\" }, { page = 16, pages = 1|K12 at 0 found 1 wanted 5";

// Red's capabilities, a case each but the first.
const CAPS: &str = "[1]|[1]~caps = [\"page 016\"]|K13 at 0 found 0 wanted 2
[1]|[1]~caps = [\"page 17\"]|K13 at 0 found 0 wanted 3
[1]|[1]~caps = [\"irq 3\"]|K13 at 0 found 0 wanted 4
[1]|[1]~caps = [\"none\", \"page 16\", \"page 16\"]|K13 at 0 found 2 wanted 5";

// The key of the second version and its range, in the second domain; a limit; and what is
// as in the first.
const CALLS: &str = "colours = [2]|colours = [2]~calls = 3|K2 at 29 found 1 wanted 0
colours = [2]|colours = [2]~calls = [true]|K2 at 29 found 1 wanted 0
colours = [2]|colours = [2]~calls = [15]|K18 at 1 found 0 wanted 14
colours = [2]|colours = [2]~calls = [-1]|K18 at 1 found 0 wanted 14
colours = [2]|colours = [2]~calls = [1, 0]|K18 at 1 found 1 wanted 14
colours = [2]|colours = [2]~calls = [1, 1]|K18 at 1 found 1 wanted 14
frames = 64|frames = 16385|K4 at 0 found 16385 wanted 16384
frames = 64|frames = 63|K4 at 0 found 63 wanted 64
name = \"red\"|name = \"Red\"|K7 at 0 found 3 wanted 16
domain = 1|domain = 2|K16 at 1 found 2 wanted 2";

// A version that there isn't knows each key; what no version knows is named before it.
const VERSION: &str = "frames = 64|frames = 64|K2 at 28 found 0 wanted 0
frames = 64|frames = 64~x = 1|K2 at 26 found 0 wanted 0
colours = [2]|colours = [2]~calls = [1, 0]|K2 at 28 found 0 wanted 0
colours = [2]|colours = [2]~calls = 3|K2 at 28 found 0 wanted 0";

// Of two rows that are broken the first is named.
const CALLS_BEFORE_HISTORY: &str = "colours = [2]|colours = [2]~calls = 3|K2 at 29 found 1 wanted 0
colours = [2]|colours = [2]~calls = [1, 0]|K2 at 30 found 0 wanted 0
colours = [2]|colours = 2~calls = 3|K2 at 12 found 1 wanted 0";

const OF_NO_VERSION: [&str; 6] = [KEYS, KEYS_OF_ITEMS, VALUES, GEOMETRY, SEGMENTS, CAPS];

const OF_THE_SECOND: [&str; 5] = [KEYS, KEYS_OF_ITEMS, SEGMENTS, CAPS, CALLS];

#[test]
fn images_that_break_a_rule_are_refused(rt: HostRuntime) -> Result<(), Fail> {
    let alloc = rt.alloc();
    refuses_all(&rt, alloc, "", &OF_NO_VERSION)?;
    refuses_all(&rt, alloc, "version = 2\n", &OF_THE_SECOND)?;
    let front = "version = 2\nhistory = true\n";
    refuses(&rt, alloc, front, CALLS_BEFORE_HISTORY)?;
    for front in &["", "version = 1\n"] {
        refuses(&rt, alloc, front, CALLS_OF_THE_FIRST)?;
    }
    for front in &["version = 0\n", "version = 3\n", "version = true\n"] {
        refuses(&rt, alloc, front, VERSION)?;
    }
    Ok(())
}

fn without_domains(alloc: Global) -> Result<String, Fail> {
    Ok(format!(in alloc; "{MACHINE}domain = []\n{SCHEDULE}")?)
}

fn without_entries(alloc: Global) -> Result<String, Fail> {
    let two = domains(alloc, PRINTS_A, PRINTS_B)?;
    Ok(format!(in alloc; "{MACHINE}schedule = []\n{two}")?)
}

// Both domains have a colour, and the second the kernel's, too: the rule of the
// kernel's colour comes first.
fn a_kernel_colour_beside_a_shared_one(alloc: Global) -> Result<String, Fail> {
    let with_kernel = image(alloc, PRINTS_A, PRINTS_B)?.replace(alloc, "[2]", "[2, 0]")?;
    Ok(with_kernel.replace(alloc, "[1]", "[2]")?)
}

// More bytes than a page holds.
fn too_full(alloc: Global) -> Result<String, Fail> {
    let page = "00".repeat(alloc, 4097)?;
    image(alloc, PRINTS_A, page.as_str())
}

// A capability too many.
fn too_many_caps(alloc: Global) -> Result<String, Fail> {
    let nones = "\"none\", ".repeat(alloc, 65)?;
    let caps = format!(in alloc; "[1]\ncaps = [{nones}]")?;
    Ok(image(alloc, PRINTS_A, PRINTS_B)?.replace(alloc, "[1]", caps.as_str())?)
}

fn refuses_made(
    rt: &impl Abort,
    alloc: Global,
    made: Result<String, Fail>,
    line: &str,
) -> Result<(), Fail> {
    refused(rt, alloc, made?.as_str(), line)
}

#[test]
fn images_that_lack_something_or_have_too_much_are_refused(rt: HostRuntime) -> Result<(), Fail> {
    let alloc = rt.alloc();
    refused(&rt, alloc, "", "K2 at 1 found 0 wanted 0")?;
    refuses_made(
        &rt,
        alloc,
        without_domains(alloc),
        "K7 at 16 found 0 wanted 16",
    )?;
    refuses_made(
        &rt,
        alloc,
        without_entries(alloc),
        "K16 at 0 found 0 wanted 1",
    )?;
    refuses_made(
        &rt,
        alloc,
        a_kernel_colour_beside_a_shared_one(alloc),
        "K8 at 1 found 0 wanted 4",
    )?;
    refuses_made(&rt, alloc, too_full(alloc), "K12 at 1 found 0 wanted 4")?;
    refuses_made(
        &rt,
        alloc,
        too_many_caps(alloc),
        "K13 at 0 found 65 wanted 1",
    )
}
