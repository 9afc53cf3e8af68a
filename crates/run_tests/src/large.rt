// The most that an image has, with ample memory.
use crate::answers::{MACHINE, PRINTS_A, USAGE, answer, expect, tells};
use crate::calls::{TEN_FRAMES, TEN_REPLIES};
use std::alloc::Global;
use std::test::Fail;
use tp_run::Status;

// 16 segments, of which the first prints A.
fn many_segments(alloc: Global) -> Result<String, Fail> {
    let mut segments = format!(in alloc;
        "{{ page = 16, pages = 1, rights = \"rx\", hex = \"{PRINTS_A}\" }}"
    )?;
    for page in 17..32 {
        let segment = format!(in alloc;
            ", {{ page = {page}, pages = 1, rights = \"rw\", hex = \"\" }}"
        )?;
        segments.push_str(segment.as_str())?;
    }
    Ok(segments)
}

// So many domains with these segments, and with these further keys.
fn many_domains(alloc: Global, count: u32, keys: &str, segments: &str) -> Result<String, Fail> {
    let mut domains = String::new(alloc);
    for colour in 1..=count {
        let domain = format!(in alloc;
            "[[domain]]\nname = \"d{colour}\"\n{keys}colours = [{colour}]\nentry = 0x10000\nsegment = [{segments}]\n"
        )?;
        domains.push_str(domain.as_str())?;
    }
    Ok(domains)
}

// So many entries with this pad of each of so many domains, one after the other.
fn many_entries(alloc: Global, domains: u32, pad: u32, times: usize) -> Result<String, Fail> {
    let mut entries = String::new(alloc);
    for domain in 0..domains {
        let entry = format!(in alloc;
            "[[schedule]]\ndomain = {domain}\nlength = 10000\npad = {pad}\n"
        )?;
        entries.push_str(entry.as_str())?;
    }
    Ok(entries.repeat(alloc, times)?)
}

// 16 domains and 64 entries, the most of the first version.
fn large_image(alloc: Global) -> Result<String, Fail> {
    let machine = MACHINE
        .replace(alloc, "frames = 64", "frames = 1024")?
        .replace(alloc, "sets = 256", "sets = 2048")?;
    let segments = many_segments(alloc)?;
    let domains = many_domains(alloc, 16, "", segments.as_str())?;
    let entries = many_entries(alloc, 16, 6150, 4)?;
    Ok(format!(in alloc; "{machine}{domains}{entries}")?)
}

// 16,384 frames of 64 colours, the most of the second version.
fn larger_machine(alloc: Global) -> Result<String, Fail> {
    Ok(
        MACHINE
            .replace(alloc, "frames = 64", "version = 2\nframes = 16384")?
            .replace(alloc, "sets = 256", "sets = 4096")?,
    )
}

// So are 32 domains, that may make few calls, and 256 entries.
fn larger_image(alloc: Global) -> Result<String, Fail> {
    let machine = larger_machine(alloc)?;
    let segments = many_segments(alloc)?;
    let domains = many_domains(alloc, 32, "calls = [0, 1]\n", segments.as_str())?;
    let entries = many_entries(alloc, 32, 2374, 8)?;
    Ok(format!(in alloc; "{machine}{domains}{entries}")?)
}

fn status_of(alloc: Global, line: &str, image: &str) -> Result<Status, Fail> {
    let (status, _) = answer(alloc, line, image)?;
    Ok(status)
}

#[test]
fn a_large_image_is_run_for_any_number_of_slots(rt: HostRuntime) -> Result<(), Fail> {
    let alloc = rt.alloc();
    let image = large_image(alloc)?;
    for slots in "0 1 2 3 15 16 17 63 64 65 130 1000".split(' ') {
        let line = format!(in alloc; "tp run --slots {slots}")?;
        let status = status_of(alloc, line.as_str(), image.as_str())?;
        assert_eq!(rt; status, Status::Done, "at {slots}");
    }
    Ok(())
}

#[test]
fn the_second_version_has_more_of_all(rt: HostRuntime) -> Result<(), Fail> {
    let alloc = rt.alloc();
    let image = larger_image(alloc)?;
    for slots in "0 1 32 33 255 256 257 600".split(' ') {
        let line = format!(in alloc; "tp run --slots {slots}")?;
        let status = status_of(alloc, line.as_str(), image.as_str())?;
        assert_eq!(rt; status, Status::Done, "at {slots}");
    }
    for line in ["tp run --slots 256", "tp alone --domain 31 --slots 256"] {
        tells(&rt, alloc, line, image.as_str(), LAST_OF_32)?;
    }
    let last = "switch 255 used 755 pad 2374 count 1\nend\n";
    tells(&rt, alloc, "tp run --slots 256", image.as_str(), last)?;
    let next = "tp alone --domain 32 --slots 256";
    expect(&rt, alloc, next, image.as_str(), Status::Usage, USAGE)
}

// It prints A and exits, in its first slot: in the machine and alone.
const LAST_OF_32: &str =
    "domain 31 d32\nstatus exited 0\nretired 3\nthread 0 ended pc 00010010\nreadings 0\nreplies 1 last 0:0 list 0:0\nout 1 41\n";

// One more of each, the first version, and a last domain that breaks a rule: what stands first in the
// larger image, what stands there in its place, and the refusal, with a bar between and ~ for a new line.
const BROKEN: &str = "frames = 16384|frames = 16385|K4 at 0 found 16385 wanted 16384
[[schedule]]~domain = 0~length|[[domain]]~name = \"e\"~colours = [33]~entry = 0x10000~segment = [{ page = 16, pages = 1, rights = \"rx\", hex = \"\" }]~[[schedule]]~domain = 0~length|K7 at 32 found 33 wanted 32
[[schedule]]~domain = 0~length|[[schedule]]~domain = 1~length = 10000~pad = 2374~[[schedule]]~domain = 0~length|K16 at 0 found 257 wanted 1
version = 2|version = 1|K2 at 26 found 0 wanted 0
name = \"d32\"|name = \"d16\"|K7 at 31 found 15 wanted 0
colours = [32]|colours = [16]|K9 at 31 found 16 wanted 15
domain = 31|domain = 32|K16 at 31 found 32 wanted 2
name = \"d32\"~calls = [0, 1]|name = \"d32\"~calls = [0, 1, 0]|K18 at 31 found 2 wanted 14";

#[test]
fn more_than_the_second_version_has_is_refused(rt: HostRuntime) -> Result<(), Fail> {
    let alloc = rt.alloc();
    let image = larger_image(alloc)?;
    for row in BROKEN.split('\n') {
        let row = row.replace(alloc, "~", "\n")?;
        let mut fields = row.split('|');
        let old = fields.next().unwrap_or("");
        let new = fields.next().unwrap_or("");
        let line = format!(in alloc; "refused {}\n", fields.next().unwrap_or(""))?;
        let more = image.replacen(alloc, old, new, 1)?;
        expect(
            &rt,
            alloc,
            "tp check",
            more.as_str(),
            Status::Refused,
            line.as_str(),
        )?;
    }
    Ok(())
}

// It stores in the last of 240 pages, whose frame is 15,745, and loads from it; what follows is
// TEN_FRAMES, for which nine of the domain's 256 frames are left.
//
//     lui x8, 0x10f; addi x9, x0, 7; sw x9, 0(x8); lw x18, 0(x8)
const FAR_PAGE: &str = "37f41000930470002320940003290400";

#[test]
fn frames_past_those_of_the_first_version_are_used(rt: HostRuntime) -> Result<(), Fail> {
    let alloc = rt.alloc();
    let machine = larger_machine(alloc)?;
    let mut segments = format!(in alloc;
        "{{ page = 16, pages = 1, rights = \"rx\", hex = \"{FAR_PAGE}{TEN_FRAMES}\" }}"
    )?;
    for page in [32, 92, 152, 212] {
        let segment = format!(in alloc;
            ", {{ page = {page}, pages = 60, rights = \"rw\", hex = \"\" }}"
        )?;
        segments.push_str(segment.as_str())?;
    }
    let domain = many_domains(alloc, 1, "", segments.as_str())?;
    let entry = many_entries(alloc, 1, 6150, 1)?;
    let image = format!(in alloc; "{machine}{domain}{entry}")?;
    let line = "tp run --slots 16";
    tells(&rt, alloc, line, image.as_str(), " x18=00000007\n")?;
    tells(&rt, alloc, line, image.as_str(), TEN_REPLIES)
}

// The last of 16 domains has 1,024 moments, of which none comes.
fn with_moments(alloc: Global) -> Result<String, Fail> {
    let mut moments = String::new(alloc);
    for k in 0..1024 {
        let moment = format!(in alloc; "[{}, 3], ", 1_000_000_000 + k)?;
        moments.push_str(moment.as_str())?;
    }
    let named = format!(in alloc; "name = \"d16\"\nlines = [3]\nmoments = [{moments}]")?;
    Ok(large_image(alloc)?.replace(alloc, "name = \"d16\"", named.as_str())?)
}

// It prints A and exits, in its first slot: in the machine and alone.
const LAST_DOMAIN: &str =
    "domain 15 d16\nstatus exited 0\nretired 3\nthread 0 ended pc 00010010\nreadings 0\nreplies 1 last 0:0 list 0:0\nout 1 41\n";

#[test]
fn the_last_of_many_domains_has_many_moments(rt: HostRuntime) -> Result<(), Fail> {
    let alloc = rt.alloc();
    let image = with_moments(alloc)?;
    for line in ["tp run --slots 16", "tp alone --domain 15 --slots 16"] {
        tells(&rt, alloc, line, image.as_str(), LAST_DOMAIN)?;
    }
    Ok(())
}
