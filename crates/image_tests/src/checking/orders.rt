// Images of which two cases of a rule are broken, mostly each at another place. Places go first
// (parts, costs, domains, entries, items of a list), then cases.
use super::{IMAGE, NARROW, are_named};
use image_check::CheckRefusal;

// K3 part by part, K6 cost by cost.
const OF_THE_MACHINE: &str = r#"l1i = { sets = 16, ways = 2 => l1i = { sets = 16, ways = 17
l1d = { sets = 16 => l1d = { sets = 3
K3 at 2 found 17 wanted 2
l1d = { sets = 16, ways = 2, policy = "lru" => l1d = { sets = 16, ways = 2, policy = "x"
tlb = { sets = 4 => tlb = { sets = 3
K3 at 3 found 2 wanted 3
ways = 4, policy = "lru" => ways = 3, policy = "plru"
tlb = { sets = 4, ways = 2 => tlb = { sets = 4, ways = 0
K3 at 4 found 3 wanted 4
tlb = { sets = 4, ways = 2 => tlb = { sets = 4, ways = 0
predictor = 16 => predictor = 0
K3 at 5 found 0 wanted 2
l1i = { sets = 16, ways = 2, policy = "lru" => l1i = { sets = 16, ways = 17, policy = "plru"
K3 at 2 found 17 wanted 2
base = 1, => base = 1001,
flush = 20 => flush = 0
K6 at 1 found 1001 wanted 1000
base = 1, => base = 0,
flush = 20 => flush = 1001
K6 at 1 found 0 wanted 1
shared = 512 => shared = 20500
K11 at 1 found 20500 wanted 65536"#;

// K11 case by case: the third is broken; all three, the first and the third, the second and the
// third.
const OF_THE_REGION: &str = "K11 at 3 found 64 wanted 64
shared = 8256 => shared = 20500
K11 at 1 found 20500 wanted 65536
shared = 8256 => shared = 8257
K11 at 1 found 8257 wanted 65536
shared = 8256 => shared = 16448
K11 at 2 found 5 wanted 4";

// K7: of three domains the third has the first one's name, and the second's is none; and the other
// way round. K8: domain by domain, colour by colour.
const OF_DOMAINS: &str = r#""blue" => "Bad"
[[schedule]] => [[domain]]~name = "red"~colours = [3]~entry = 0~segment = [{ THE_CODE }]~[[schedule]]
THE_CODE => page = 0, pages = 1, rights = "x", hex = ""
K7 at 1 found 3 wanted 16
"blue" => "red"
[[schedule]] => [[domain]]~name = "Bad"~colours = [3]~entry = 0~segment = [{ THE_CODE }]~[[schedule]]
THE_CODE => page = 0, pages = 1, rights = "x", hex = ""
K7 at 1 found 0 wanted 0
colours = [2] => colours = [2, 2, 4]
K8 at 1 found 2 wanted 4
colours = [1] => colours = [1, 1]
colours = [2] => colours = [0]
K8 at 0 found 1 wanted 4"#;

// K12: segment by segment, and the entry before the next domain; more bytes than the pages hold,
// which are pages of an earlier segment; all rights, also of the entry's page, and no others.
const OF_SEGMENTS: &str = r#"page = 32, pages = 3 => page = 16, pages = 1
}]~lines => }, { page = 1048575, pages = 2, rights = "r", hex = "" }]~lines
K12 at 1 found 1 wanted 5
"6f000000" => "6f00000"
"rw" => "w"
K12 at 1 found 0 wanted 3
entry = 0x10000 => entry = 2
16, pages = 1, rights = "rx", hex = "6f => 1048575, pages = 2, rights = "rx", hex = "6f
K12 at 0 found 2 wanted 6
page = 32, pages = 3, rights = "rw", hex = " => page = 16, pages = 1, rights = "rw", hex = "aa
aa => aa * 4097
K12 at 1 found 1 wanted 4
page = 32, pages = 3, rights = "rw", hex = " => page = 16, pages = 1, rights = "rw", hex = "aa
aa => aa * 4096
K12 at 1 found 1 wanted 5
"rx" => "rwx"
"rw" => "rwx"
accepted
"rw" => "wx"
K12 at 1 found 1 wanted 2"#;

// K13 slot by slot, domain by domain.
const OF_SLOTS: &str = r#""none", "irq 3" => "page 16", ""
K13 at 1 found 1 wanted 5
page 16 => irq 4
irq 3 => page 17
K13 at 1 found 0 wanted 4
colours = [1] => colours = [1]~caps = [""]
"none",  => "none",  * 62
K13 at 0 found 0 wanted 2"#;

// K14 domain by domain; K15 moment by moment, domain by domain.
const OF_INTERRUPTS: &str = "colours = [1] => colours = [1]~lines = [4, 4]
lines = [7, 3] => lines = [7, 3, 40]
K14 at 0 found 4 wanted 0
[9000, 7] => [8999, 3], [-1, 3]
K15 at 1 found 1 wanted 4
[9000, 3] => [9000, 8]
[9000, 7] => [-1, 7]
K15 at 1 found 0 wanted 3
colours = [1] => colours = [1]~lines = [9]~moments = [[5, 9], [5, 9]]
[9000, 3],  => [9000, 3],  * 1024
K15 at 0 found 1 wanted 4";

// K16 entry by entry. K17 of a line of 128 bytes, of which a frame has 32.
const OF_ENTRIES: &str = "pad = 6150 => pad = -1
domain = 1 => domain = 2
K16 at 0 found -1 wanted 4
length = 10000 => length = 999
domain = 1 => domain = 2
K16 at 0 found 999 wanted 3
frames = 64~shared = 512~line = 64 => frames = 128~shared = 512~line = 128
pad = 6150 => pad = 5854
K17 at 0 found 5854 wanted 5855
frames = 64~shared = 512~line = 64 => frames = 128~shared = 512~line = 128
pad = 6150 => pad = 5855
accepted";

const OF_THE_IMAGE: [&str; 6] = [
    OF_THE_MACHINE,
    OF_DOMAINS,
    OF_SEGMENTS,
    OF_SLOTS,
    OF_INTERRUPTS,
    OF_ENTRIES,
];

#[test]
fn the_first_broken_place_is_named(rt: HostRuntime) -> Result<(), CheckRefusal> {
    are_named(&rt, rt.alloc(), NARROW, &[OF_THE_REGION])?;
    are_named(&rt, rt.alloc(), IMAGE, &OF_THE_IMAGE)
}
