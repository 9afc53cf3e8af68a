// One place of the image changed, case by case, and the first rule that is broken then.
use super::{IMAGE, are_named};
use image_check::CheckRefusal;

// K3 to K6: the parts of the machine, frames, colours, costs.
const OF_PARTS: &str = r#"# K3: the line, which decides the colours, too
line = 64 => line = 48
K3 at 1 found 48 wanted 1
line = 64 => line = 8
K3 at 1 found 8 wanted 1
line = 64 => line = 256
K3 at 1 found 256 wanted 1
line = 64 => line = -64
K3 at 1 found -64 wanted 1
line = 64 => line = 16
K5 at 0 found 1 wanted 2
line = 64 => line = 128
K10 at 1 found 8 wanted 10
# K3: caches, buffer, predictor
l1i = { sets = 16 => l1i = { sets = 0
K3 at 2 found 0 wanted 1
l1i = { sets = 16 => l1i = { sets = 1024
accepted
l1i = { sets = 16 => l1i = { sets = 2048
K3 at 2 found 2048 wanted 1
l1i = { sets = 16, ways = 2, policy = "lru" => l1i = { sets = 3, ways = 0, policy = "rlu"
K3 at 2 found 3 wanted 1
l1i = { sets = 16, ways = 2, policy = "lru" => l1i = { sets = 1, ways = 0, policy = "rlu"
K3 at 2 found 0 wanted 2
l1d = { sets = 16, ways = 2 => l1d = { sets = 1, ways = 16
accepted
l1d = { sets = 16, ways = 2 => l1d = { sets = 16, ways = 17
K3 at 3 found 17 wanted 2
l1d = { sets = 16 => l1d = { sets = 2048
K3 at 3 found 2048 wanted 1
l2 = { sets = 256 => l2 = { sets = 4611686018427387904
K3 at 4 found 4611686018427387904 wanted 1
l2 = { sets = 256 => l2 = { sets = 32768
K3 at 4 found 32768 wanted 1
l2 = { sets = 256, ways = 4, policy = "lru" => l2 = { sets = 256, ways = 4, policy = "LRU"
K3 at 4 found 4 wanted 3
l2 = { sets = 256, ways = 4, policy = "lru" => l2 = { sets = 256, ways = 4, policy = "nmr"
K3 at 4 found 4 wanted 3
l2 = { sets = 256, ways = 4, policy = "lru" => l2 = { sets = 256, ways = 3, policy = "fifo"
accepted
l2 = { sets = 256, ways = 4, policy = "lru" => l2 = { sets = 256, ways = 3, policy = "nmru"
accepted
tlb = { sets = 4, ways = 2, policy = "lru" => tlb = { sets = 512, ways = 3, policy = "plru"
K3 at 5 found 512 wanted 1
tlb = { sets = 4, ways = 2, policy = "lru" => tlb = { sets = 256, ways = 3, policy = "plru"
K3 at 5 found 3 wanted 4
tlb = { sets = 4, ways = 2, policy = "lru" => tlb = { sets = 256, ways = 16, policy = "plru"
accepted
predictor = 16 => predictor = 4096
accepted
predictor = 16 => predictor = 8192
K3 at 6 found 8192 wanted 1
predictor = 16 => predictor = -9223372036854775808
K3 at 6 found -9223372036854775808 wanted 1
frames = 64~shared = 512~line = 64 => frames = 63~shared = 0~line = 48
K3 at 1 found 48 wanted 1
# K4
frames = 64 => frames = 63
K4 at 0 found 63 wanted 64
frames = 64 => frames = 4096
accepted
frames = 64 => frames = 4097
K4 at 0 found 4097 wanted 4096
frames = 64 => frames = -1
K4 at 0 found -1 wanted 64
frames = 64 => frames = 9223372036854775807
K4 at 0 found 9223372036854775807 wanted 4096
# K5
l2 = { sets = 256 => l2 = { sets = 64
K5 at 0 found 1 wanted 2
l2 = { sets = 256 => l2 = { sets = 128
K8 at 1 found 2 wanted 2
l2 = { sets = 256 => l2 = { sets = 4096
K10 at 0 found 1 wanted 7
l2 = { sets = 256 => l2 = { sets = 8192
K5 at 0 found 128 wanted 64
l2 = { sets = 256 => l2 = { sets = 16384
K5 at 0 found 256 wanted 64
# K6: one place after the other
base = 1 => base = 0
K6 at 1 found 0 wanted 1
l1 = 1, => l1 = 1001,
K6 at 2 found 1001 wanted 1000
l2 = 8, => l2 = -8,
K6 at 3 found -8 wanted 1
mem = 40 => mem = 9223372036854775807
K6 at 4 found 9223372036854775807 wanted 1000
wb = 10 => wb = 0
K6 at 5 found 0 wanted 1
tlb = 1, => tlb = 1001,
K6 at 6 found 1001 wanted 1000
mispredict = 3 => mispredict = 0
K6 at 7 found 0 wanted 1
trap = 10 => trap = -9223372036854775808
K6 at 8 found -9223372036854775808 wanted 1
flush = 20 => flush = 1001
K6 at 9 found 1001 wanted 1000
flush = 20 => flush = 1000
K17 at 0 found 6150 wanted 7130"#;

// K7 to K9.
const OF_NAMES_AND_COLOURS: &str = r#"# K7
[[schedule]] => MORE[[schedule]]
MORE => [[domain]]~name = "c"~colours = [2]~entry = 0~segment = [{ page = 0, pages = 1, rights = "x", hex = "" }]~ * 15
K7 at 16 found 17 wanted 16
[[schedule]] => MORE[[schedule]]
MORE => [[domain]]~name = "c"~colours = [2]~entry = 0~segment = [{ page = 0, pages = 1, rights = "x", hex = "" }]~ * 14
K7 at 3 found 2 wanted 0
"red" => ""
K7 at 0 found 0 wanted 16
"blue" => "abcdefghijklmnopq"
K7 at 1 found 17 wanted 16
"blue" => "abcdefghijklmnop"
accepted
"blue" => "z9"
accepted
"blue" => "Red"
K7 at 1 found 3 wanted 16
"blue" => "red"
K7 at 1 found 0 wanted 0
# K8
colours = [2] => colours = [0]
K8 at 1 found 0 wanted 4
colours = [2] => colours = [3, 2]
accepted
colours = [2] => colours = [2, 4]
K8 at 1 found 4 wanted 4
colours = [2] => colours = [2, 3, 2]
K8 at 1 found 2 wanted 4
colours = [2] => colours = [-2]
K8 at 1 found -2 wanted 4
colours = [2] => colours = [9223372036854775807]
K8 at 1 found 9223372036854775807 wanted 4
# K9; a colour of the kernel in the same list comes first
colours = [1] => colours = [2]
K9 at 1 found 2 wanted 0
colours = [2] => colours = [3, 1, 2]
K9 at 1 found 1 wanted 0
colours = [2] => colours = [2, 0]
colours = [1] => colours = [2]
K8 at 1 found 0 wanted 4"#;

// K10, K11.
const OF_FRAMES: &str = "# K10: pages, regions of pages, and a region past the last page
page = 16, pages = 1, => page = 16, pages = 12,
K10 at 0 found 16 wanted 18
page = 16, pages = 1, => page = 16, pages = 11,
K10 at 0 found 16 wanted 17
page = 16, pages = 1, => page = 16, pages = 10,
accepted
page = 16, pages = 1, => page = 1020, pages = 10,
K10 at 0 found 16 wanted 17
page = 16, pages = 1, => page = 1020, pages = 9,
K12 at 0 found 65536 wanted 6
page = 16, pages = 1, => page = 1048575, pages = 10,
K10 at 0 found 16 wanted 17
page = 16, pages = 1, => page = 1048575, pages = 9,
K12 at 0 found 0 wanted 1
colours = [2] => colours = []
K10 at 1 found 0 wanted 10
# K11
shared = 512 => shared = 20480
K11 at 2 found 5 wanted 4
shared = 512 => shared = 16384
K17 at 0 found 6150 wanted 20782
shared = 512 => shared = 64
accepted
shared = 512 => shared = 500
K11 at 1 found 500 wanted 65536
shared = 512 => shared = 0
K11 at 1 found 0 wanted 65536
shared = 512 => shared = -512
K11 at 1 found -512 wanted 65536
shared = 512 => shared = 65536
K11 at 2 found 16 wanted 4
shared = 512 => shared = 65600
K11 at 1 found 65600 wanted 65536
shared = 512 => shared = 9223372036854775807
K11 at 1 found 9223372036854775807 wanted 65536";

// K12.
const OF_SEGMENTS: &str = r#"# K12, cases 1 to 5
page = 16, pages = 1, rights = "rx", hex = "6f000000" => page = 1048575, pages = 2, rights = "rx", hex = ""
K12 at 1 found 0 wanted 1
page = 32, pages = 3 => page = 1048575, pages = 1
accepted
"rw" => "w"
K12 at 1 found 1 wanted 2
"6f000000" => "6f00000"
K12 at 1 found 0 wanted 3
1300FF => 13 * 4097
K12 at 0 found 0 wanted 4
1300FF => 13 * 4096
accepted
page = 32 => page = 16
K12 at 1 found 1 wanted 5
page = 32 => page = 14
K12 at 1 found 1 wanted 5
page = 32 => page = 13
accepted
page = 32 => page = 17
accepted
# K12, two cases of one segment
page = 16, pages = 1, rights = "rx", hex = "1300FF" => page = 1048575, pages = 2, rights = "w", hex = "1"
K12 at 0 found 0 wanted 1
page = 16, pages = 1, rights = "rx", hex = "1300FF" => page = 16, pages = 1, rights = "w", hex = "1"
K12 at 0 found 0 wanted 2
page = 32, pages = 3, rights = "rw", hex = "" => page = 16, pages = 1, rights = "rw", hex = "1"
K12 at 1 found 1 wanted 3
# K12, case 6
page = 16, pages = 1, rights = "rx", hex = "1300FF" => page = 16, pages = 1, rights = "rw", hex = ""
K12 at 0 found 65536 wanted 6
0x10004 => 0x10002
K12 at 1 found 65538 wanted 6
0x10004 => 0x11000
K12 at 1 found 69632 wanted 6
0x10004 => 0x10ffc
accepted"#;

// K13.
const OF_SLOTS: &str = r#"# K13, case 1, which comes before those of any slot
"none",  => "none",  * 61
accepted
"none",  => "none",  * 62
K13 at 1 found 65 wanted 1
"none",  => "",  * 62
K13 at 1 found 65 wanted 1
# K13, case 2: what is no text of a slot
"none" => ""
K13 at 1 found 1 wanted 2
"none" => "None"
K13 at 1 found 1 wanted 2
"none" => "none none"
K13 at 1 found 1 wanted 2
"none" => "line 3"
K13 at 1 found 1 wanted 2
"page 16" => "page"
K13 at 1 found 0 wanted 2
"page 16" => "page "
K13 at 1 found 0 wanted 2
"page 16" => "page16"
K13 at 1 found 0 wanted 2
"page 16" => "page  16"
K13 at 1 found 0 wanted 2
"page 16" => "page 16 "
K13 at 1 found 0 wanted 2
"page 16" => "Page 16"
K13 at 1 found 0 wanted 2
"page 16" => "page 0016"
K13 at 1 found 0 wanted 2
"page 16" => "page 00"
K13 at 1 found 0 wanted 2
"page 16" => "page +16"
K13 at 1 found 0 wanted 2
"page 16" => "page 0x10"
K13 at 1 found 0 wanted 2
"page 16" => "page 10000000016"
K13 at 1 found 0 wanted 2
# K13, case 3: a page before and after, of another domain, of ten digits
"page 16" => "page 0"
K13 at 1 found 0 wanted 3
"page 16" => "page 15"
K13 at 1 found 0 wanted 3
"page 16" => "page 17"
K13 at 1 found 0 wanted 3
"page 16" => "page 34"
accepted
"page 16" => "page 35"
K13 at 1 found 0 wanted 3
"page 16" => "page 4294967312"
K13 at 1 found 0 wanted 3
colours = [1] => colours = [1]~caps = ["page 16", "page 32"]
K13 at 0 found 1 wanted 3
# K13, case 4
irq 3 => irq 4
K13 at 1 found 2 wanted 4
irq 3 => irq 4294967299
K13 at 1 found 2 wanted 4
lines = [7, 3] => lines = [-3]
K13 at 1 found 2 wanted 4
colours = [1] => colours = [1]~caps = ["irq 9999999999", "irq 0"]~lines = [0, 9999999999]
K14 at 0 found 9999999999 wanted 32
colours = [1] => colours = [1]~caps = ["irq 4294967296"]~lines = [0]
K13 at 0 found 0 wanted 4
# K13, case 5: a page, a line; a place that is empty may be named again
"none" => "page 16"
K13 at 1 found 1 wanted 5
"none" => "irq 3"
K13 at 1 found 2 wanted 5
"none" => "page 32"
accepted
# K13 after K12, and before K16
colours = [1]~entry = 0x10000 => colours = [1]~caps = [""]~entry = 2
K12 at 0 found 2 wanted 6
lines = [7, 3] => lines = [7]
moments = [[9000, 3], [9000, 7]]~[[schedule]]~domain = 0 => [[schedule]]~domain = 2
K13 at 1 found 2 wanted 4"#;

// K14, K15.
const OF_INTERRUPTS: &str = "# K14: the ends of the range, and far from it
lines = [7, 3] => lines = [7, 3, 31]
accepted
lines = [7, 3] => lines = [7, 3, 32]
K14 at 1 found 32 wanted 32
lines = [7, 3] => lines = [0, 7, 3]
accepted
lines = [7, 3] => lines = [-1, 7, 3]
K14 at 1 found -1 wanted 32
lines = [7, 3] => lines = [7, 3, 9223372036854775807]
K14 at 1 found 9223372036854775807 wanted 32
lines = [7, 3] => lines = [7, 3, -9223372036854775808]
K14 at 1 found -9223372036854775808 wanted 32
# K14: a line of an earlier domain, of the same, and two cases
colours = [1] => colours = [1]~lines = [3]
K14 at 1 found 3 wanted 0
colours = [1] => colours = [1]~lines = [4]
accepted
lines = [7, 3] => lines = [7, 3, 7]
K14 at 1 found 7 wanted 1
colours = [1] => colours = [1]~lines = [4, 4]
K14 at 0 found 4 wanted 0
lines = [7, 3] => lines = [7, 3, 3, 32]
K14 at 1 found 3 wanted 1
colours = [1] => colours = [1]~lines = [3, 40]
K14 at 0 found 40 wanted 32
# K15, case 1, which comes before those of any moment
[9000, 3],  => [9000, 3],  * 1024
K15 at 1 found 1025 wanted 1
[9000, 3],  => [-1, 3],  * 1024
K15 at 1 found 1025 wanted 1
[9000, 3],  => [9000, 3],  * 1023
K15 at 1 found 1 wanted 4
# K15, case 2: the ends of the range, and far from it
[9000, 3] => [0, 3]
accepted
[9000, 3] => [-1, 3]
K15 at 1 found 0 wanted 2
[9000, 7] => [1000000000000, 7]
accepted
[9000, 7] => [1000000000001, 7]
K15 at 1 found 1 wanted 2
[9000, 7] => [9223372036854775807, 7]
K15 at 1 found 1 wanted 2
[9000, 3] => [-9223372036854775808, 3]
K15 at 1 found 0 wanted 2
# K15, case 3: no line of the domain, or of another
[9000, 7] => [9000, 8]
K15 at 1 found 1 wanted 3
[9000, 7] => [9000, -7]
K15 at 1 found 1 wanted 3
colours = [1] => colours = [1]~lines = [9]~moments = [[0, 7]]
K15 at 0 found 0 wanted 3
# K15, case 4: the same again, a lesser line, an earlier cycle
[9000, 7] => [9000, 3]
K15 at 1 found 1 wanted 4
[9000, 7] => [9000, 7], [9000, 3]
K15 at 1 found 2 wanted 4
[9000, 3] => [9001, 3]
K15 at 1 found 1 wanted 4
[9000, 7] => [9000, 7], [9001, 3]
accepted
[9000, 7] => [9001, 3], [9000, 7]
K15 at 1 found 2 wanted 4
# K15, two and three cases of one moment
[9000, 7] => [8999, 8]
K15 at 1 found 1 wanted 3
[9000, 7] => [-1, 8]
K15 at 1 found 1 wanted 2
# K14 before K15, and K15 before K16
[7, 3]~moments = [[9000, 3] => [7, 3, 32]~moments = [[-1, 3]
K14 at 1 found 32 wanted 32
[9000, 7]]~[[schedule]]~domain = 0 => [9000, 8]]~[[schedule]]~domain = 2
K15 at 1 found 1 wanted 3";

// K16, K17.
const OF_ENTRIES: &str = r#"# K16
[[schedule]]~domain = 0~length = 10000~pad = 6150~ => [[schedule]]~domain = 0~length = 1000~pad = 0~ * 64
K16 at 0 found 65 wanted 1
[[schedule]]~domain = 0~length = 10000~pad = 6150~ => [[schedule]]~domain = 0~length = 1000~pad = 0~ * 63
K17 at 0 found 0 wanted 6150
[[schedule]]~domain = 0~length = 10000~pad = 6150~ => [[schedule]]~domain = 0~length = 10000~pad = 6150~ * 63
accepted
domain = 1 => domain = 2
K16 at 1 found 2 wanted 2
domain = 1 => domain = -9223372036854775808
K16 at 1 found -9223372036854775808 wanted 2
length = 1000~ => length = 999~
K16 at 1 found 999 wanted 3
length = 1000~ => length = 1000001~
K16 at 1 found 1000001 wanted 3
pad = 6150 => pad = -1
K16 at 0 found -1 wanted 4
pad = 1000000 => pad = 9223372036854775807
K16 at 1 found 9223372036854775807 wanted 4
# K16, two and three cases of one entry
length = 10000~pad = 6150 => length = 999~pad = -1
K16 at 0 found 999 wanted 3
domain = 0~length = 10000~pad = 6150 => domain = -1~length = 999~pad = -1
K16 at 0 found -1 wanted 2
# K17: by one cycle, of a later entry, and after all other rules; a machine
# with a shared line less, one whose every access is dearer, the dearest
pad = 6150 => pad = 6149
K17 at 0 found 6149 wanted 6150
pad = 6150 => pad = 0
K17 at 0 found 0 wanted 6150
pad = 1000000 => pad = 6149
K17 at 1 found 6149 wanted 6150
pad = 6150~[[schedule]]~domain = 1 => pad = 0~[[schedule]]~domain = 2
K16 at 1 found 2 wanted 2
l1d = { sets = 16 => l1d = { sets = 1024
K17 at 0 found 6150 wanted 26310
wb = 10 => wb = 11
K17 at 0 found 6150 wanted 6266
shared = 512 => shared = 448
accepted
base = 1, l1 = 1, l2 = 8, mem = 40, wb = 10 => base = 1000, l1 = 1000, l2 = 1000, mem = 1000, wb = 1000
tlb = 1, mispredict = 3, trap = 10, flush = 20 => tlb = 1000, mispredict = 1000, trap = 1000, flush = 1000
K17 at 0 found 6150 wanted 421999
# two rules
"red"~colours = [1]~entry = 0x10000 => "Red"~colours = [1]~entry = 2
K7 at 0 found 3 wanted 16
hex = "" }]~lines = [7, 3] => hex = "1" }]~lines = [7]
moments = [[9000, 3], [9000, 7]]~[[schedule]]~domain = 0 => [[schedule]]~domain = 2
K12 at 1 found 1 wanted 3"#;

const ALL: [&str; 7] = [
    OF_PARTS,
    OF_NAMES_AND_COLOURS,
    OF_FRAMES,
    OF_SEGMENTS,
    OF_SLOTS,
    OF_INTERRUPTS,
    OF_ENTRIES,
];

#[test]
fn the_first_broken_case_is_named(rt: HostRuntime) -> Result<(), CheckRefusal> {
    are_named(&rt, rt.alloc(), IMAGE, &ALL)
}
