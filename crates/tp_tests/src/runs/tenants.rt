// Images as the tenant of one of their domains may hold them.
use super::{Due, PRINTS_A, PRINTS_B, USAGE, expect, expect_each, image};
use std::test::Fail;
use tp_run::Status;

// What the tenant of blue may hold of the image in which red prints A, and blue B.
const OF_BLUE: &str = "frames = 64
history = 0
line = 64
predictor = 16
shared = 512
version = 1

[costs]
base = 1
flush = 20
l1 = 1
l2 = 8
mem = 40
mispredict = 3
tlb = 1
trap = 10
wb = 10

[[domain]]
caps = []
colours = [1]
entry = 65536
lines = []
moments = []
name = \"e0\"

[[domain.segment]]
hex = \"9308000073000000\"
page = 16
pages = 1
rights = \"x\"

[[domain]]
caps = []
colours = [2]
entry = 65536
lines = []
moments = []
name = \"blue\"

[[domain.segment]]
hex = \"1305200493081000730000009308000073000000\"
page = 16
pages = 1
rights = \"rx\"

[l1d]
policy = \"lru\"
sets = 16
ways = 2

[l1i]
policy = \"lru\"
sets = 16
ways = 2

[l2]
back = false
policy = \"lru\"
sets = 256
ways = 4

[[schedule]]
domain = 0
hart = 0
length = 10000
pad = 6150

[[schedule]]
domain = 1
hart = 0
length = 10000
pad = 6150

[tlb]
policy = \"lru\"
sets = 4
ways = 2
";

const ROWS: [Due; 3] = [
    ("tp redact --domain 1", Status::Done, OF_BLUE),
    ("tp redact --domain 2", Status::Usage, USAGE),
    ("tp redact --domain 31", Status::Usage, USAGE),
];

// What it writes is accepted, and its domain is the one that is kept: so it stays as it is.
const AGAIN: [Due; 2] = [
    ("tp check", Status::Done, "accepted\n"),
    ("tp redact --domain 1", Status::Done, OF_BLUE),
];

#[test]
fn a_tenants_image_has_its_domain_alone(rt: HostRuntime) -> Result<(), Fail> {
    let alloc = rt.alloc();
    let image = image(alloc, PRINTS_A, PRINTS_B)?;
    expect_each(&rt, alloc, image.as_str(), &ROWS)?;
    expect_each(&rt, alloc, OF_BLUE, &AGAIN)
}

#[test]
fn an_image_that_breaks_a_rule_is_not_redacted(rt: HostRuntime) -> Result<(), Fail> {
    let alloc = rt.alloc();
    expect(
        &rt,
        alloc,
        "tp redact --domain 9",
        "frames = 64",
        Status::Refused,
        "refused K2 at 2 found 0 wanted 0\n",
    )
}
