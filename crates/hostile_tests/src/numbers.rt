// Images with a number that is too great.
use crate::answers::{CHECK, IMAGE, answer};
use std::test::Fail;
use tp_run::Status;

// The greatest number of an image's text.
const GREATEST: &str = "9223372036854775807";

// What stands in the image, once or first, what stands there in its place, and the refusal, with a
// bar between, # for the greatest number and ~ for a new line. Each number of the image is the
// greatest in turn; the second level has as many bytes as 64 bits don't hold; the last is one more
// than the greatest.
const ROWS: &str = "frames = 64|frames = #|K4 at 0 found # wanted 4096
shared = 512|shared = #|K11 at 1 found # wanted 65536
line = 64|line = #|K3 at 1 found # wanted 1
l1i = { sets = 16|l1i = { sets = #|K3 at 2 found # wanted 1
l1i = { sets = 16, ways = 2|l1i = { sets = 16, ways = #|K3 at 2 found # wanted 2
l1d = { sets = 16|l1d = { sets = #|K3 at 3 found # wanted 1
l1d = { sets = 16, ways = 2|l1d = { sets = 16, ways = #|K3 at 3 found # wanted 2
l2 = { sets = 256|l2 = { sets = #|K3 at 4 found # wanted 1
l2 = { sets = 256|l2 = { sets = 4611686018427387904|K3 at 4 found 4611686018427387904 wanted 1
l2 = { sets = 256, ways = 4|l2 = { sets = 256, ways = #|K3 at 4 found # wanted 2
tlb = { sets = 4|tlb = { sets = #|K3 at 5 found # wanted 1
tlb = { sets = 4, ways = 2|tlb = { sets = 4, ways = #|K3 at 5 found # wanted 2
predictor = 16|predictor = #|K3 at 6 found # wanted 1
base = 1|base = #|K6 at 1 found # wanted 1000
l1 = 1|l1 = #|K6 at 2 found # wanted 1000
l2 = 8|l2 = #|K6 at 3 found # wanted 1000
mem = 40|mem = #|K6 at 4 found # wanted 1000
wb = 10|wb = #|K6 at 5 found # wanted 1000
tlb = 1|tlb = #|K6 at 6 found # wanted 1000
mispredict = 3|mispredict = #|K6 at 7 found # wanted 1000
trap = 10|trap = #|K6 at 8 found # wanted 1000
flush = 20|flush = #|K6 at 9 found # wanted 1000
colours = [1]|colours = [#]|K8 at 0 found # wanted 4
entry = 0x10000|entry = #|K2 at 13 found 0 wanted 0
page = 16|page = #|K2 at 15 found 0 wanted 0
pages = 1|pages = #|K2 at 16 found 0 wanted 0
[1]|[1]~caps = [\"irq #\"]|K13 at 0 found 0 wanted 2
[1]|[1]~caps = [\"page 9999999999\"]|K13 at 0 found 0 wanted 3
[1]|[1]~lines = [#]|K14 at 0 found # wanted 32
[1]|[1]~lines = [3]~moments = [[#, 3]]|K15 at 0 found 0 wanted 2
[1]|[1]~lines = [3]~moments = [[9000, #]]|K15 at 0 found 0 wanted 3
domain = 0|domain = #|K16 at 0 found # wanted 2
length = 10000|length = #|K16 at 0 found # wanted 3
pad = 6150|pad = #|K16 at 0 found # wanted 4
frames = 64|version = #~frames = 64|K2 at 28 found 0 wanted 0
frames = 64|version = 2~frames = #|K4 at 0 found # wanted 16384
frames = 64|frames = 9223372036854775808|K1 at 0 found 0 wanted 0";

#[test]
fn a_number_that_is_too_great_is_named(rt: HostRuntime) -> Result<(), Fail> {
    let alloc = rt.alloc();
    for row in ROWS.split('\n') {
        let row = row
            .replace(alloc, "#", GREATEST)?
            .replace(alloc, "~", "\n")?;
        let mut fields = row.split('|');
        let old = fields.next().unwrap_or("");
        let new = fields.next().unwrap_or("");
        let line = format!(in alloc; "refused {}\n", fields.next().unwrap_or(""))?;
        let image = IMAGE.replacen(alloc, old, new, 1)?;
        let (status, text) = answer(alloc, CHECK, image.as_bytes())?;
        let told = text.as_slice() == line.as_bytes();
        assert_eq!(rt; (status, told), (Status::Refused, true), "at {new}");
    }
    Ok(())
}
