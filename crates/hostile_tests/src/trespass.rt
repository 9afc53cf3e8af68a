// Programs that reach for pages that aren't theirs.
ghost use Rattle.std.specs.Prelude.{◌<◌};

use crate::answers::{IMAGE, RED, REPORT, RUN, answer};
use std::alloc::Global;
use std::test::Fail;
use tp_run::Status;

// The page of the code, which may be read and not written.
const OWN: u32 = 16;

// The words of red's page tables: a valid entry for frame 21, and an rx leaf for frame 25.
const TABLES: u32 = 0x5401 + 0x645b;

/// An instruction at the address in x5, and the exception that it ends with.
struct Access {
    word: u32,
    code: u32,
}

// lw x6, 0(x5)
const LOAD: Access = Access {
    word: 0x0002_a303,
    code: 13,
};

// sw x0, 0(x5)
const STORE: Access = Access {
    word: 0x0002_a023,
    code: 15,
};

// What is seen of blue beside whatever red.
fn blue() -> &'static str {
    let from = REPORT.find("domain 1").unwrap_or(0);
    let to = REPORT.find("switch 0").unwrap_or(0);
    REPORT.get(from..to).unwrap_or(REPORT)
}

// Whether red, which puts the page's address into x5 and then does this, is stopped there with no
// word of its frames changed and none read, and blue is what it always is.
fn is_stopped(alloc: Global, page: u32, access: &Access) -> Result<bool, Fail>
    requires few { page < 64 }
{
    let address = 4096 * page;
    // lui x5, page
    let load_upper = address | 0x2b7;
    let program = format!(in alloc;
        "{:08x}{:08x}",
        load_upper.swap_bytes(),
        access.word.swap_bytes()
    )?;
    let image = IMAGE.replace(alloc, RED, program.as_str())?;
    let (status, text) = answer(alloc, RUN, image.as_bytes())?;

    let register = match page {
        0 => String::new(alloc),
        _ => format!(in alloc; " x5={address:08x}")?,
    };
    let (code, blue) = (access.code, blue());
    let sum = TABLES.wrapping_add(load_upper).wrapping_add(access.word);
    let due = format!(in alloc;
        "domain 0 red\nstatus stopped {code} pc 00010004 value {address:08x}\nretired 1\nthread 0 ready pc 00010004{register}\nreadings 0\nreplies 0\nout 0\nmem {sum:08x}\n{blue}switch 0 used "
    )?;
    Ok(status == Status::Done && text.starts_with(due.as_bytes()))
}

#[test]
fn a_load_from_no_page_of_its_own_ends_a_domain(rt: HostRuntime) -> Result<(), Fail> {
    for page in 0..64 {
        if page != OWN {
            let stopped = is_stopped(rt.alloc(), page, &LOAD)?;
            assert!(rt; stopped, "at page {page}");
        }
    }
    Ok(())
}

#[test]
fn a_store_to_no_page_that_may_be_written_ends_a_domain(rt: HostRuntime) -> Result<(), Fail> {
    for page in 0..64 {
        let stopped = is_stopped(rt.alloc(), page, &STORE)?;
        assert!(rt; stopped, "at page {page}");
    }
    Ok(())
}
