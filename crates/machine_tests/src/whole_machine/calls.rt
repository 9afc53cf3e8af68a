// Random kernel calls. After each of them plain loops look at the frames, the
// slots and the page tables, and tell the first of these that is not so:
// 1. each frame that is used is one of the domain's, and is used once (its root,
//    its first tables, what it keeps, each page and each table of its slots);
// 2. a valid entry of the root points to a first table, or to the table that
//    one slot says is installed there, and no two to one;
// 3. a valid leaf is of a page that is kept, or of the page that one slot says
//    is mapped there, with good rights that are that slot's;
// 4. what a slot says is mapped or installed is so, and there are as many valid
//    entries and leaves as slots, first tables and kept pages have together;
// 5. a table that is not installed reads zero;
// 6. a frame is refused exactly where all are used;
// 7. a refused call gives 0, and leaves the slots as they were;
// 8. there is a reply, but of a WAIT that blocks, and its code is 0 to 13;
// 9. a refused call leaves each word of the domain's frames as it was, of which
//    each sixteenth call is looked at, and at the end those of all other frames are
//    as they were at first;
// 10. before the first call the frames of the kernel's colour read zero.
ghost use Rattle.std.specs.Prelude.{◌≡◌, ◌+◌, ◌<◌, ◌≤◌, ◌^◌, true, IfOk};
ghost use Rattle.phys_mem.specs.Contents.{Contents};
ghost use Rattle.thread_set.specs.Threads.{is_ready};
ghost use Rattle.kernel_call.specs.Facts.{Valid};

use crate::images::{MACHINE, accepted};
use cap_table::Cap;
use domain_open::{load_pages, open_all};
use image_check::Checked;
use kernel_call::{Domain, Outcome, SLOTS, call_on_memory, deliver};
use phys_mem::PhysMem;
use std::alloc::Global;
use std::test::Fail;
use tp_base::{FrameNo, Memory};

// Red has 16 frames, of which 4 are free at first. Both have `jal x0, 0` alone.
const DOMAINS: &str = "[[domain]]
name = \"red\"
colours = [1]
entry = 0x10000
segment = [
  { page = 16, pages = 1, rights = \"rx\", hex = \"6f000000\" },
  { page = 32, pages = 5, rights = \"rw\", hex = \"01020304\" },
]
caps = [\"page 32\", \"none\", \"page 33\", \"irq 3\"]
lines = [3]
moments = [
  [1, 3], [2, 3], [3, 3], [4, 3], [5, 3], [6, 3], [7, 3], [8, 3],
  [9, 3], [10, 3], [11, 3], [12, 3], [13, 3], [14, 3], [15, 3], [16, 3],
  [17, 3], [18, 3], [19, 3], [20, 3], [21, 3], [22, 3], [23, 3], [24, 3],
  [25, 3], [26, 3], [27, 3], [28, 3], [29, 3], [30, 3], [31, 3], [32, 3],
  [33, 3], [34, 3], [35, 3], [36, 3], [37, 3], [38, 3], [39, 3], [40, 3],
  [41, 3], [42, 3], [43, 3], [44, 3], [45, 3], [46, 3], [47, 3], [48, 3],
  [49, 3], [50, 3], [51, 3], [52, 3], [53, 3], [54, 3], [55, 3], [56, 3],
  [57, 3], [58, 3], [59, 3], [60, 3], [61, 3], [62, 3], [63, 3], [64, 3],
]
[[domain]]
name = \"blue\"
colours = [2]
entry = 0x10000
segment = [{ page = 16, pages = 1, rights = \"x\", hex = \"6f000000\" }]
[[schedule]]
domain = 0
length = 1000
pad = 7000
[[schedule]]
domain = 1
length = 2000
pad = 6150
";

const CALLS: u32 = 10_000;

// Of memory.
const FRAMES: usize = 64;

// Words of a frame.
const PLACES: usize = 1024;

// ---- random requests

#[derive(Drop)]
struct Random(u64);

impl Random {
    fn next(&mut self) -> u32 {
        self.0 = self
            .0
            .wrapping_mul(6_364_136_223_846_793_005)
            .wrapping_add(1_442_695_040_888_963_407);
        (self.0 >> 32) as u32
    }

    // PUT is to print more than the 4,096 bytes that are kept.
    fn number(&mut self) -> u32 {
        match self.next() % 64 {
            0..=27 => 1,
            28..=33 => 2,
            34..=39 => 3,
            40..=49 => 4,
            50..=51 => 5,
            52..=55 => 6,
            56..=59 => 7,
            60..=61 => 8,
            62 => 9 + self.next() % 5,
            _ => self.next().max(15),
        }
    }

    fn slot(&mut self) -> u32 {
        match self.next() % 32 {
            0 => 64,
            1 => self.next(),
            _ => self.next() % 10,
        }
    }

    // Mostly where one of three regions begins.
    fn region(&mut self) -> u32 {
        match self.next() % 8 {
            0 => self.next(),
            1 => (self.next() % 40) << 12,
            _ => (self.next() % 3) << 22,
        }
    }

    // Mostly one of the first 40 pages of such a region.
    fn address(&mut self) -> u32 {
        match self.next() % 16 {
            0 => self.next(),
            _ => ((self.next() % 3) << 22) + ((self.next() % 40) << 12),
        }
    }

    fn rights(&mut self) -> u32 {
        match self.next() % 16 {
            0 => self.next(),
            _ => self.next() % 9,
        }
    }

    // A page or a table.
    fn kind(&mut self) -> u32 {
        match self.next() % 16 {
            0 => self.next(),
            _ => self.next() % 2,
        }
    }

    fn request(&mut self) -> Request {
        let number = self.number();
        let args = match number {
            2 => [self.slot(), self.kind(), self.next()],
            3 => [self.slot(), self.region(), self.next()],
            6 => [self.slot(), self.slot(), self.rights()],
            12 => [self.address(), self.next(), self.next()],
            _ => [self.slot(), self.address(), self.rights()],
        };
        Request { number, args }
    }
}

#[derive(Clone, Copy)]
struct Request {
    number: u32,
    args: [u32; 3],
}

// ---- what is there

// A word of a frame; None outside memory.
fn word(memory: &PhysMem, frame: u32, place: usize) -> Option<u32> {
    if frame >= memory.frames() || place >= PLACES {
        return None;
    }
    Some(memory.read_word(frame * 4096 + place as u32 * 4))
}

// All words of a frame. For the time of `rt try` they are not read by `word`.
fn words_of(memory: &PhysMem, frame: u32) -> Option<[u32; PLACES]> {
    if frame >= memory.frames() {
        return None;
    }
    let mut words = [0; PLACES];
    for place in 0..PLACES {
        words[place] = memory.read_word(frame * 4096 + place as u32 * 4);
    }
    Some(words)
}

// How often a word stands there.
fn times_in(words: &[u32; PLACES], wanted: u32) -> u32 {
    let mut times = 0u32;
    for place in 0..PLACES {
        if words[place] == wanted {
            times = times.wrapping_add(1);
        }
    }
    times
}

// A number in which all words of the domain's frames have a part, or those of
// all other frames.
fn mixed(domain: &Domain, memory: &PhysMem, owned: bool) -> u32 {
    let mut mixed = 0u32;
    for frame in 0..FRAMES as u32 {
        if is_owned(domain, frame) == owned {
            if let Some(words) = words_of(memory, frame) {
                for place in 0..PLACES {
                    mixed = mixed.wrapping_mul(31).wrapping_add(words[place]);
                }
            }
        }
    }
    mixed
}

fn is_owned(domain: &Domain, number: u32) -> bool {
    domain
        .pool
        .frames()
        .iter()
        .any(|frame| frame.number() == number)
}

fn slots_of(domain: &Domain) -> [Option<Cap>; 64] {
    let mut slots = [None; 64];
    for slot in 0..SLOTS {
        slots[slot as usize] = domain.caps.get(slot);
    }
    slots
}

// A frame outside memory counts as frame 0, which is no domain's.
fn count(uses: &mut [u32; FRAMES], frame: FrameNo) {
    let number = frame.number() as usize;
    let place = if number < FRAMES { number } else { 0 };
    uses[place] = uses[place].wrapping_add(1);
}

fn is_page(cap: &Option<Cap>, page: FrameNo) -> bool {
    match cap {
        Some(Cap::Frame { frame, .. }) => *frame == page,
        _ => false,
    }
}

// How often each frame is used; a page that several slots name is used once.
fn uses_of(domain: &Domain, slots: &[Option<Cap>; 64]) -> [u32; FRAMES] {
    let mut uses = [0; FRAMES];
    count(&mut uses, domain.map.root());
    for table in &domain.tables {
        count(&mut uses, table.number());
    }
    for page in &domain.kept {
        count(&mut uses, page.number());
    }
    for slot in 0..64 {
        match slots[slot] {
            Some(Cap::Table { frame, .. }) => count(&mut uses, frame),
            Some(Cap::Frame { frame, .. }) => {
                if !slots[..slot].iter().any(|cap| is_page(cap, frame)) {
                    count(&mut uses, frame);
                }
            }
            _ => {}
        }
    }
    uses
}

#[derive(Drop)]
struct State {
    slots: [Option<Cap>; 64],
    uses: [u32; FRAMES],
    // Whether no frame of the domain is free.
    full: bool,
}

fn state_of(domain: &Domain) -> State {
    let slots = slots_of(domain);
    let uses = uses_of(domain, &slots);
    let used = uses.iter().filter(|times| **times > 0).count();
    State {
        slots,
        uses,
        full: used == domain.pool.frames().len(),
    }
}

// ---- facts

fn frames_are_used_once(domain: &Domain, state: &State) -> bool {
    for number in 0..FRAMES {
        let times = state.uses[number];
        if times > 1 || times == 1 && !is_owned(domain, number as u32) {
            return false;
        }
    }
    true
}

fn is_installed(cap: &Option<Cap>, table: u32, region: u32) -> bool {
    match cap {
        Some(
            Cap::Table {
                frame,
                installed: Some(at),
            },
        ) => frame.number() == table && *at == region << 22,
        _ => false,
    }
}

// A valid entry of the root to this table.
fn is_pointed_to(domain: &Domain, state: &State, region: u32, table: u32) -> bool {
    let first = domain
        .tables
        .iter()
        .filter(|frame| frame.number().number() == table)
        .count();
    let by_slots = state
        .slots
        .iter()
        .filter(|cap| is_installed(cap, table, region))
        .count();
    first == 1 && by_slots == 0 || first == 0 && by_slots == 1
}

fn is_mapped_at(cap: &Option<Cap>, address: u32) -> bool {
    match cap {
        Some(
            Cap::Frame {
                mapped: Some(at),
                ..
            },
        ) => *at == address,
        _ => false,
    }
}

// The page of this capability, with rights that it has.
fn allows(cap: &Option<Cap>, page: u32, given: u32) -> bool {
    match cap {
        Some(Cap::Frame { frame, rights, .. }) => {
            frame.number() == page && u32::from(rights.number()) & given == given
        }
        _ => false,
    }
}

// A leaf that is valid, of the page at an address. Its bits from 0 on are V, R,
// W, X, U, G, A and D: A is set, and D where W is.
fn is_leaf(domain: &Domain, state: &State, address: u32, leaf: u32) -> bool {
    let page = leaf / 1024;
    let rights = leaf / 2 % 8;
    let bits = match rights {
        1 => 0x53,
        3 => 0xd7,
        4 => 0x59,
        5 => 0x5b,
        7 => 0xdf,
        _ => return false,
    };
    // The first four are the kernel clone's.
    let kept = domain
        .kept
        .iter()
        .skip(4)
        .filter(|frame| frame.number().number() == page)
        .count();
    let here = state
        .slots
        .iter()
        .filter(|cap| is_mapped_at(cap, address))
        .count();
    if kept == 1 {
        return here == 0 && leaf % 1024 == bits;
    }
    let allowed = state.slots.iter().any(|cap| is_mapped_at(cap, address)
        && allows(cap, page, rights));
    kept == 0 && here == 1 && allowed && leaf % 1024 == bits
}

// How many leaves of a table are valid, where all of these are right.
fn leaves_in(domain: &Domain, state: &State, region: u32, table: &[u32; PLACES]) -> Option<usize> {
    let mut leaves = 0usize;
    for place in 0..PLACES {
        let leaf = table[place];
        if leaf % 2 == 1 {
            if !is_leaf(domain, state, (region << 22) | ((place as u32) << 12), leaf) {
                return None;
            }
            leaves = leaves.wrapping_add(1);
        }
    }
    Some(leaves)
}

fn is_somewhere(cap: &Option<Cap>) -> bool {
    match cap {
        Some(Cap::Frame { mapped, .. }) => mapped.is_some(),
        Some(Cap::Table { installed, .. }) => installed.is_some(),
        _ => false,
    }
}

// How many entries and leaves are to be valid; four frames that are kept are
// the kernel clone's.
fn wanted(domain: &Domain, state: &State) -> usize {
    let by_slots = state.slots.iter().filter(|cap| is_somewhere(cap)).count();
    let first = domain.tables.len().wrapping_add(domain.kept.len());
    by_slots.wrapping_add(first).wrapping_sub(4)
}

// The first of the facts 2 to 4 that is not so of the entries.
fn wrong_tables(
    domain: &Domain,
    memory: &PhysMem,
    state: &State,
    root: &[u32; PLACES],
) -> Option<u32> {
    let mut found = 0usize;
    for place in 0..PLACES {
        let entry = root[place];
        let region = place as u32;
        let table = entry / 1024;
        if entry % 2 == 1 {
            if entry % 1024 != 1
                || times_in(root, entry) != 1
                || !is_pointed_to(domain, state, region, table)
            {
                return Some(2);
            }
            let words = words_of(memory, table);
            let Some(leaves) = words.and_then(|words| leaves_in(domain, state, region, &words))
            else {
                return Some(3);
            };
            found = found.wrapping_add(leaves).wrapping_add(1);
        }
    }
    if found == wanted(domain, state) {
        None
    } else {
        Some(4)
    }
}

// A page, by a valid leaf at an address.
fn is_mapped(memory: &PhysMem, root: &[u32; PLACES], address: u32, page: u32) -> bool {
    let entry = root[(address >> 22) as usize];
    match word(memory, entry / 1024, (address >> 12) as usize % PLACES) {
        Some(leaf) => entry % 2 == 1 && leaf % 2 == 1 && leaf / 1024 == page,
        None => false,
    }
}

fn is_as_it_says(memory: &PhysMem, root: &[u32; PLACES], cap: &Option<Cap>) -> bool {
    match cap {
        Some(
            Cap::Frame {
                frame,
                mapped: Some(at),
                ..
            },
        ) => is_mapped(memory, root, *at, frame.number()),
        Some(
            Cap::Table {
                frame,
                installed: Some(at),
            },
        ) => root[(*at >> 22) as usize] == frame.number() * 1024 + 1,
        _ => true,
    }
}

fn is_blank(memory: &PhysMem, cap: &Option<Cap>) -> bool {
    match cap {
        Some(
            Cap::Table {
                frame,
                installed: None,
            },
        ) => words_of(memory, frame.number()).is_some_and(|words| times_in(&words, 0) == 1024),
        _ => true,
    }
}

// The first of the facts 1 to 5 that is not so.
fn wrong_fact(domain: &Domain, memory: &PhysMem, state: &State) -> Option<u32> {
    if !frames_are_used_once(domain, state) {
        return Some(1);
    }
    let Some(root) = words_of(memory, domain.map.root().number()) else {
        return Some(1);
    };
    if let Some(fact) = wrong_tables(domain, memory, state, &root) {
        return Some(fact);
    }
    for cap in &state.slots {
        if !is_as_it_says(memory, &root, cap) {
            return Some(4);
        }
        if !is_blank(memory, cap) {
            return Some(5);
        }
    }
    None
}

// Whether ALLOC finds a frame exactly where one is free.
fn alloc_is_right(before: &State, request: Request, code: u32) -> bool {
    let [slot, kind, _] = request.args;
    if request.number != 2 || kind > 1 {
        return true;
    }
    match before.slots.get(slot as usize) {
        Some(None) => code == if before.full { 10 } else { 0 },
        _ => true,
    }
}

// The first of the facts 6 to 8 that is not so.
fn wrong_reply(before: &State, request: Request, outcome: &Outcome, after: &State) -> Option<u32> {
    let Some(reply) = outcome.reply else {
        return if request.number == 10 { None } else { Some(8) };
    };
    if reply.code > 13 {
        return Some(8);
    }
    if !alloc_is_right(before, request, reply.code) {
        return Some(6);
    }
    if reply.code != 0 && !(before.slots == after.slots && reply.value == 0) {
        return Some(7);
    }
    None
}

// ---- the calls

// Whether the current thread may call: where none is ready, a moment comes first.
fn has_ready_thread(domain: &mut Domain) -> bool
    requires replies { domain.old.replies.count < 2 ^ 63 }
    ensures ready { result ≡ true → is_ready domain.new.threads.active.state ≡ true }
    ensures valid { (memory : Contents) → Valid memory domain.old → Valid memory domain.new }
    ensures replies { domain.new.replies.count ≤ domain.old.replies.count + 1 }
{
    if domain.threads.active.state.is_ready() {
        return true;
    }
    if domain.interrupts.next_moment().is_none() {
        return false;
    }
    let _work = deliver(domain);
    domain.threads.active.state.is_ready()
}

// Of four colours the kernel's is 0.
fn kernel_is_blank(memory: &PhysMem) -> bool {
    for k in 0..16 {
        match words_of(memory, 4 * k) {
            Some(words) if times_in(&words, 0) == 1024 => {}
            _ => return false,
        }
    }
    true
}

// The first of 10,000 calls after which something is not so, and what; and how
// often each code came.
fn first_wrong(domain: &mut Domain, memory: &mut PhysMem) -> (Option<(u32, u32)>, [u32; 14])
    requires valid { Valid memory.old domain.old }
    requires replies { domain.old.replies.count ≤ 2 ^ 62 }
{
    let mut codes = [0u32; 14];
    let mut random = Random(1);
    let others = mixed(domain, memory, false);
    let mut before = state_of(domain);
    for step in 0..CALLS {
        if !has_ready_thread(domain) {
            return (Some((step, 8)), codes);
        }
        let request = random.request();
        let words = if step % 16 == 0 {
            Some(mixed(domain, memory, true))
        } else {
            None
        };
        let outcome = call_on_memory(domain, memory, request.number, request.args);
        let after = state_of(domain);
        let wrong_now = wrong_fact(domain, memory, &after);
        let mut wrong = wrong_reply(&before, request, &outcome, &after).or(wrong_now);
        let code = outcome.reply.map_or(0, |reply| reply.code);
        if code != 0 && words.is_some_and(|words| words != mixed(domain, memory, true)) {
            wrong = wrong.or(Some(9));
        }
        if let Some(fact) = wrong {
            return (Some((step, fact)), codes);
        }
        if let Some(times) = codes.get_mut(code as usize) {
            *times = times.wrapping_add(1);
        }
        before = after;
    }
    if mixed(domain, memory, false) != others {
        return (Some((CALLS, 9)), codes);
    }
    (None, codes)
}

// Red at its entry, and memory, as the machine has them before its first slot.
fn opened(alloc: Global, image: &Checked) -> Result<(Domain, PhysMem), Memory>
    ensures valid { IfOk result (λ made. Valid made.1 made.0) }
    ensures replies { IfOk result (λ made. made.0.replies.count ≤ 2 ^ 62) }
{
    image.runnable();
    let mut memory = PhysMem::new(alloc, image.public().hardware.frames)?;
    let mut domains = open_all(alloc, image, &mut memory)?;
    load_pages(image, domains.as_slice(), &mut memory);
    Ok((domains.remove(0), memory))
}

// The call after which something is not so, and what; and whether each code,
// 0 to 13, came.
type Answer = (Option<(u32, u32)>, bool);

// For the prover an image, a domain and a memory are lent to functions that need not
// drop them.

fn call_all(domain: &mut Domain, memory: &mut PhysMem) -> Answer
    requires valid { Valid memory.old domain.old }
    requires replies { domain.old.replies.count ≤ 2 ^ 62 }
{
    if !kernel_is_blank(memory) {
        return (Some((0, 10)), false);
    }
    let (wrong, codes) = first_wrong(domain, memory);
    (wrong, codes.iter().all(|times| *times > 0))
}

fn called_in(alloc: Global, image: &Checked) -> Result<Option<Answer>, Memory> {
    let (mut red, mut memory) = opened(alloc, image)?;
    Ok(Some(call_all(&mut red, &mut memory)))
}

fn called(alloc: Global) -> Result<Option<Answer>, Memory> {
    match accepted(alloc, &[MACHINE, DOMAINS])? {
        Some(image) => called_in(alloc, &image),
        None => Ok(None),
    }
}

#[test]
fn facts_hold_after_random_calls(rt: HostRuntime) -> Result<(), Fail> {
    assert_eq!(rt; called(rt.alloc())?, Some((None, true)));
    Ok(())
}
