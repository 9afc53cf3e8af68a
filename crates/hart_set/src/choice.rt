// Which hart is next: the one with the least clock, or the one that a word names.
ghost use Rattle.std.specs.Prelude.{◌≡◌, ◌⊎◌, ℕ, ◌<◌, ◌≤◌, List, Some, IfSome};
ghost use Rattle.tp_base.specs.Table.{Table};
ghost use Rattle.sched_table.specs.Schedule.{harts_in};
ghost use Rattle.hart_set.specs.Models.{image_of, harts_after, StandsAfter};
ghost use Rattle.hart_set.specs.Standing.{AtHart};
ghost use Rattle.event_orders.specs.Orders as orders;
ghost use Rattle.hart_machine.specs.HartMachine.{machine_of};
ghost use Rattle.hart_set.specs.Choosers.{Owes, left_in, names_in};

use crate::set::HartSet;

// The second, where its clock is less.
fn earlier(harts: &HartSet<'_>, first: Option<u8>, h: u8) -> Option<u8>
    requires first { IfSome first (λ g. g < harts_in (image_of harts.now).all.schedule) }
    requires hart { h < harts_in (image_of harts.now).all.schedule }
    ensures value { (order : List ℕ) → StandsAfter harts.now order
        → result ≡ orders.earlier (machine_of (image_of harts.now)) (harts_after harts.now order) first h }
    ensures either { (result ≡ Some h) ⊎ (result ≡ first) }
{
    let Some(g) = first else {
        return Some(h);
    };
    if harts.clock(h) < harts.clock(g) {
        Some(h)
    } else {
        first
    }
}

/// Of the harts that have had fewer slots, the one with the least clock, and of such the
/// first: none, where each has had so many.
pub fn first(harts: &HartSet<'_>, slots: u32) -> Option<u8>
    requires few { slots ≤ 65536 }
    ensures first { (order : List ℕ) → StandsAfter harts.now order
        → result ≡ orders.first (machine_of (image_of harts.now)) slots (harts_after harts.now order)
        (harts_in (image_of harts.now).all.schedule) }
    ensures hart { IfSome result (λ h. h < harts_in (image_of harts.now).all.schedule) }
    ensures slots { IfSome result (λ h. AtHart harts.now.1 h (λ x. x.slots < 65536)) }
{
    let mut first = None;
    for h in 0..harts.harts() {
        if harts.slots(h) < slots {
            first = earlier(harts, first, h);
        }
    }
    first
}

/// Harts by their numbers, ascending.
#[derive(Clone, Copy)]
pub struct Names {
    numbers: [u8; 4],
    many: usize,
}

// Whether a hart has had fewer slots, or owes an event.
fn is_left(harts: &HartSet<'_>, h: u8, slots: u32, owed: u64) -> bool
    requires hart { h < harts_in (image_of harts.now).all.schedule }
    ensures left { (order : List ℕ) → StandsAfter harts.now order
        → result ≡ orders.is_owed_or (orders.has_left (machine_of (image_of harts.now)) slots
        (harts_after harts.now order) h) owed }
{
    if owed == 0 {
        return harts.slots(h) < slots;
    }
    true
}

/// The harts that have had fewer slots, or of which so many events are owed.
pub fn left(harts: &HartSet<'_>, slots: u32, owed: [u64; 4]) -> Names
    ensures names { (order : List ℕ) (table : Table ℕ) → StandsAfter harts.now order
        → Owes (image_of harts.now) owed table → names_in result ≡ left_in harts.now order table slots }
    ensures few { result.many ≤ 4 }
{
    let mut numbers = [0; 4];
    let mut many = 0;
    for h in 0..harts.harts() {
        if is_left(harts, h, slots, owed[usize::from(h)]) {
            numbers[many] = h;
            many += 1;
        }
    }
    Names { numbers, many }
}

/// The one that a word names: none of none.
pub fn named(names: &Names, word: u32) -> Option<u8>
    requires few { names.now.many ≤ 4 }
    ensures named { result ≡ orders.named word (names_in names.now) }
{
    if names.many == 0 {
        return None;
    }
    // (a remainder of 32 bits takes a third of the time of one of 64)
    let at = word % names.many as u32;
    Some(names.numbers[at as usize])
}
