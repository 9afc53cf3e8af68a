// Lent colours: the first broken case of their rule, and the numbers of the children.
use crate::equal::is_equal;
use image_record::{ReadRefusal, Refusal};
use lend_check::{Lending, LendingDomain, LendingEntry, child_number, entry_number, k21};
use std::alloc::Global;
use std::process::Abort;
use tp_base::DomainNo;

/// A domain's own colours, and those that it lends.
type Said = (&'static [i64], &'static [i64]);

/// An entry's domain, and the colour of its child, if the entry is one's.
type Place = (i64, Option<i64>);

/// Of a refusal: where, what was found, and the case.
type Numbers = Option<(i64, i64, i64)>;

/// How many frames of four colours there are, the domains, the entries, and what is refused.
type Row = (u32, &'static [Said], &'static [Place], Numbers);

const RED: Said = (&[1], &[]);

const BLUE: Said = (&[2], &[]);

const PASSED: [Row; 7] = [
    (64, &[RED, BLUE], &[(0, None), (1, None)], None),
    (
        64,
        &[(&[1], &[3]), BLUE],
        &[(0, None), (1, None), (0, Some(3))],
        None,
    ),
    (64, &[RED, (&[2], &[3])], &[(1, Some(3))], None),
    (64, &[(&[1], &[3])], &[], None),
    (64, &[(&[1], &[3, 2])], &[(0, Some(2)), (0, Some(3))], None),
    // Of 28 frames seven have colour 3, of 27 colour 2.
    (28, &[(&[1], &[3])], &[], None),
    (27, &[(&[1], &[2])], &[], None),
];

// Case 1.
const BARRED: [Row; 15] = [
    // None of 1 to 3.
    (64, &[(&[1], &[0]), BLUE], &[], Some((0, 0, 1))),
    (64, &[(&[1], &[4]), BLUE], &[], Some((0, 4, 1))),
    (64, &[RED, (&[2], &[-1])], &[], Some((1, -1, 1))),
    (64, &[(&[1], &[i64::MAX])], &[], Some((0, i64::MAX, 1))),
    (64, &[(&[1], &[i64::MIN])], &[], Some((0, i64::MIN, 1))),
    (64, &[(&[1], &[259])], &[], Some((0, 259, 1))),
    // Some domain's own: another's, an earlier one's, its own.
    (
        64,
        &[(&[1], &[2]), BLUE],
        &[(0, None), (1, None), (0, Some(2))],
        Some((0, 2, 1)),
    ),
    (64, &[RED, (&[2], &[1])], &[], Some((1, 1, 1))),
    (64, &[RED, (&[2], &[2])], &[], Some((1, 2, 1))),
    (64, &[(&[1, 3], &[3])], &[], Some((0, 3, 1))),
    // Lent before: by itself, by another.
    (64, &[(&[1], &[3, 3]), BLUE], &[], Some((0, 3, 1))),
    (64, &[(&[1], &[3]), (&[2], &[3])], &[], Some((1, 3, 1))),
    // Place by place in the order of the lists: not in that of the colours.
    (64, &[(&[1], &[4, 0]), BLUE], &[], Some((0, 4, 1))),
    (64, &[(&[1], &[4]), (&[2], &[0])], &[], Some((0, 4, 1))),
    (64, &[(&[1], &[3]), (&[2], &[3, 0])], &[], Some((1, 3, 1))),
];

// Case 2: of 27 frames six have colour 3.
const SMALL: [Row; 8] = [
    (27, &[(&[1], &[3])], &[], Some((0, 3, 2))),
    (26, &[RED, (&[0], &[2])], &[], Some((1, 2, 2))),
    (0, &[(&[1], &[2])], &[], Some((0, 2, 2))),
    (27, &[(&[1], &[2, 3])], &[], Some((0, 3, 2))),
    // Place by place, and then case by case; before entries.
    (27, &[(&[1], &[3, 0])], &[], Some((0, 3, 2))),
    (27, &[(&[1], &[0, 3])], &[], Some((0, 0, 1))),
    (26, &[(&[1], &[1, 2])], &[], Some((0, 1, 1))),
    (27, &[(&[1], &[3])], &[(0, Some(2))], Some((0, 3, 2))),
];

// Case 3.
const FOREIGN: [Row; 10] = [
    // Nobody lends it, another does, there is no such domain.
    (
        64,
        &[RED, BLUE],
        &[(0, None), (0, Some(3))],
        Some((1, 3, 3)),
    ),
    (
        64,
        &[(&[1], &[3]), BLUE],
        &[(0, Some(3)), (1, Some(3))],
        Some((1, 3, 3)),
    ),
    (
        64,
        &[RED, (&[2], &[3])],
        &[(0, Some(3)), (1, Some(3))],
        Some((0, 3, 3)),
    ),
    (64, &[(&[1], &[3])], &[(0, Some(1))], Some((0, 1, 3))),
    (64, &[(&[1], &[3])], &[(1, Some(3))], Some((0, 3, 3))),
    (64, &[(&[1], &[3])], &[(-1, Some(3))], Some((0, 3, 3))),
    (64, &[(&[1], &[3])], &[(256, Some(3))], Some((0, 3, 3))),
    (
        64,
        &[RED, BLUE],
        &[(1, Some(-3)), (0, Some(0))],
        Some((0, -3, 3)),
    ),
    // Colours before entries.
    (64, &[RED, (&[2], &[0])], &[(0, Some(3))], Some((1, 0, 1))),
    (
        64,
        &[(&[1], &[3]), (&[2], &[3])],
        &[(0, Some(2))],
        Some((1, 3, 1)),
    ),
];

fn domain_of(alloc: Global, said: Said) -> Result<LendingDomain, ReadRefusal> {
    let colours = Vec::from_slice(alloc, said.0)?;
    let lend = Vec::from_slice(alloc, said.1)?;
    Ok(LendingDomain { colours, lend })
}

fn domains_of(alloc: Global, said: &[Said]) -> Result<Vec<LendingDomain>, ReadRefusal> {
    let mut domains = Vec::new(alloc);
    for &domain in said {
        domains.push(domain_of(alloc, domain)?)?;
    }
    Ok(domains)
}

fn entries_of(alloc: Global, places: &[Place]) -> Result<Vec<LendingEntry>, ReadRefusal> {
    let mut schedule = Vec::new(alloc);
    for &(domain, lend) in places {
        schedule.push(LendingEntry { domain, lend })?;
    }
    Ok(schedule)
}

// An image of the first version.
fn lending_of(alloc: Global, said: &[Said], places: &[Place]) -> Result<Lending, ReadRefusal> {
    let schedule = entries_of(alloc, places)?;
    let domains = domains_of(alloc, said)?;
    Ok(Lending {
        version: 1,
        domains,
        schedule,
    })
}

// The refusal, if there is one.
fn told(rt: &impl Abort, frames: u32, colours: u32, lending: &Lending) -> Option<Refusal> {
    assert!(rt; 0 < colours && colours <= 64);
    k21(frames, colours, lending).err()
}

fn wanted(numbers: Numbers) -> Option<Refusal> {
    let (at, found, wanted) = numbers?;
    Some(Refusal {
        rule: 21,
        at,
        found,
        wanted,
    })
}

fn is_told(rt: &impl Abort, alloc: Global, row: &Row) -> Result<(), ReadRefusal> {
    let (frames, said, places, numbers) = *row;
    let lending = lending_of(alloc, said, places)?;
    let told = told(rt, frames, 4, &lending);
    drop(lending);
    is_equal(rt, "refusal", told, wanted(numbers));
    Ok(())
}

fn are_told(rt: &impl Abort, alloc: Global, rows: &[Row]) -> Result<(), ReadRefusal> {
    for row in rows {
        is_told(rt, alloc, row)?;
    }
    Ok(())
}

#[test]
fn colours_that_no_case_bars_are_lent(rt: HostRuntime) -> Result<(), ReadRefusal> {
    are_told(&rt, rt.alloc(), &PASSED)
}

#[test]
fn a_colour_that_may_not_be_lent_is_named(rt: HostRuntime) -> Result<(), ReadRefusal> {
    are_told(&rt, rt.alloc(), &BARRED)
}

#[test]
fn a_colour_of_six_frames_is_named(rt: HostRuntime) -> Result<(), ReadRefusal> {
    are_told(&rt, rt.alloc(), &SMALL)
}

#[test]
fn an_entry_for_a_colour_that_its_domain_does_not_lend_is_named(
    rt: HostRuntime,
) -> Result<(), ReadRefusal> {
    are_told(&rt, rt.alloc(), &FOREIGN)
}

/// Of 64 colours and so many frames: the version, how many domains there are, of which the first
/// has colour 1 and lends so many from 2 on, the entries, and what is refused.
type Crowd = (u32, u8, u8, u8, &'static [Place], Numbers);

const CROWDS: [Crowd; 18] = [
    (448, 1, 1, 15, &[], None),
    (448, 1, 1, 16, &[], Some((0, 17, 4))),
    (448, 1, 2, 14, &[], None),
    (448, 1, 2, 15, &[], Some((0, 17, 4))),
    (448, 1, 16, 0, &[], None),
    (448, 1, 16, 1, &[], Some((0, 17, 4))),
    (448, 2, 1, 16, &[], None),
    (448, 2, 1, 31, &[], None),
    (448, 2, 1, 32, &[], Some((0, 33, 4))),
    (448, 2, 31, 1, &[], None),
    (448, 2, 31, 2, &[], Some((0, 33, 4))),
    (448, 2, 32, 0, &[], None),
    (448, 2, 32, 1, &[], Some((0, 33, 4))),
    (448, 2, 33, 0, &[], Some((0, 33, 4))),
    (448, 2, 1, 62, &[], Some((0, 63, 4))),
    // After the other cases.
    (448, 1, 1, 16, &[(0, Some(18))], Some((0, 18, 3))),
    (448, 1, 1, 63, &[], Some((0, 64, 1))),
    (447, 1, 1, 62, &[], Some((0, 63, 2))),
];

fn colours_from_2(alloc: Global, many: u8) -> Result<Vec<i64>, ReadRefusal> {
    let mut colours = Vec::new(alloc);
    for place in 0..many {
        colours.push(2 + i64::from(place))?;
    }
    Ok(colours)
}

fn lender(alloc: Global, many: u8) -> Result<LendingDomain, ReadRefusal> {
    let lend = colours_from_2(alloc, many)?;
    let colours = Vec::from_slice(alloc, RED.0)?;
    Ok(LendingDomain { colours, lend })
}

fn crowd(alloc: Global, domains: u8, many: u8) -> Result<Vec<LendingDomain>, ReadRefusal> {
    let mut crowd = Vec::new(alloc);
    crowd.push(lender(alloc, many)?)?;
    for _ in 1..domains {
        crowd.push(domain_of(alloc, (&[], &[]))?)?;
    }
    Ok(crowd)
}

fn is_crowd_told(rt: &impl Abort, alloc: Global, row: &Crowd) -> Result<(), ReadRefusal> {
    let (frames, version, domains, many, places, numbers) = *row;
    let schedule = entries_of(alloc, places)?;
    let domains = crowd(alloc, domains, many)?;
    let lending = Lending {
        version,
        domains,
        schedule,
    };
    let told = told(rt, frames, 64, &lending);
    drop(lending);
    is_equal(rt, "refusal", told, wanted(numbers));
    Ok(())
}

#[test]
fn parties_are_few_enough(rt: HostRuntime) -> Result<(), ReadRefusal> {
    for row in &CROWDS {
        is_crowd_told(&rt, rt.alloc(), row)?;
    }
    Ok(())
}

// Of eight colours and 56 frames.
const THREE: [Said; 3] = [(&[1], &[5, 3]), (&[6], &[]), (&[2, 7], &[4])];

/// A domain's number, a colour, and the number of its child.
const CHILDREN: [(usize, i64, Option<u8>); 9] = [
    (0, 5, Some(3)),
    (0, 3, Some(4)),
    (2, 4, Some(5)),
    (0, 4, None),
    (0, 1, None),
    (1, 4, None),
    (1, 6, None),
    (2, 5, None),
    (3, 4, None),
];

/// An entry's domain, the colour of its child, if the entry is one's, and whose it is by number.
const OWNERS: [(u8, Option<i64>, Option<u8>); 7] = [
    (0, None, Some(0)),
    (1, None, Some(1)),
    (2, None, Some(2)),
    (0, Some(5), Some(3)),
    (0, Some(3), Some(4)),
    (2, Some(4), Some(5)),
    (1, Some(4), None),
];

fn number(party: Option<DomainNo>) -> Option<u8> {
    let party = party?;
    Some(party.number())
}

fn child_in(lending: &Lending, domain: usize, colour: i64) -> Option<u8> {
    match k21(56, 8, lending) {
        Ok(()) => number(child_number(lending.domains.as_slice(), domain, colour)),
        Err(_) => None,
    }
}

fn owner_in(rt: &impl Abort, lending: &Lending, domain: u8, lend: Option<i64>) -> Option<u8> {
    assert!(rt; usize::from(domain) < lending.domains.len());
    let entry = LendingEntry {
        domain: i64::from(domain),
        lend,
    };
    match k21(56, 8, lending) {
        Ok(()) => number(entry_number(lending.domains.as_slice(), &entry)),
        Err(_) => None,
    }
}

fn all_are_numbered(rt: &impl Abort, lending: &Lending) {
    for &(domain, colour, wanted) in &CHILDREN {
        is_equal(rt, "child", child_in(lending, domain, colour), wanted);
    }
    for &(domain, lend, wanted) in &OWNERS {
        is_equal(rt, "owner", owner_in(rt, lending, domain, lend), wanted);
    }
}

#[test]
fn children_have_the_numbers_after_the_domains(rt: HostRuntime) -> Result<(), ReadRefusal> {
    let lending = lending_of(rt.alloc(), &THREE, &[])?;
    all_are_numbered(&rt, &lending);
    drop(lending);
    Ok(())
}
