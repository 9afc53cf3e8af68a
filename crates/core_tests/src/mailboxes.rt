// Boxes, call by call and switch by switch.
use mail_slots::{Mail, MailRefusal};
use std::alloc::Global;
use std::process::Abort;
use std::test::Fail;
use tp_base::{DomainNo, Memory};

fn red() -> DomainNo {
    DomainNo::new(0)
}

fn blue() -> DomainNo {
    DomainNo::new(1)
}

// One box, from red to blue.
fn one_box(alloc: Global) -> Result<Mail, Memory> {
    Mail::new(alloc, &[(red(), blue())])
}

// The switch from a slot of one domain to a slot of another.
fn switch(mail: &mut Mail, out: DomainNo, into: DomainNo) {
    mail.ends(out);
    mail.begins(into);
}

#[test]
fn a_word_is_there_in_the_slot_after_its_senders(rt: HostRuntime) -> Result<(), Fail> {
    let mut mail = one_box(rt.alloc())?;
    assert_eq!(rt; mail.boxes(), 1);
    mail.begins(red());
    assert_eq!(rt; mail.send(red(), 0, 77), Ok(()));
    switch(&mut mail, red(), blue());
    assert_eq!(rt; mail.recv(blue(), 0), Ok(77));
    assert_eq!(rt; mail.recv(blue(), 0), Err(MailRefusal::NoMail));
    Ok(())
}

#[test]
fn a_receiver_with_the_first_slot_has_no_mail(rt: HostRuntime) -> Result<(), Fail> {
    let mut mail = one_box(rt.alloc())?;
    mail.begins(blue());
    assert_eq!(rt; mail.recv(blue(), 0), Err(MailRefusal::NoMail));
    switch(&mut mail, blue(), red());
    assert_eq!(rt; mail.send(red(), 0, 77), Ok(()));
    Ok(())
}

// A box is one way, and the number past the last is none.
#[test]
fn who_has_no_box_is_told_so(rt: HostRuntime) -> Result<(), Fail> {
    let mut mail = one_box(rt.alloc())?;
    for (domain, number) in [(blue(), 0), (red(), 1), (red(), u32::MAX)] {
        assert_eq!(rt; mail.send(domain, number, 5), Err(MailRefusal::NoBox));
    }
    for (domain, number) in [(red(), 0), (blue(), 1), (blue(), u32::MAX)] {
        assert_eq!(rt; mail.recv(domain, number), Err(MailRefusal::NoBox));
    }
    Ok(())
}

// Red puts in so many words, the first of which is this one.
fn fill(rt: &impl Abort, mail: &mut Mail, first: u32, count: u32) {
    for i in 0..count {
        assert_eq!(rt;
            mail.send(red(), 0, first.wrapping_add(i)),
            Ok(()),
            "word {i}"
        );
    }
}

// Words that nobody has taken take no room from new ones, and a full box is no box to
// whom it isn't from.
#[test]
fn sixteen_words_fill_a_box(rt: HostRuntime) -> Result<(), Fail> {
    let mut mail = one_box(rt.alloc())?;
    for slot in 0..3 {
        fill(&rt, &mut mail, 100 * slot, 16);
        assert_eq!(rt;
            mail.send(red(), 0, 5),
            Err(MailRefusal::BoxFull),
            "slot {slot}"
        );
        assert_eq!(rt;
            mail.send(blue(), 0, 5),
            Err(MailRefusal::NoBox),
            "slot {slot}"
        );
        switch(&mut mail, red(), blue());
        switch(&mut mail, blue(), red());
    }
    for i in 0..16 {
        assert_eq!(rt; mail.recv(blue(), 0), Ok(200 + i));
    }
    assert_eq!(rt; mail.recv(blue(), 0), Err(MailRefusal::NoMail));
    Ok(())
}

// They are replaced by words that come, and stay where none do.
#[test]
fn unread_words_stay_until_others_come(rt: HostRuntime) -> Result<(), Fail> {
    let mut mail = one_box(rt.alloc())?;
    fill(&rt, &mut mail, 10, 3);
    switch(&mut mail, red(), blue());
    assert_eq!(rt; mail.recv(blue(), 0), Ok(10));
    switch(&mut mail, blue(), red());
    switch(&mut mail, red(), blue());
    assert_eq!(rt; mail.recv(blue(), 0), Ok(11));
    switch(&mut mail, blue(), red());
    fill(&rt, &mut mail, 20, 1);
    switch(&mut mail, red(), blue());
    assert_eq!(rt; mail.recv(blue(), 0), Ok(20));
    assert_eq!(rt; mail.recv(blue(), 0), Err(MailRefusal::NoMail));
    Ok(())
}

// The most that there may be, each from the highest number that a domain may have.
#[test]
fn sixty_four_boxes_are_made_at_once(rt: HostRuntime) -> Result<(), Fail> {
    let pairs = [(DomainNo::new(31), blue()); 64];
    let mut mail = Mail::new(rt.alloc(), &pairs)?;
    assert_eq!(rt; mail.boxes(), 64);
    assert_eq!(rt; mail.send(DomainNo::new(31), 63, u32::MAX), Ok(()));
    switch(&mut mail, DomainNo::new(31), blue());
    assert_eq!(rt; mail.recv(blue(), 63), Ok(u32::MAX));
    Ok(())
}

#[test]
fn an_image_may_have_no_boxes(rt: HostRuntime) -> Result<(), Fail> {
    let mut mail = Mail::new(rt.alloc(), &[])?;
    assert_eq!(rt; mail.boxes(), 0);
    switch(&mut mail, red(), blue());
    assert_eq!(rt; mail.send(red(), 0, 5), Err(MailRefusal::NoBox));
    assert_eq!(rt; mail.recv(blue(), 0), Err(MailRefusal::NoBox));
    Ok(())
}
