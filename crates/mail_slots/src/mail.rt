// All boxes of an image.
ghost use Rattle.std.specs.Prelude.{◌≡◌, ◌≤◌, length, map, Ok, Err, IfOk, IfErr};
ghost use Rattle.mail_slots.specs.Boxes as spec;
ghost use Rattle.mail_slots.specs.Laws.{WhyUnsent, WhyNotReceived};
ghost use Rattle.mail_slots.specs.Models.{box_model};

use crate::MailRefusal;
use crate::one_box::{begin_one, empty, end_one, put_in, take_out};
use crate::slot::Slot;
use std::alloc::Global;
use std::marker::Model;
use tp_base::{DomainNo, Memory};

/// At most 64 boxes, each one way, from a domain to another. Only `new` takes memory.
#[derive(Drop)]
pub struct Mail {
    slots: Vec<Slot>,
}

impl Model for Mail {
    ghost use Rattle.std.specs.Prelude.{◌≤◌, length, map};
    ghost use Rattle.mail_slots.specs.Boxes.{Boxes, most_boxes};
    ghost use Rattle.mail_slots.specs.Models.{box_model};

    ghost Value = { Boxes };

    ghost view = { λ m. map box_model m.slots.items };

    ghost invariant = { λ m. length m.slots.items ≤ most_boxes };
}

// A slot of domain `d` ends, for each box.
fn end_each(slots: &mut [Slot], d: DomainNo)
    ensures becomes { map box_model slots.new ≡ map (spec.box_ends d) (map box_model slots.old) }
{
    for slot in slots.iter_mut() {
        end_one(slot, d);
    }
}

// A slot of domain `d` begins, for each box.
fn begin_each(slots: &mut [Slot], d: DomainNo)
    ensures becomes { map box_model slots.new ≡ map (spec.box_begins d) (map box_model slots.old) }
{
    for slot in slots.iter_mut() {
        begin_one(slot, d);
    }
}

impl Mail {
    /// For each sender and receiver, at most 64 of them, a box with no words. Where
    /// there are none it has no boxes.
    ///
    /// # Errors
    /// `Memory` where no memory is left for them.
    #[tactic(auto, unfolding(crate::specs::Boxes::opening))]
    pub fn new(alloc: Global, boxes: &[(DomainNo, DomainNo)]) -> Result<Mail, Memory>
        requires few { length boxes.now ≤ 64 }
        ensures opening { IfOk result (λ mail. mail ≡ spec.opening boxes.now) }
    {
        let mut slots = Vec::with_capacity(alloc, boxes.len())?;
        for (from, to) in boxes {
            slots.push_reserved(empty(alloc, *from, *to)?);
        }
        Ok(Mail { slots })
    }

    /// Domain `d` puts a word into box `a`.
    ///
    /// # Errors
    /// The first of these; nothing is changed then. `NoBox` where `a` is no box from
    /// the domain; `BoxFull` where 16 words were put into it since a slot of the domain
    /// ended, whatever the receiver has read.
    #[tactic(auto, unfolding(crate::specs::Boxes::send))]
    pub fn send(&mut self, d: DomainNo, a: u32, word: u32) -> Result<(), MailRefusal>
        ensures sent { IfOk result (λ done. spec.send d a word self.old ≡ Ok self.new) }
        ensures refused { IfErr result (λ refusal. spec.send d a word self.old ≡ Err refusal) }
        ensures cause { IfErr result (λ refusal. WhyUnsent d a self.old refusal) }
        ensures unchanged { IfErr result (λ refusal. self.new ≡ self.old) }
    {
        if a as usize >= self.slots.len() {
            return Err(MailRefusal::NoBox);
        }
        put_in(&mut self.slots[a as usize], d, word)
    }

    /// Domain `d` takes the first word that came in box `a`.
    ///
    /// # Errors
    /// The first of these; nothing is changed then. `NoBox` where `a` is no box to the
    /// domain; `NoMail` where no word is left in it.
    #[tactic(auto, unfolding(crate::specs::Boxes::receive))]
    pub fn recv(&mut self, d: DomainNo, a: u32) -> Result<u32, MailRefusal>
        ensures received { IfOk result (λ word. spec.receive d a self.old
            ≡ Ok (record { word = word; boxes = self.new })) }
        ensures refused { IfErr result (λ refusal. spec.receive d a self.old ≡ Err refusal) }
        ensures cause { IfErr result (λ refusal. WhyNotReceived d a self.old refusal) }
        ensures unchanged { IfErr result (λ refusal. self.new ≡ self.old) }
    {
        if a as usize >= self.slots.len() {
            return Err(MailRefusal::NoBox);
        }
        take_out(&mut self.slots[a as usize], d)
    }

    /// A slot of domain `d` ends: of each box from it, where it put words in, they wait
    /// for the receiver, in the place of those that waited.
    #[tactic(auto, unfolding(crate::specs::Boxes::ends))]
    pub fn ends(&mut self, d: DomainNo)
        ensures becomes { self.new ≡ spec.ends d self.old }
    {
        end_each(&mut self.slots, d);
    }

    /// A slot of domain `d` begins: of each box to it, where words wait, they come in,
    /// in the place of those that it didn't take.
    #[tactic(auto, unfolding(crate::specs::Boxes::begins))]
    pub fn begins(&mut self, d: DomainNo)
        ensures becomes { self.new ≡ spec.begins d self.old }
    {
        begin_each(&mut self.slots, d);
    }

    /// The number of boxes, at most 64; 0 where the image declares none.
    pub fn boxes(&self) -> u32
        ensures value { result ≡ length self.now }
        ensures few { result ≤ 64 }
    {
        self.slots.len() as u32
    }
}
