// One box of the code, with room for all words that it may ever have.
ghost use Rattle.std.specs.Prelude.{◌≤◌};
ghost use Rattle.std.specs.Vec.{vec_capacity};

use tp_base::DomainNo;

/// One box. Only its making takes memory.
#[derive(Drop)]
pub(crate) struct Slot {
    /// Its sender.
    pub(crate) from: DomainNo,
    /// Its receiver.
    pub(crate) to: DomainNo,
    /// What its sender put in since a slot of it ended.
    pub(crate) out: Vec<u32>,
    /// What waits for a slot of its receiver.
    pub(crate) sent: Vec<u32>,
    /// What its receiver may take.
    pub(crate) inbox: Vec<u32>,
    ghost out_room: { 16 ≤ vec_capacity out },
    ghost sent_room: { 16 ≤ vec_capacity sent },
    ghost inbox_room: { 16 ≤ vec_capacity inbox },
}
