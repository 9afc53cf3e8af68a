// A log that keeps its first 256 items, beside their number and the last.
ghost use Rattle.std.specs.Prelude.{◌≡◌, ◌≤◌, [], ◌∷◌, ◌++◌, List, take, vec_capacity};

use std::alloc::Global;
use tp_base::Memory;

/// How many items a log keeps.
pub const KEPT: usize = 256;

/// The first 256 items, how many there were, and the last of them.
#[derive(Drop)]
pub struct Log<T> {
    pub first: Vec<T>,
    pub count: u64,
    pub last: Option<T>,
    ghost room: { 256 ≤ vec_capacity first },
}

impl<T: Copy> Log<T> {
    ghost use Rattle.std.specs.Prelude.{◌≡◌, ◌+◌, ◌^◌, ◌≤◌, [], ◌∷◌, ◌++◌, List, IfOk};
    ghost use Rattle.kernel_call.specs.Logs.{log_of};
    ghost use Rattle.kernel_call.specs.LogModel.{log_model};

    /// An empty log, with room for all that it will keep.
    #[tactic(auto, unfolding(crate::specs::Logs::log_of))]
    pub fn new(alloc: Global) -> Result<Self, Memory>
        ensures empty { IfOk result (λ log. log_model log ≡ log_of []) }
    {
        Ok(Log {
            first: Vec::with_capacity(alloc, KEPT)?,
            count: 0,
            last: None,
        })
    }

    /// Adds an item. Never allocates.
    pub fn push(&mut self, item: T)
        requires count { self.old.count ≤ 2 ^ 63 }
        ensures pushed { (all : List T) → log_model self.old ≡ log_of all
            → log_model self.new ≡ log_of (all ++ item ∷ []) }
        ensures count { self.new.count ≡ self.old.count + 1 }
    {
        keep(&mut self.first, item);
        self.count += 1;
        self.last = Some(item);
    }
}

// Keeps the item if it is one of the first.
fn keep<T: Copy>(first: &mut Vec<T>, item: T)
    requires room { 256 ≤ vec_capacity first.old }
    ensures first { (all : List T) → first.old.items ≡ take 256 all
        → first.new.items ≡ take 256 (all ++ item ∷ []) }
    ensures room { 256 ≤ vec_capacity first.new }
{
    if first.len() >= KEPT {
        return;
    }
    first.push(item).unwrap();
}
