// The slots that a revocation emptied, counted.
ghost use Rattle.std.specs.Prelude.{◌≡◌, ◌+◌, ◌<◌, ◌≤◌, length, take, []};
ghost use Rattle.std.specs.Prelude.{◌++◌};
ghost use Rattle.cap_table.specs.Slots.{push_some};

use crate::Revoked;

impl Revoked {
    pub(crate) fn none() -> Self
        ensures count { result.count ≡ 0 }
        ensures written { result.written ≡ 0 }
    {
        Revoked {
            count: 0,
            written: 0,
            entries: [0; 64],
        }
    }

    // One more slot, which was mapped at this address.
    pub(crate) fn push(&mut self, mapped: Option<u32>)
        requires room { self.old.count < 64 }
        requires fewer { self.old.written ≤ self.old.count }
        ensures count { self.new.count ≡ self.old.count + 1 }
        ensures written { self.new.written ≡ self.old.written + length (push_some mapped []) }
        ensures entries { take self.new.written self.new.entries
            ≡ take self.old.written self.old.entries ++ push_some mapped [] }
    {
        self.count += 1;
        if let Some(at) = mapped {
            self.entries[self.written as usize] = at;
            self.written += 1;
        }
    }
}
