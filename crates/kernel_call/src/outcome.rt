// What a kernel call comes to.
ghost use Rattle.std.specs.Prelude.{◌≡◌, ℕ, [], ◌∷◌, length, Some, None};
ghost use Rattle.kernel_clone.specs.Models.{work_model};
ghost use Rattle.kernel_clone.specs.Footprints.{call_number};
ghost use Rattle.call_table.specs.Calls.{clears_entries};
ghost use Rattle.kernel_call.specs.Facts.{nothing};

use call_table::Reply;
use kernel_clone::{Call, Work};

/// What a kernel call answered, where it did, and what its footprint depends on.
#[derive(Clone, Copy)]
pub struct Outcome {
    /// None at an EXIT, an ENDTHREAD and a WAIT that blocks.
    pub reply: Option<Reply>,
    pub work: Work,
}

impl Outcome {
    ghost use Rattle.std.specs.Prelude.{◌≡◌};
    ghost use Rattle.call_table.specs.Calls.{empties_buffer};

    /// Whether the call empties the translation buffer: an UNMAP, a DELETE or a
    /// REVOKE that was done.
    pub fn empties_buffer(&self) -> bool
        ensures value { result ≡ empties_buffer self.now.work.op self.now.reply }
    {
        match self.reply {
            Some(reply) => reply.code == 0 && clears_entries(self.work.op),
            None => false,
        }
    }
}

// Whether an operation clears entries of page tables, where it is done.
fn clears_entries(op: u8) -> bool
    ensures value { result ≡ clears_entries op }
{
    op == Call::Unmap.number() || op == Call::Delete.number() || op == Call::Revoke.number()
}

/// The work of an operation, by its number, that zeroed no frame and wrote no
/// entry.
pub fn plain(op: u8) -> Work
    ensures work { work_model result ≡ nothing op }
{
    Work {
        op,
        zeroed: None,
        count: 0,
        entries: [0; 64],
    }
}

/// The work of a call, of nothing yet.
pub fn no_work(call: Call) -> Work
    ensures work { work_model result ≡ nothing (call_number call) }
{
    plain(call.number())
}

/// For the prover: a work that was lent has still the 64 places of its entries.
pub fn has_places(work: &Work)
    ensures places { length work.now.entries ≡ 64 }
{
    let _ = work.entries[0];
}

/// Tells in a work, of nothing yet, of a frame that was zeroed.
pub fn tell_zeroed(work: &mut Work, frame: u32)
    ensures zeroed { (op : ℕ) → work_model work.old ≡ nothing op
        → work_model work.new ≡ record { op = op; zeroed = Some frame; entries = [] } }
{
    work.zeroed = Some(frame);
}

/// Tells in a work, of nothing yet, of an entry that was written, at a physical
/// address in bytes.
pub fn tell_entry(work: &mut Work, entry: u32)
    ensures written { (op : ℕ) → work_model work.old ≡ nothing op
        → work_model work.new ≡ record { op = op; zeroed = None; entries = entry ∷ [] } }
{
    work.entries[0] = entry;
    work.count = 1;
}
