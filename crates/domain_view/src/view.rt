// What can be seen of a domain.
ghost use Rattle.std.specs.Prelude.{◌<◌};
ghost use Rattle.std.specs.List.{All};
ghost use Rattle.frame_colours.specs.Colours.{pool};
ghost use Rattle.kernel_call.specs.Logs.{IsKept};
ghost use Rattle.kernel_call.specs.LogModel.{log_model};

mod seen;

use kernel_call::Domain;
use phys_mem::PhysMem;

/// What can be seen of a domain: its state, and the words of its pool's frames.
/// It lends, and owns nothing.
#[derive(Drop)]
pub struct View<'a> {
    domain: &'a Domain,
    memory: &'a PhysMem,
    ghost in_memory: { All (λ f. f < memory.now.frames) (pool domain.now.pool.share) },
    ghost readings_kept: { IsKept (log_model domain.now.readings) },
    ghost replies_kept: { IsKept (log_model domain.now.replies) },
}
