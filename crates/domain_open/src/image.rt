// The memory of an image's domains, and they.
ghost use Rattle.std.specs.Prelude.{◌≡◌, IfOk};
ghost use Rattle.phys_mem.specs.Holds.{Holds};
ghost use Rattle.image_check.specs.Image.{image_from};
ghost use Rattle.domain_open.specs.Placing.{AllOpened, placed_all};

use crate::memory::load_pages;
use crate::open::open_all;
use image_check::Checked;
use kernel_call::Domain;
use phys_mem::PhysMem;
use std::alloc::Global;
use tp_base::Memory;

/// A memory that holds the page tables and pages of each domain, and the domains at their
/// entries.
///
/// # Errors
/// `Memory` where no memory is left for them.
pub fn open_image(alloc: Global, image: &Checked) -> Result<(PhysMem, Vec<Domain>), Memory>
    ensures size { IfOk result (λ p. p.0.frames ≡ (image_from image.now).all.hardware.frames) }
    ensures holds { IfOk result (λ p. Holds p.0 (placed_all (image_from image.now))) }
    ensures opened { IfOk result (λ p. AllOpened (image_from image.now) p.1.items) }
{
    image.runnable();
    let mut memory = PhysMem::new(alloc, image.public().hardware.frames)?;
    let domains = open_all(alloc, image, &mut memory)?;
    load_pages(image, domains.as_slice(), &mut memory);
    Ok((memory, domains))
}

/// Frees what was opened. The drops of its parts are checked by this, and not again in each
/// crate that would drop it.
pub fn discard(memory: PhysMem, domains: Vec<Domain>) {
    drop(memory);
    drop(domains);
}
