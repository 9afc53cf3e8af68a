// What a guard that is off leaves out of a switch, and of the domains: nothing, where all are on.
ghost use Rattle.std.specs.Prelude.{true, false, ◌≡◌, ◌≢◌, ◌<◌, ◌≤◌, length, max, slice_get, Some, IfOk};
ghost use Rattle.kernel_call.specs.declared.domain.Domain.{Domain};
ghost use Rattle.phys_mem.specs.Holds.{Holds};
ghost use Rattle.image_check.specs.Image.{Image, image_from};
ghost use Rattle.domain_open.specs.Placing.{placed_all};
ghost use Rattle.world_view.specs.Machine as spec;
ghost use Rattle.hart_set.specs.Clones.{HaveClone, AreEntered};

use domain_open::open_image;
use domain_switch::Parts;
use guards::Guard;
use hart_orders::is_on;
use image_check::Checked;
use kernel_call::Domain;
use kernel_clone::CloneLayout;
use phys_mem::PhysMem;
use std::alloc::Global;
use tp_base::Memory;

/// What a switch does between the leave and the enter.
pub(crate) fn parts_off(off: Option<Guard>) -> Parts
    ensures loads { (i : Image) → result.loads ≡ (spec.guards_of off i).prefetch }
    ensures flushes { (i : Image) → result.flushes ≡ (spec.guards_of off i).flush }
{
    let loads = is_on(Guard::Prefetch, off);
    let flushes = is_on(Guard::Flush, off);
    Parts { loads, flushes }
}

/// An image's memory, and its domains at their entries, each with the kernel clone that works
/// for it.
pub(crate) fn open_off(
    alloc: Global,
    image: &Checked,
    off: Option<Guard>,
) -> Result<(PhysMem, Vec<Domain>), Memory>
    ensures size { IfOk result (λ opened. opened.0.frames ≡ (image_from image.now).all.hardware.frames) }
    ensures holds { IfOk result (λ opened. Holds opened.0 (placed_all (image_from image.now))) }
    ensures entered { IfOk result (λ opened. AreEntered off (image_from image.now) opened.1.items) }
{
    image.runnable();
    let (memory, mut domains) = open_image(alloc, image)?;
    share_clone(off, domains.as_mut_slice());
    Ok((memory, domains))
}

// Without clones of their own all domains have that of domain 0.
fn share_clone(off: Option<Guard>, domains: &mut [Domain])
    requires some { 0 < length domains.old }
    ensures kept { off ≢ Some Guard.Clone → domains.new ≡ domains.old }
    ensures shared { (x : Domain) → off ≡ Some Guard.Clone → slice_get domains.old 0 ≡ Some x
        → HaveClone x.layout domains.old domains.new }
{
    if !is_on(Guard::Clone, off) {
        let layout = domains[0].layout;
        give_clone(domains, &layout);
    }
}

// Gives each domain this kernel clone.
fn give_clone(domains: &mut [Domain], layout: &CloneLayout)
    ensures given { HaveClone layout.now domains.old domains.new }
{
    for d in 0..domains.len() {
        domains[d].layout = *layout;
    }
}

/// What a switch waits for where the next slot starts then, in cycles: without pads
/// for nothing.
pub(crate) fn until_off(off: Option<Guard>, start: u64) -> u64
    ensures waits { (i : Image) → (spec.guards_of off i).pad ≡ true → result ≡ start }
    ensures waits_not { (i : Image) → (spec.guards_of off i).pad ≡ false → result ≡ 0 }
    ensures soon { result ≤ start }
{
    if is_on(Guard::Pad, off) { start } else { 0 }
}

/// From when a slot's length counts, in cycles: from its start, and without pads from
/// when it begins.
pub(crate) fn begins_by(off: Option<Guard>, start: u64, begins: u64) -> u64
    ensures padded { (i : Image) → (spec.guards_of off i).pad ≡ true → result ≡ start }
    ensures unpadded { (i : Image) → (spec.guards_of off i).pad ≡ false → result ≡ begins }
    ensures soon { result ≤ max start begins }
{
    if is_on(Guard::Pad, off) {
        start
    } else {
        begins
    }
}
