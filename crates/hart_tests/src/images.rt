// Images with entries on harts, and what is seen of their domains.
ghost use Rattle.std.specs.Prelude.{◌≡◌, ◌<◌, length};
ghost use Rattle.image_check.specs.Own.{owns_of};

use alone_run::Alone;
use hart_set::HartSet;
use image_check::{Checked, check};
use image_record::RawEntry;
use image_text::read_image;
use std::alloc::Global;
use std::test::Fail;
use tp_io::MemSink;
use tp_report::write_section;

// The most bytes of an image's sections, and of a call.
const ROOM: usize = 65536;

// Deals out the domains to so many harts.
fn deal_out(entries: &mut [RawEntry], harts: u8) {
    for entry in entries.iter_mut() {
        entry.hart = entry.domain.checked_rem(i64::from(harts)).unwrap_or(0);
    }
}

/// The image of this text, its domains dealt out to so many harts: no text says a hart.
pub fn on_harts(alloc: Global, text: &str, harts: u8) -> Result<Checked, Fail> {
    let mut raw = read_image(alloc, text.as_bytes())?;
    deal_out(raw.schedule.as_mut_slice(), harts);
    Ok(check(alloc, raw)?)
}

/// The image of this text without its last entry.
pub fn without_last(alloc: Global, text: &str) -> Result<Checked, Fail> {
    let mut raw = read_image(alloc, text.as_bytes())?;
    raw.schedule.pop();
    Ok(check(alloc, raw)?)
}

fn domains_of(image: &Checked) -> u8
    ensures value { result ≡ length (owns_of image.now) }
{
    image.runnable();
    image.public().domains as u8
}

// For the prover a sink and a domain are lent to functions that need not drop them.

fn text_of(alloc: Global, sink: &MemSink) -> Result<String, Fail> {
    Ok(String::from_str(alloc, str::from_utf8(sink.bytes())?)?)
}

fn write_all(image: &Checked, harts: &HartSet<'_>, sink: &mut MemSink) -> Result<(), Fail>
    requires image { harts.now.0 ≡ image.now }
{
    for d in 0..domains_of(image) {
        let name = image.own(usize::from(d)).name.as_str();
        write_section(sink, d, name, &harts.view(d))?;
    }
    Ok(())
}

/// The sections of all domains, as a report has them.
pub fn sections(alloc: Global, image: &Checked, harts: &HartSet<'_>) -> Result<String, Fail>
    requires image { harts.now.0 ≡ image.now }
{
    let mut sink = MemSink::new(alloc, ROOM, ROOM, &[])?;
    write_all(image, harts, &mut sink)?;
    text_of(alloc, &sink)
}

fn write_slots(alone: &mut Alone<'_>, d: u8, name: &str, sink: &mut MemSink) -> Result<(), Fail>
    requires slots { alone.old.slots ≡ 0 }
{
    alone.run_slot();
    alone.run_slot();
    write_section(sink, d, name, &alone.view())?;
    Ok(())
}

// A domain's section after two slots of its hart, as it is alone.
fn write_alone(alloc: Global, image: &Checked, d: u8, sink: &mut MemSink) -> Result<(), Fail>
    requires domain { d < length (owns_of image.now) }
{
    image.runnable();
    let own = image.own(usize::from(d));
    let mut alone = Alone::load(alloc, image.public(), own, d)?;
    write_slots(&mut alone, d, own.name.as_str(), sink)
}

fn write_all_alone(alloc: Global, image: &Checked, sink: &mut MemSink) -> Result<(), Fail> {
    for d in 0..domains_of(image) {
        write_alone(alloc, image, d, sink)?;
    }
    Ok(())
}

/// The sections of all domains after two slots of each hart, each as it is alone.
pub fn sections_alone(alloc: Global, image: &Checked) -> Result<String, Fail> {
    let mut sink = MemSink::new(alloc, ROOM, ROOM, &[])?;
    write_all_alone(alloc, image, &mut sink)?;
    text_of(alloc, &sink)
}
