// The summary of a run.
ghost use Rattle.std.specs.Prelude.{◌≡◌};
ghost use Rattle.tp_io.specs.Sends.{Sends};
ghost use Rattle.tp_io.specs.Sink.{state};
ghost use Rattle.domain_view.specs.Models.{view_model};
ghost use Rattle.tp_report.specs.Demo as spec;

use crate::pieces::{Piece, write_pieces};
use crate::report::memory_sum;
use domain_view::View;
use tp_io::{Failed, Sink};

/// A part of the summary of a run.
#[derive(Clone, Copy)]
pub enum DemoPart<'a> {
    /// The first line: the seed that the image was made from.
    Head(u64),
    /// A domain's line: its number and what is seen of it.
    Domain(u8, &'a View<'a>),
}

/// Writes a part of the summary of a run of 64 slots. The switch lines and the
/// last line of a report end the summary, too.
pub fn write_demo<K: Sink>(out: &mut K, part: DemoPart<'_>) -> Result<(), Failed>
    ensures sends { Sends (state K.Sink out.old) (state K.Sink out.new) result (spec.demo_part part.entry) }
{
    match part {
        DemoPart::Head(seed) => write_demo_head(out, seed),
        DemoPart::Domain(domain, view) => write_demo_domain(out, domain, view),
    }
}

#[tactic(auto, unfolding(crate::specs::Demo::demo_head))]
fn write_demo_head<K: Sink>(out: &mut K, seed: u64) -> Result<(), Failed>
    ensures sends { Sends (state K.Sink out.old) (state K.Sink out.new) result (spec.demo_head seed) }
{
    write_pieces(
        out,
        &[
            Piece::Text("demo "),
            Piece::Number(seed),
            Piece::Text(" slots 64\n"),
        ],
    )
}

#[tactic(auto, unfolding(crate::specs::Demo::demo_domain))]
fn write_demo_domain<K: Sink>(out: &mut K, domain: u8, view: &View<'_>) -> Result<(), Failed>
    ensures sends { Sends (state K.Sink out.old) (state K.Sink out.new)
        result (spec.demo_domain domain (view_model view.now)) }
{
    write_pieces(
        out,
        &[
            Piece::Text("domain "),
            Piece::Number(u64::from(domain)),
            Piece::Text(" retired "),
            Piece::Number(view.retired()),
            Piece::Text(" readings "),
            Piece::Number(view.readings()),
            Piece::Text(" replies "),
            Piece::Number(view.replies()),
            Piece::Text(" mem "),
            Piece::Hex(memory_sum(view)),
            Piece::Text("\n"),
        ],
    )
}
