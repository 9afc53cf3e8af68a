// The texts of the bounds on a switch.
ghost use Rattle.std.specs.Prelude.{◌<◌, All, length};
ghost use Rattle.tp_report.specs.Report as spec;
ghost use Rattle.tp_io.specs.Sends.{Sends};
ghost use Rattle.tp_io.specs.Sink.{state};
ghost use Rattle.pad_bound.specs.Bound.{IsShape, with_calls};
ghost use Rattle.pad_bound.specs.Models.{shape_model};
ghost use Rattle.tp_report.specs.Batches.{Adds, holding};

use crate::batch::Batch;
use crate::pieces::{Piece, add_pieces, write_pieces};
use image_check::Schedule;
use pad_bound::{Bound, Shape, bound, bound_from};
use tp_io::{Failed, Sink};

/// Writes the most cycles of each part of a switch, and of all.
#[tactic(auto, unfolding(crate::specs::Report::bound_text))]
pub fn write_bound<K: Sink>(out: &mut K, bound: &Bound) -> Result<(), Failed>
    ensures sends { Sends (state K.Sink out.old) (state K.Sink out.new)
        result (spec.bound_text bound.now) }
{
    write_pieces(
        out,
        &[
            Piece::Text("instruction "),
            Piece::Number(bound.instruction),
            Piece::Text("\noperation "),
            Piece::Number(bound.operation),
            Piece::Text("\nleave "),
            Piece::Number(bound.leave),
            Piece::Text("\nprefetch "),
            Piece::Number(bound.prefetch),
            Piece::Text("\nflush "),
            Piece::Number(bound.flush),
            Piece::Text("\nenter "),
            Piece::Number(bound.enter),
            Piece::Text("\nbound "),
            Piece::Number(bound.total),
            Piece::Text("\n"),
        ],
    )
}

/// Writes the most cycles of each part of a switch that is the same whoever
/// leaves, and for each schedule entry those of the operation and of all parts,
/// where its domain leaves. `calls` has for each domain the calls that it may
/// make: bit n is that of call n.
pub fn write_bound_2<K: Sink>(
    out: &mut K,
    shape: &Shape,
    entries: &Schedule,
    calls: &[u32],
) -> Result<(), Failed>
    requires shape { IsShape (shape_model shape.now) }
    requires named { All (λ e. e.domain < length calls.now) entries.now }
    ensures sends { Sends (state K.Sink out.old) (state K.Sink out.new)
        result (spec.bound_2_text (shape_model shape.now) entries.now calls.now) }
{
    let mut held = Batch::new();
    add_bounds(out, &mut held, shape, entries, calls)?;
    held.hand_on(out)
}

#[tactic(auto, unfolding(crate::specs::Report::bound_2_text))]
fn add_bounds<K: Sink>(
    out: &mut K,
    held: &mut Batch,
    shape: &Shape,
    entries: &Schedule,
    calls: &[u32],
) -> Result<(), Failed>
    requires shape { IsShape (shape_model shape.now) }
    requires named { All (λ e. e.domain < length calls.now) entries.now }
    ensures adds { Adds (holding K.Sink out.old held.old) (holding K.Sink out.new held.new)
        result (spec.bound_2_text (shape_model shape.now) entries.now calls.now) }
{
    write_shared_parts(out, held, shape)?;
    write_entries(out, held, shape, entries, calls)
}

// Writes the line of each part that is the same whoever leaves.
fn write_shared_parts<K: Sink>(out: &mut K, held: &mut Batch, shape: &Shape) -> Result<(), Failed>
    requires shape { IsShape (shape_model shape.now) }
    ensures adds { Adds (holding K.Sink out.old held.old) (holding K.Sink out.new held.new)
        result (spec.shared_parts_text (shape_model shape.now)) }
{
    let parts = bound(shape);
    add_pieces(
        out,
        held,
        &[
            Piece::Text("instruction "),
            Piece::Number(parts.instruction),
            Piece::Text("\nleave "),
            Piece::Number(parts.leave),
            Piece::Text("\nprefetch "),
            Piece::Number(parts.prefetch),
            Piece::Text("\nflush "),
            Piece::Number(parts.flush),
            Piece::Text("\nenter "),
            Piece::Number(parts.enter),
            Piece::Text("\n"),
        ],
    )
}

// Writes the line of each schedule entry.
#[tactic(auto, unfolding(crate::specs::Report::entries_text))]
fn write_entries<K: Sink>(
    out: &mut K,
    held: &mut Batch,
    shape: &Shape,
    entries: &Schedule,
    calls: &[u32],
) -> Result<(), Failed>
    requires shape { IsShape (shape_model shape.now) }
    requires named { All (λ e. e.domain < length calls.now) entries.now }
    ensures adds { Adds (holding K.Sink out.old held.old) (holding K.Sink out.new held.new)
        result (spec.entries_text (shape_model shape.now) entries.now calls.now) }
{
    for e in 0..entries.len() {
        let domain = entries.entry(e).domain;
        write_entry(out, held, e, shape, calls[usize::from(domain)])?;
    }
    Ok(())
}

// Writes the line of a schedule entry whose domain may make these calls.
fn write_entry<K: Sink>(
    out: &mut K,
    held: &mut Batch,
    entry: u32,
    shape: &Shape,
    calls: u32,
) -> Result<(), Failed>
    requires shape { IsShape (shape_model shape.now) }
    ensures adds { Adds (holding K.Sink out.old held.old) (holding K.Sink out.new held.new)
        result (spec.entry_line entry (with_calls (shape_model shape.now) calls)) }
{
    let of_entry = bound_from(shape, calls);
    add_pieces(
        out,
        held,
        &[
            Piece::Text("entry "),
            Piece::Number(u64::from(entry)),
            Piece::Text(" operation "),
            Piece::Number(of_entry.operation),
            Piece::Text(" bound "),
            Piece::Number(of_entry.total),
            Piece::Text("\n"),
        ],
    )
}
