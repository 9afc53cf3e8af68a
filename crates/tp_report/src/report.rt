// The text of a report.
ghost use Rattle.std.specs.Prelude.{◌≡◌, ◌%◌, ◌^◌, ◌<◌, [], length, slice_index_or, sum};
ghost use Rattle.tp_report.specs.Texts as spec;
ghost use Rattle.tp_report.specs.Report as report_spec;
ghost use Rattle.tp_io.specs.Sends.{Sends};
ghost use Rattle.tp_io.specs.Sink.{state};
ghost use Rattle.tp_report.specs.Batches.{Adds, holding};
ghost use Rattle.world_view.specs.View as view_spec;
ghost use Rattle.domain_view.specs.Models.{view_model};
ghost use Rattle.tp_report.specs.Switches.{ending_text, switches_text};

use crate::batch::Batch;
use crate::pieces::{Piece, add_pieces, write_pieces};
use domain_view::View;
use guards::Guard;
use image_check::{Refusal, Schedule};
use thread_set::{Thread, ThreadState};
use tp_io::{Failed, Sink, write_all_of};
use world_view::Used;

// How many threads a domain has.
const THREADS: u8 = 8;

/// Writes the section of a domain.
pub fn write_section<K: Sink>(
    out: &mut K,
    domain: u8,
    name: &str,
    view: &View<'_>,
) -> Result<(), Failed>
    ensures sends { Sends (state K.Sink out.old) (state K.Sink out.new)
        result (spec.section domain name.now (view_model view.now)) }
{
    let mut held = Batch::new();
    add_section(out, &mut held, domain, name, view)?;
    held.hand_on(out)
}

#[tactic(auto, unfolding(crate::specs::Texts::section))]
fn add_section<K: Sink>(
    out: &mut K,
    held: &mut Batch,
    domain: u8,
    name: &str,
    view: &View<'_>,
) -> Result<(), Failed>
    ensures adds { Adds (holding K.Sink out.old held.old) (holding K.Sink out.new held.new)
        result (spec.section domain name.now (view_model view.now)) }
{
    write_head(out, held, domain, name, view)?;
    write_threads(out, held, view)?;
    write_rest(out, held, view)
}

// Writes what stands above the threads.
#[tactic(auto, unfolding(crate::specs::Texts::head_text))]
fn write_head<'a, K: Sink>(
    out: &mut K,
    held: &mut Batch,
    domain: u8,
    name: &'a str,
    view: &View<'_>,
) -> Result<(), Failed>
    ensures adds { Adds (holding K.Sink out.old held.old) (holding K.Sink out.new held.new)
        result (spec.head_text domain name.now (view_model view.now)) }
{
    add_pieces(
        out,
        held,
        &[
            Piece::Text("domain "),
            Piece::Number(u64::from(domain)),
            Piece::Text(" "),
            Piece::Text(name),
            Piece::Text("\nstatus "),
            Piece::Status(view.status()),
            Piece::Text("\nretired "),
            Piece::Number(view.retired()),
        ],
    )
}

// Writes what stands below the threads.
#[tactic(auto, unfolding(crate::specs::Texts::rest_text))]
fn write_rest<'a, K: Sink>(out: &mut K, held: &mut Batch, view: &'a View<'a>) -> Result<(), Failed>
    ensures adds { Adds (holding K.Sink out.old held.old) (holding K.Sink out.new held.new)
        result (spec.rest_text (view_model view.now)) }
{
    let printed = view.printed();
    add_pieces(
        out,
        held,
        &[
            Piece::Text("\nreadings "),
            Piece::Readings(view),
            Piece::Text("\nreplies "),
            Piece::Replies(view),
            Piece::Text("\nout "),
            Piece::Number(printed.len() as u64),
            Piece::Bytes(printed),
            Piece::Text("\nmem "),
            Piece::Hex(memory_sum(view)),
            Piece::Text("\n"),
        ],
    )
}

// Writes the line of each thread that was ever started.
#[tactic(auto, unfolding(crate::specs::Texts::threads_text))]
fn write_threads<K: Sink>(out: &mut K, held: &mut Batch, view: &View<'_>) -> Result<(), Failed>
    ensures adds { Adds (holding K.Sink out.old held.old) (holding K.Sink out.new held.new)
        result (spec.threads_text (view_model view.now).threads) }
{
    for t in 0..THREADS {
        write_thread(out, held, t, &view.thread(t))?;
    }
    Ok(())
}

// Writes the line of thread `t`, if it was ever started.
#[tactic(auto, unfolding(crate::specs::Texts::thread_text))]
fn write_thread<K: Sink>(
    out: &mut K,
    held: &mut Batch,
    t: u8,
    thread: &Thread,
) -> Result<(), Failed>
    ensures adds { Adds (holding K.Sink out.old held.old) (holding K.Sink out.new held.new)
        result (spec.thread_text (t, thread.now)) }
{
    match thread.state {
        ThreadState::Never => Ok(()),
        _ => write_thread_line(out, held, t, thread),
    }
}

#[tactic(auto, unfolding(crate::specs::Texts::thread_line))]
fn write_thread_line<K: Sink>(
    out: &mut K,
    held: &mut Batch,
    t: u8,
    thread: &Thread,
) -> Result<(), Failed>
    ensures adds { Adds (holding K.Sink out.old held.old) (holding K.Sink out.new held.new)
        result (spec.thread_line t thread.now) }
{
    add_pieces(
        out,
        held,
        &[
            Piece::Text("\nthread "),
            Piece::Number(u64::from(t)),
            Piece::Text(" "),
            Piece::State(thread.state),
            Piece::Text(" pc "),
            Piece::Hex(thread.pc),
            Piece::Registers(thread.regs.words()),
        ],
    )
}

/// The sum of all words of the pool, modulo 2^32.
pub fn memory_sum(view: &View<'_>) -> u32
    ensures value { result ≡ view_spec.memory_sum (view_model view.now).frames }
{
    let mut sum = 0u32;
    for i in 0..view.pool_len() {
        sum = sum.wrapping_add(frame_sum(view, i));
    }
    sum
}

// The sum of all words of a frame of the pool, modulo 2^32.
fn frame_sum(view: &View<'_>, i: usize) -> u32
    requires place { i < length (view_model view.now).pool }
    ensures value { result ≡ sum (slice_index_or (view_model view.now).frames i []) % 2 ^ 32 }
{
    if view.pool_frame_is_blank(i) {
        return 0;
    }
    let words = view.pool_words(i);
    let mut sum = 0u32;
    for word in words {
        sum = sum.wrapping_add(*word);
    }
    sum
}

/// Writes what ends a report, and the summary of a run: the line of each
/// schedule entry, and `end`.
pub fn write_switches<K: Sink>(out: &mut K, entries: &Schedule, used: &[Used]) -> Result<(), Failed>
    requires paired { length used.now ≡ length entries.now }
    ensures sends { Sends (state K.Sink out.old) (state K.Sink out.new)
        result (ending_text entries.now used.now) }
{
    let mut held = Batch::new();
    add_switches(out, &mut held, entries, used)?;
    held.hand_on(out)
}

#[tactic(auto, unfolding(crate::specs::Switches::ending_text, crate::specs::Report::end_text))]
fn add_switches<K: Sink>(
    out: &mut K,
    held: &mut Batch,
    entries: &Schedule,
    used: &[Used],
) -> Result<(), Failed>
    requires paired { length used.now ≡ length entries.now }
    ensures adds { Adds (holding K.Sink out.old held.old) (holding K.Sink out.new held.new)
        result (ending_text entries.now used.now) }
{
    write_lines(out, held, entries, used)?;
    held.add(out, b"end\n")
}

// Writes the line of each schedule entry.
#[tactic(auto, unfolding(crate::specs::Switches::switches_text))]
fn write_lines<K: Sink>(
    out: &mut K,
    held: &mut Batch,
    entries: &Schedule,
    used: &[Used],
) -> Result<(), Failed>
    requires paired { length used.now ≡ length entries.now }
    ensures adds { Adds (holding K.Sink out.old held.old) (holding K.Sink out.new held.new)
        result (switches_text entries.now used.now) }
{
    for e in 0..entries.len() {
        write_switch(out, held, e, entries.entry(e).pad, used[e as usize])?;
    }
    Ok(())
}

#[tactic(auto, unfolding(crate::specs::Report::switch_line))]
fn write_switch<K: Sink>(
    out: &mut K,
    held: &mut Batch,
    entry: u32,
    pad: u32,
    used: Used,
) -> Result<(), Failed>
    ensures adds { Adds (holding K.Sink out.old held.old) (holding K.Sink out.new held.new)
        result (report_spec.switch_line entry used.largest pad used.count) }
{
    add_pieces(
        out,
        held,
        &[
            Piece::Text("switch "),
            Piece::Number(u64::from(entry)),
            Piece::Text(" used "),
            Piece::Number(used.largest),
            Piece::Text(" pad "),
            Piece::Number(u64::from(pad)),
            Piece::Text(" count "),
            Piece::Number(u64::from(used.count)),
            Piece::Text("\n"),
        ],
    )
}

/// Writes that the image breaks no rule.
#[tactic(auto, unfolding(crate::specs::Report::accepted_text))]
pub fn write_accepted<K: Sink>(out: &mut K) -> Result<(), Failed>
    ensures sends { Sends (state K.Sink out.old) (state K.Sink out.new) result report_spec.accepted_text }
{
    write_all_of(out, b"accepted\n")
}

/// Writes what the words of the command line may be.
#[tactic(auto, unfolding(crate::specs::Report::usage_text))]
pub fn write_usage<K: Sink>(out: &mut K) -> Result<(), Failed>
    ensures sends { Sends (state K.Sink out.old) (state K.Sink out.new) result report_spec.usage_text }
{
    write_all_of(out, b"usage: tp check|bound|run|alone|gen|demo\n")
}

/// Writes which guard is off: the first line of what a machine without it reports.
#[tactic(auto, unfolding(crate::specs::Report::unprotected_text))]
pub fn write_unprotected<K: Sink>(out: &mut K, off: Guard) -> Result<(), Failed>
    ensures sends { Sends (state K.Sink out.old) (state K.Sink out.new)
        result (report_spec.unprotected_text off) }
{
    write_pieces(
        out,
        &[
            Piece::Text("unprotected "),
            Piece::Text(off.name()),
            Piece::Text("\n"),
        ],
    )
}

/// Writes the rule that an image breaks, and its three numbers.
#[tactic(auto, unfolding(crate::specs::Report::refusal_text))]
pub fn write_refusal<K: Sink>(out: &mut K, refusal: &Refusal) -> Result<(), Failed>
    ensures sends { Sends (state K.Sink out.old) (state K.Sink out.new)
        result (report_spec.refusal_text refusal.now) }
{
    write_pieces(
        out,
        &[
            Piece::Text("refused K"),
            Piece::Number(u64::from(refusal.rule)),
            Piece::Text(" at "),
            Piece::Signed(refusal.at),
            Piece::Text(" found "),
            Piece::Signed(refusal.found),
            Piece::Text(" wanted "),
            Piece::Signed(refusal.wanted),
            Piece::Text("\n"),
        ],
    )
}

/// Writes that the image is too long.
#[tactic(auto, unfolding(crate::specs::Report::too_long_text))]
pub fn write_too_long<K: Sink>(out: &mut K) -> Result<(), Failed>
    ensures sends { Sends (state K.Sink out.old) (state K.Sink out.new) result report_spec.too_long_text }
{
    write_all_of(out, b"too long\n")
}
