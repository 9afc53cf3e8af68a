// Texts that are written piece by piece.
ghost use Rattle.std.specs.Prelude.{◌≡◌, ◌<◌, ◌≤◌, ◌*◌, ℕ, min, List, length, slice_get, Some, decimal};
ghost use Rattle.std.specs.Fmt.{signed_decimal};
ghost use Rattle.std.specs.List.{flat_map};
ghost use Rattle.hex.specs.Hex.{encode_lower};
ghost use Rattle.tp_report.specs.Texts as spec;
ghost use Rattle.tp_io.specs.Sends.{Sends};
ghost use Rattle.tp_io.specs.Sink.{state};
ghost use Rattle.tp_report.specs.Batches.{Adds, holding};
ghost use Rattle.tp_report.specs.Pieces.{after, part_text, piece_text};
ghost use Rattle.kernel_call.specs.Logs.{Log, IsKept};
ghost use Rattle.domain_view.specs.Models.{view_model};

use crate::batch::Batch;
use call_table::{DomainStatus, Reply};
use domain_view::View;
use itoa::Buffer;
use thread_set::ThreadState;
use tp_io::{Failed, Sink};

// How many bytes are written in hexadecimal at once.
const CHUNK: usize = 32;

// The most items that a log keeps.
const KEPT: u64 = 256;

/// A piece of a text.
#[derive(Clone, Copy)]
pub enum Piece<'a> {
    Text(&'a str),
    /// In decimal.
    Number(u64),
    /// In decimal, after a `-` where it is negative.
    Signed(i64),
    /// In eight hexadecimal digits.
    Hex(u32),
    Status(DomainStatus),
    State(ThreadState),
    /// The registers that aren't zero, each with its number.
    Registers(&'a [u32]),
    /// The readings of a view: their number, and where there are any the last
    /// and the first 256.
    Readings(&'a View<'a>),
    /// The replies of a view, likewise.
    Replies(&'a View<'a>),
    /// In hexadecimal, after a space if there are any.
    Bytes(&'a [u8]),
}

// What the text of a longer piece is made of.
#[derive(Clone, Copy)]
enum Part<'a> {
    Text(&'a str),
    Number(u64),
    Hex(u32),
}

// What can be written as a text.
trait WriteText {
    ghost text: { Self → List ℕ };

    fn write_text<K: Sink>(&self, out: &mut K, held: &mut Batch) -> Result<(), Failed>
        ensures adds { Adds (holding K.Sink out.old held.old) (holding K.Sink out.new held.new)
            result (text self.now) };
}

impl WriteText for Part<'_> {
    ghost text = { part_text };

    fn write_text<K: Sink>(&self, out: &mut K, held: &mut Batch) -> Result<(), Failed> {
        match *self {
            Part::Text(text) => held.add(out, text.as_bytes()),
            Part::Number(number) => write_number(out, held, number),
            Part::Hex(word) => write_word(out, held, word),
        }
    }
}

impl WriteText for Piece<'_> {
    ghost text = { piece_text };

    fn write_text<K: Sink>(&self, out: &mut K, held: &mut Batch) -> Result<(), Failed> {
        match *self {
            Piece::Text(text) => held.add(out, text.as_bytes()),
            Piece::Number(number) => write_number(out, held, number),
            Piece::Signed(number) => write_signed(out, held, number),
            Piece::Hex(word) => write_word(out, held, word),
            Piece::Status(status) => write_status(out, held, status),
            Piece::State(state) => write_state(out, held, state),
            Piece::Registers(regs) => write_registers(out, held, regs),
            Piece::Readings(view) => write_log(out, held, &Readings { view }),
            Piece::Replies(view) => write_log(out, held, &Replies { view }),
            Piece::Bytes(bytes) => write_bytes(out, held, bytes),
        }
    }
}

// A reading.
impl WriteText for u64 {
    ghost text = { spec.reading_text };

    #[tactic(auto, unfolding(crate::specs::Texts::reading_text))]
    fn write_text<K: Sink>(&self, out: &mut K, held: &mut Batch) -> Result<(), Failed> {
        write_number(out, held, *self)
    }
}

impl WriteText for Reply {
    ghost text = { spec.reply_text };

    #[tactic(auto, unfolding(crate::specs::Texts::reply_text))]
    fn write_text<K: Sink>(&self, out: &mut K, held: &mut Batch) -> Result<(), Failed> {
        write_parts(
            out,
            held,
            &[
                Part::Number(u64::from(self.code)),
                Part::Text(":"),
                Part::Number(u64::from(self.value)),
            ],
        )
    }
}

/// Writes the pieces one after another.
pub fn write_pieces<K: Sink>(out: &mut K, pieces: &[Piece<'_>]) -> Result<(), Failed>
    ensures sends { Sends (state K.Sink out.old) (state K.Sink out.new)
        result (flat_map piece_text pieces.now) }
{
    let mut held = Batch::new();
    add_pieces(out, &mut held, pieces)?;
    held.hand_on(out)
}

/// Adds the pieces one after another to what is held.
pub fn add_pieces<K: Sink>(
    out: &mut K,
    held: &mut Batch,
    pieces: &[Piece<'_>],
) -> Result<(), Failed>
    ensures adds { Adds (holding K.Sink out.old held.old) (holding K.Sink out.new held.new)
        result (flat_map piece_text pieces.now) }
{
    write_each(out, held, "", pieces)
}

fn write_parts<K: Sink>(out: &mut K, held: &mut Batch, parts: &[Part<'_>]) -> Result<(), Failed>
    ensures adds { Adds (holding K.Sink out.old held.old) (holding K.Sink out.new held.new)
        result (flat_map part_text parts.now) }
{
    write_each(out, held, "", parts)
}

// Writes the items in order, each after the same text.
fn write_each<K: Sink, T: WriteText>(
    out: &mut K,
    held: &mut Batch,
    before: &str,
    items: &[T],
) -> Result<(), Failed>
    ensures adds { Adds (holding K.Sink out.old held.old) (holding K.Sink out.new held.new)
        result (flat_map (after before.now T.text) items.now) }
{
    for item in items {
        write_after(out, held, before, item)?;
    }
    Ok(())
}

fn write_after<K: Sink, T: WriteText>(
    out: &mut K,
    held: &mut Batch,
    before: &str,
    item: &T,
) -> Result<(), Failed>
    ensures adds { Adds (holding K.Sink out.old held.old) (holding K.Sink out.new held.new)
        result (after before.now T.text item.now) }
{
    held.add(out, before.as_bytes())?;
    item.write_text(out, held)
}

fn write_number<K: Sink>(out: &mut K, held: &mut Batch, number: u64) -> Result<(), Failed>
    ensures adds { Adds (holding K.Sink out.old held.old) (holding K.Sink out.new held.new)
        result (decimal number) }
{
    let mut buffer = Buffer::new();
    held.add(out, buffer.format(number).as_bytes())
}

fn write_signed<K: Sink>(out: &mut K, held: &mut Batch, number: i64) -> Result<(), Failed>
    ensures adds { Adds (holding K.Sink out.old held.old) (holding K.Sink out.new held.new)
        result (signed_decimal number) }
{
    let mut digits = Buffer::new();
    held.add(out, digits.format(number).as_bytes())
}

#[tactic(auto, unfolding(crate::specs::Texts::h8))]
fn write_word<K: Sink>(out: &mut K, held: &mut Batch, word: u32) -> Result<(), Failed>
    ensures adds { Adds (holding K.Sink out.old held.old) (holding K.Sink out.new held.new)
        result (spec.h8 word) }
{
    let mut digits = [0u8; 8];
    let bytes = word.to_be_bytes();
    hex::encode_to_slice(bytes.as_slice(), &mut digits).unwrap();
    held.add(out, &digits)
}

#[tactic(auto, unfolding(crate::specs::Texts::status_text))]
fn write_status<K: Sink>(out: &mut K, held: &mut Batch, status: DomainStatus) -> Result<(), Failed>
    ensures adds { Adds (holding K.Sink out.old held.old) (holding K.Sink out.new held.new)
        result (spec.status_text status) }
{
    match status {
        DomainStatus::Running => held.add(out, b"running"),
        DomainStatus::Exited(code) => write_exited(out, held, code),
        DomainStatus::Stopped { code, pc, value } => write_stopped(out, held, code, pc, value),
    }
}

#[tactic(auto, unfolding(crate::specs::Texts::exited_text))]
fn write_exited<K: Sink>(out: &mut K, held: &mut Batch, code: u32) -> Result<(), Failed>
    ensures adds { Adds (holding K.Sink out.old held.old) (holding K.Sink out.new held.new)
        result (spec.exited_text code) }
{
    write_parts(
        out,
        held,
        &[Part::Text("exited "), Part::Number(u64::from(code))],
    )
}

#[tactic(auto, unfolding(crate::specs::Texts::stopped_text))]
fn write_stopped<K: Sink>(
    out: &mut K,
    held: &mut Batch,
    code: u8,
    pc: u32,
    value: u32,
) -> Result<(), Failed>
    ensures adds { Adds (holding K.Sink out.old held.old) (holding K.Sink out.new held.new)
        result (spec.stopped_text code pc value) }
{
    write_parts(
        out,
        held,
        &[
            Part::Text("stopped "),
            Part::Number(u64::from(code)),
            Part::Text(" pc "),
            Part::Hex(pc),
            Part::Text(" value "),
            Part::Hex(value),
        ],
    )
}

#[tactic(auto, unfolding(crate::specs::Texts::state_text))]
fn write_state<K: Sink>(out: &mut K, held: &mut Batch, of: ThreadState) -> Result<(), Failed>
    ensures adds { Adds (holding K.Sink out.old held.old) (holding K.Sink out.new held.new)
        result (spec.state_text of) }
{
    match of {
        ThreadState::Never => Ok(()),
        ThreadState::Ready => held.add(out, b"ready"),
        ThreadState::Waiting(line) => {
            write_after(out, held, "waiting ", &Part::Number(u64::from(line)))
        }
        ThreadState::Ended => held.add(out, b"ended"),
    }
}

#[tactic(auto, unfolding(crate::specs::Texts::registers_text))]
fn write_registers<K: Sink>(out: &mut K, held: &mut Batch, regs: &[u32]) -> Result<(), Failed>
    ensures adds { Adds (holding K.Sink out.old held.old) (holding K.Sink out.new held.new)
        result (spec.registers_text regs.now) }
{
    for (x, word) in regs.iter().enumerate() {
        write_register(out, held, x, *word)?;
    }
    Ok(())
}

#[tactic(auto, unfolding(crate::specs::Texts::register_text))]
fn write_register<K: Sink>(out: &mut K, held: &mut Batch, x: usize, word: u32) -> Result<(), Failed>
    ensures adds { Adds (holding K.Sink out.old held.old) (holding K.Sink out.new held.new)
        result (spec.register_text (x, word)) }
{
    if word == 0 {
        return Ok(());
    }
    write_parts(
        out,
        held,
        &[
            Part::Text(" x"),
            Part::Number(x as u64),
            Part::Text("="),
            Part::Hex(word),
        ],
    )
}

// A log of a view: how many items, the last, and the first 256.
trait Items<T> {
    ghost log: { Self → Log T };

    fn count(&self) -> u64
        ensures value { result ≡ (log self.now).count }
        ensures kept { IsKept (log self.now) };

    fn item(&self, i: u32) -> T
        requires within { i < min 256 (log self.now).count }
        ensures value { slice_get (log self.now).first i ≡ Some result };

    fn last(&self) -> T
        requires some { 0 < (log self.now).count }
        ensures value { (log self.now).last ≡ Some result };
}

#[derive(Drop)]
struct Readings<'a> {
    view: &'a View<'a>,
}

impl<'a> Items<u64> for Readings<'a> {
    ghost log = { λ readings. (view_model readings.view.now).readings };

    fn count(&self) -> u64 {
        self.view.readings()
    }

    fn item(&self, i: u32) -> u64 {
        self.view.reading(i)
    }

    fn last(&self) -> u64 {
        self.view.last_reading()
    }
}

#[derive(Drop)]
struct Replies<'a> {
    view: &'a View<'a>,
}

impl<'a> Items<Reply> for Replies<'a> {
    ghost log = { λ replies. (view_model replies.view.now).replies };

    fn count(&self) -> u64 {
        self.view.replies()
    }

    fn item(&self, i: u32) -> Reply {
        self.view.reply(i)
    }

    fn last(&self) -> Reply {
        self.view.last_reply()
    }
}

// The count, and where it isn't 0 the last and the kept ones.
fn write_log<K: Sink, T: WriteText + Copy, L: Items<T>>(
    out: &mut K,
    held: &mut Batch,
    log: &L,
) -> Result<(), Failed>
    ensures adds { Adds (holding K.Sink out.old held.old) (holding K.Sink out.new held.new)
        result (spec.log_text T.text (L.log log.now)) }
{
    let count = log.count();
    write_number(out, held, count)?;
    if count == 0 {
        return Ok(());
    }
    write_last(out, held, &log.last())?;
    write_kept(out, held, log, count.min(KEPT) as u32)
}

#[tactic(auto, unfolding(crate::specs::Texts::last_text, crate::specs::Texts::spaced))]
fn write_last<K: Sink, T: WriteText>(out: &mut K, held: &mut Batch, item: &T) -> Result<(), Failed>
    ensures adds { Adds (holding K.Sink out.old held.old) (holding K.Sink out.new held.new)
        result (spec.last_text T.text (Some item.now)) }
{
    write_after(out, held, " last ", item)?;
    held.add(out, b" list")
}

// Writes the items that a log keeps, `len` of them.
fn write_kept<K: Sink, T: WriteText + Copy, L: Items<T>>(
    out: &mut K,
    held: &mut Batch,
    log: &L,
    len: u32,
) -> Result<(), Failed>
    requires kept { IsKept (L.log log.now) }
    requires all { len ≡ min 256 (L.log log.now).count }
    ensures adds { Adds (holding K.Sink out.old held.old) (holding K.Sink out.new held.new)
        result (flat_map (spec.spaced T.text) (L.log log.now).first) }
{
    for i in 0..len {
        write_after(out, held, " ", &log.item(i))?;
    }
    Ok(())
}

#[tactic(auto, unfolding(crate::specs::Texts::bytes_text))]
fn write_bytes<K: Sink>(out: &mut K, held: &mut Batch, bytes: &[u8]) -> Result<(), Failed>
    ensures adds { Adds (holding K.Sink out.old held.old) (holding K.Sink out.new held.new)
        result (spec.bytes_text bytes.now) }
{
    if bytes.is_empty() {
        return Ok(());
    }
    held.add(out, b" ")?;
    write_digits(out, held, bytes)
}

// Writes bytes in hexadecimal.
fn write_digits<K: Sink>(out: &mut K, held: &mut Batch, bytes: &[u8]) -> Result<(), Failed>
    ensures adds { Adds (holding K.Sink out.old held.old) (holding K.Sink out.new held.new)
        result (encode_lower bytes.now) }
{
    let mut sent = 0;
    while sent < bytes.len() {
        let next = bytes.len().min(sent + CHUNK);
        write_chunk(out, held, &bytes[sent..next])?;
        sent = next;
    }
    Ok(())
}

fn write_chunk<K: Sink>(out: &mut K, held: &mut Batch, bytes: &[u8]) -> Result<(), Failed>
    requires few { length bytes.now ≤ CHUNK }
    ensures adds { Adds (holding K.Sink out.old held.old) (holding K.Sink out.new held.new)
        result (encode_lower bytes.now) }
{
    let mut buffer = [0u8; 2 * CHUNK];
    let digits = &mut buffer[..2 * bytes.len()];
    hex::encode_to_slice(bytes, digits).unwrap();
    held.add(out, digits)
}
