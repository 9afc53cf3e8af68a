// The state of one domain.
ghost use Rattle.std.specs.Prelude.{◌≡◌, ◌≤◌, [], IfOk, vec_capacity};
ghost use Rattle.call_table.specs.Domain.{Dom};
ghost use Rattle.kernel_call.specs.Logs.{log_of};
ghost use Rattle.kernel_call.specs.LogModel.{log_model};

use crate::Log;
use call_table::{DomainStatus, Reply};
use cap_table::CapTable;
use frame_colours::{Frame, Held, Pool, Table};
use irq_partition::IrqPart;
use kernel_clone::CloneLayout;
use page_map::PageMap;
use std::alloc::Global;
use thread_set::ThreadSet;
use tp_base::{DomainNo, Memory};

/// The most bytes that a domain prints.
pub const PRINTED: usize = 4096;

/// The state of a domain, with room for all that it may keep.
#[derive(Drop)]
pub struct Domain {
    pub status: DomainStatus,
    pub threads: ThreadSet,
    /// Its capabilities, which own the frames that they name.
    pub caps: CapTable,
    pub interrupts: IrqPart,
    /// Its page tables, by their root.
    pub map: PageMap,
    /// The frames of its share, and which of them are used as nothing.
    pub pool: Pool,
    /// The tables that it began with, by ascending regions.
    pub tables: Vec<Frame<Table>>,
    /// The frames that it keeps for good: those of its kernel clone, then the
    /// pages that no capability named at first.
    pub kept: Vec<Frame<Held>>,
    pub layout: CloneLayout,
    /// The calls that it may make, a bit each: bit n is that of call n.
    pub calls: u32,
    /// Its number in the image.
    pub number: DomainNo,
    /// Instructions.
    pub retired: u64,
    /// Of the counters.
    pub readings: Log<u64>,
    /// Of kernel calls.
    pub replies: Log<Reply>,
    pub printed: Vec<u8>,
    ghost room: { 4096 ≤ vec_capacity printed },
}

/// What a domain begins with.
#[derive(Drop)]
pub struct Beginning {
    pub pool: Pool,
    pub tables: Vec<Frame<Table>>,
    pub kept: Vec<Frame<Held>>,
    pub caps: CapTable,
    pub map: PageMap,
    pub interrupts: IrqPart,
    pub threads: ThreadSet,
    pub layout: CloneLayout,
    /// The calls that it may make, a bit each.
    pub calls: u32,
    /// Its number in the image.
    pub number: DomainNo,
}

impl Domain {
    ghost use Rattle.kernel_call.specs.Models.{IsNew};

    /// A running domain of these parts, that has done nothing yet.
    ///
    /// # Errors
    /// `Memory` where no memory is left for its logs.
    pub fn new(alloc: Global, begin: Beginning) -> Result<Domain, Memory>
        ensures made { IfOk result IsNew }
        ensures pool { IfOk result (λ d. d.pool ≡ begin.pool) }
        ensures tables { IfOk result (λ d. d.tables ≡ begin.tables) }
        ensures kept { IfOk result (λ d. d.kept ≡ begin.kept) }
        ensures caps { IfOk result (λ d. d.caps ≡ begin.caps) }
        ensures map { IfOk result (λ d. d.map ≡ begin.map) }
        ensures interrupts { IfOk result (λ d. d.interrupts ≡ begin.interrupts) }
        ensures threads { IfOk result (λ d. d.threads ≡ begin.threads) }
        ensures layout { IfOk result (λ d. d.layout ≡ begin.layout) }
        ensures calls { IfOk result (λ d. d.calls ≡ begin.calls) }
        ensures number { IfOk result (λ d. d.number ≡ begin.number) }
    {
        let (readings, replies, printed) = logs(alloc)?;
        Ok(Domain {
            status: DomainStatus::Running,
            threads: begin.threads,
            caps: begin.caps,
            interrupts: begin.interrupts,
            map: begin.map,
            pool: begin.pool,
            tables: begin.tables,
            kept: begin.kept,
            layout: begin.layout,
            calls: begin.calls,
            number: begin.number,
            retired: 0,
            readings,
            replies,
            printed,
        })
    }
}

// What a domain keeps of its readings, its replies and what it prints: nothing yet.
fn logs(alloc: Global) -> Result<(Log<u64>, Log<Reply>, Vec<u8>), Memory>
    ensures readings { IfOk result (λ made. log_model made.0 ≡ log_of []) }
    ensures replies { IfOk result (λ made. log_model made.1 ≡ log_of []) }
    ensures printed { IfOk result (λ made. made.2.items ≡ []) }
    ensures room { IfOk result (λ made. PRINTED ≤ vec_capacity made.2) }
{
    Ok((
        Log::new(alloc)?,
        Log::new(alloc)?,
        Vec::with_capacity(alloc, PRINTED)?,
    ))
}
