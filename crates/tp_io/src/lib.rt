//! Where bytes come from and go to.
//!
//! A `Source` gives bytes and a `Sink` takes them, in as many calls as they
//! like. Each counts its faults: a call answers `Failed` only where the count
//! rose, and every other call leaves the count, so that a caller can tell from
//! the two counts alone whose fault ended it.
//!
//! Each also tells its bytes, what a source has `left` and what a sink has
//! `written`, where it can. A **silent** object tells nothing: its bytes are
//! `None` before and after each call, and every clause that names them says
//! nothing of content, though counts and lengths still hold. The adapters over
//! std's readers and writers are silent, since no proof knows what the world
//! outside gives or keeps; the objects in memory tell everything.
//!
//! A sink also tells how many more bytes it `sure`ly takes, where it can: it
//! doesn't fail for a text that is no longer, and has that much less left to
//! promise. An adapter promises nothing, and a sink in memory all its room,
//! unless some of its calls are to fail.
#![tactic(auto)]

mod calls;
mod mem_sink;
mod mem_source;
mod send;
mod sink;
mod source;
mod std_streams;
mod sure_source;

pub use mem_sink::MemSink;
pub use mem_source::MemSource;
pub use send::write_all_of;
pub use sink::Sink;
pub use source::{ReadError, Source, read_within};
pub use std_streams::StdStream;
pub use sure_source::SureSource;
use thiserror::Error;

/// A read or a write failed; the object's count of faults rose.
#[derive(Clone, Copy, Debug, PartialEq, Eq, Error)]
#[error("a read or a write failed")]
pub struct Failed;
