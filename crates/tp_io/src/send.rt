// Whole pieces, which a sink takes in as many calls as it likes.
ghost use Rattle.std.specs.Prelude.{◌≡◌, []};
ghost use Rattle.tp_io.specs.Sends.{Sends};
ghost use Rattle.tp_io.specs.Sink.{state};

use crate::{Failed, Sink};

/// Appends the whole piece. An empty piece is no call of the sink.
///
/// # Errors
///
/// `Failed` where the sink failed: its count of faults rose, a front of the
/// piece was appended, and the piece is longer than what the sink surely takes.
pub fn write_all_of<K: Sink>(out: &mut K, piece: &[u8]) -> Result<(), Failed>
    ensures sends { Sends (state K.Sink out.old) (state K.Sink out.new) result piece.now }
    ensures untouched { piece.now ≡ [] → out.new ≡ out.old }
{
    let mut sent = 0;
    while sent < piece.len() {
        sent += out.write(&piece[sent..])?;
    }
    Ok(())
}
