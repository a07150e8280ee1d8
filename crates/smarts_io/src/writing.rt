ghost use Rattle.std.specs.Prelude.{◌≡◌, ◌<◌, ◌≤◌, ◌+◌, ℕ, List, length, take, IfErr, OnOk, OnErr, Result};
ghost use Rattle.smarts_io.specs.Bytes.{Takes};
ghost use Rattle.smarts_io.specs.Causes.{HasCause};

use crate::Sink;

/// A sink failed before it took everything.
#[derive(Clone, Copy, Debug, PartialEq, Eq)]
pub struct WriteFailed {
    /// How many bytes of the piece the sink took.
    pub taken: u64,
}

/// Writes the whole piece. A failure tells how many of its bytes the sink took, fewer than all.
pub fn write_all<K: Sink>(sink: &mut K, piece: &[u8]) -> Result<(), WriteFailed>
    ensures ok { OnOk result (Takes (K.taken sink.old) piece.now (K.taken sink.new)) }
    ensures front { IfErr result (λ e.
        Takes (K.taken sink.old) (take e.taken piece.now) (K.taken sink.new)) }
    ensures short { IfErr result (λ e. e.taken < length piece.now) }
    ensures cause { HasCause (K.faults sink.old) (K.faults sink.new) result }
{
    let mut done: usize = 0;
    while done < piece.len() {
        match sink.write(&piece[done..]) {
            Ok(count) => done += count,
            Err(_) => return Err(WriteFailed { taken: done as u64 }),
        }
    }
    Ok(())
}
