ghost use Rattle.turbosmarts.specs.Telling.{TakesFront};

use smarts_io::{Sink, write_all};

/// Tells a text to the sink, and leaves it where the sink failed: the end stands already.
pub fn tell<F: Sink>(lines: &mut F, text: &[u8])
    ensures { TakesFront text.now (F.taken lines.old) (F.taken lines.new) (F.faults lines.old) (F.faults lines.new) }
{
    let _ = write_all(lines, text);
}
