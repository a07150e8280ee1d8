ghost use Rattle.std.specs.Prelude.{◌<◌, List, ℕ, Option, length};
ghost use Rattle.smarts_io.specs.Bytes.{Reads};
ghost use Rattle.smarts_io.specs.Causes.{HasCause};

/// A read or a write failed outside the program.
#[derive(Clone, Copy, Debug, PartialEq, Eq)]
pub struct Failed;

/// Where bytes come from.
pub trait Source {
    /// The bytes still to come, where the source tells them.
    ghost rest: { Self → Option (List ℕ) };

    /// How often the source has failed.
    ghost faults: { Self → ℕ };

    /// Fills the front of the buffer and answers how many bytes it put there. 0 is the end of the input.
    fn read(&mut self, buf: &mut [u8]) -> Result<usize, Failed>
        requires { 0 < length buf.old }
        ensures bytes { Reads (rest self.old) (rest self.new) result buf.new }
        ensures cause { HasCause (faults self.old) (faults self.new) result };
}
