ghost use Rattle.std.specs.Prelude.{◌≡◌};
ghost use Rattle.turbosmarts.specs.Stages.{Written as WrittenValue, written_as};

use crate::ending::Exit;
use std::marker::Model;

/// What a command writes, and how the program exited where it was run for its output.
#[derive(Debug, Drop)]
pub struct Written {
    bytes: Vec<u8>,
    exit: Option<Exit>,
}

impl Model for Written {
    ghost Value = { WrittenValue };

    ghost view = { λ w. written_as w.bytes.items w.exit };
}

impl Written {
    pub fn new(bytes: Vec<u8>, exit: Option<Exit>) -> Written
        ensures { result ≡ written_as bytes.items exit }
    {
        Written { bytes, exit }
    }

    pub fn bytes(&self) -> &[u8]
        ensures { result.now ≡ self.now.bytes }
    {
        &self.bytes
    }

    pub fn exit(&self) -> Option<Exit>
        ensures { result ≡ self.now.exit }
    {
        self.exit
    }
}
