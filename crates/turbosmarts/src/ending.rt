ghost use Rattle.std.specs.Prelude.{◌≡◌, ◌≤◌, take};
ghost use Rattle.turbosmarts.specs.Ending.{end_line};

use smarts_text::{Status, exit_text, fault_text};

/// How a program exited.
#[derive(Clone, Copy, Debug, PartialEq, Eq)]
pub struct Exit {
    pub code: u32,
    /// How many instructions it ran, the exit counted.
    pub length: u64,
}

/// How a call of the program ended.
#[derive(Clone, Copy, Debug, PartialEq, Eq)]
pub struct End {
    pub status: Status,
    /// How the program exited that was run, where a run is done.
    pub exit: Option<Exit>,
}

impl End {
    /// An end of which nothing is told but its fault.
    pub fn of(status: Status) -> End
        ensures status { result.status ≡ status }
        ensures exit { result.exit ≡ None }
    {
        End { status, exit: None }
    }

    /// Writes what is told of the end to the front of `out`, and answers its length.
    pub fn text(&self, out: &mut [u8; 64]) -> usize
        ensures length { result ≤ 64 }
        ensures text { take result out.new ≡ end_line self.now.status self.now.exit }
    {
        match &self.exit {
            Some(exit) => exit_text(exit.code, exit.length, out),
            None => fault_text(&self.status, out),
        }
    }
}
