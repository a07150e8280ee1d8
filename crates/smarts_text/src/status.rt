use crate::read::WordFault;
use elf_image::ImageFault;
use livepoint_format::LibraryFault;
use rv_exec::Trap;

/// Why there is no sample by the design that is asked for, or no estimate of the processor.
#[derive(Clone, Copy, Debug, PartialEq, Eq)]
pub enum DesignFault {
    /// No sampled unit ends within the run of this many instructions.
    NoUnits { length: u64 },
    /// There are this many sampled units, more than 65,536.
    TooMany { count: u64 },
    /// The library that would be written has this many bytes, more than 1,073,741,824.
    LibraryTooLarge { length: u64 },
    /// The library's records don't serve the processor: 0 to 4, the first cache of instructions, that of data, the
    /// second cache, the TLB of instructions or that of data has another line, or more sets or ways; 5, the
    /// predictor's kind isn't among those of the library.
    Beyond { structure: u8 },
}

/// How a call of the program ended.
#[derive(Clone, Copy, Debug, PartialEq, Eq)]
pub enum Status {
    Done,
    /// The words of the command line are at fault.
    BadWords(WordFault),
    /// The input is no image that can run.
    BadImage(ImageFault),
    /// The instruction of this number, counted from 0, trapped.
    Trapped { at: u64, trap: Trap },
    /// This many instructions ran with neither exit nor trap.
    BudgetSpent { budget: u64 },
    /// The input is no library.
    BadLibrary(LibraryFault),
    /// The run has no sample by the design, its library can't be written, or the library doesn't serve the processor.
    BadDesign(DesignFault),
    /// The source failed.
    ReadFault,
    /// The sink failed after it took this many bytes.
    WriteFault { taken: u64 },
    /// Memory could not be had.
    NoMemory,
}

impl Status {
    ghost use Rattle.std.specs.Prelude.{◌≡◌};
    ghost use Rattle.smarts_text.specs.Status.{status_number};

    /// The number that the process ends with.
    pub fn number(&self) -> u8
        ensures { result ≡ status_number self.now }
    {
        match self {
            Status::Done => 0,
            Status::BadWords(_) => 1,
            Status::BadImage(_) => 2,
            Status::Trapped { .. } => 3,
            Status::BudgetSpent { .. } => 4,
            Status::BadLibrary(_) => 5,
            Status::BadDesign(_) => 6,
            Status::ReadFault => 7,
            Status::WriteFault { .. } => 8,
            Status::NoMemory => 9,
        }
    }
}
