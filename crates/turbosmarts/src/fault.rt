ghost use Rattle.std.specs.Prelude.{◌≡◌};
ghost use Rattle.turbosmarts.specs.Fault.{status_of};

use elf_image::ImageFault;
use livepoint_format::LibraryFault;
use rv_exec::Trap;
use smarts_text::{DesignFault, Status};

/// A fault of the input, or of what the program in it does.
#[derive(Clone, Copy, Debug, PartialEq, Eq)]
pub enum InputFault {
    /// The input is no image that can be run.
    BadImage(ImageFault),
    /// The input is no library.
    BadLibrary(LibraryFault),
    /// The instruction of that number, counted from 0, trapped.
    Trapped { at: u64, trap: Trap },
    /// So many instructions ran with neither exit nor trap.
    BudgetSpent { budget: u64 },
    /// The units of the run can't be sampled, or the library would be too long.
    BadDesign(DesignFault),
}

/// The end that a fault of the input is.
pub fn status_of(fault: InputFault) -> Status
    ensures { result ≡ status_of fault }
{
    match fault {
        InputFault::BadImage(fault) => Status::BadImage(fault),
        InputFault::BadLibrary(fault) => Status::BadLibrary(fault),
        InputFault::Trapped { at, trap } => Status::Trapped { at, trap },
        InputFault::BudgetSpent { budget } => Status::BudgetSpent { budget },
        InputFault::BadDesign(fault) => Status::BadDesign(fault),
    }
}
