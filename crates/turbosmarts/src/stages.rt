ghost use Rattle.std.specs.Prelude.{◌≡◌, None, IfOk};
ghost use Rattle.elf_image.specs.Image.{image_of};
ghost use Rattle.livepoint_format.specs.Decoding.{library_of};
ghost use Rattle.livepoint_format.specs.Format.{spelling};
ghost use Rattle.rv_machine.specs.declared.outcome.Outcome.TheVariants.{Exited};
ghost use Rattle.rv_machine.specs.Machine.{started};
ghost use Rattle.smarts_base.specs.Outcome.{Answers};
ghost use Rattle.turbosmarts.specs.Stages.{exit_or_fault, image_or_fault, library_or_fault, library_written};

use crate::ending::Exit;
use crate::fault::InputFault;
use crate::written::Written;
use elf_image::{Image, read_image};
use livepoint_format::{Library, decode_library, encode_library, encoded_len};
use rv_machine::{Outcome, Whole};
use smarts_base::{NoMemory, Refusal};
use smarts_text::DesignFault;
use std::alloc::Global;

/// The most bytes of a library.
pub const LIBRARY_LIMIT: usize = 1_073_741_824;

/// The image in the input.
pub fn image_in(alloc: Global, input: &[u8]) -> Result<Image, Refusal<InputFault>>
    ensures { Answers (λ image. image) result (image_or_fault (image_of input.now)) }
{
    match read_image(alloc, input) {
        Ok(image) => Ok(image),
        Err(Refusal::Fault(fault)) => Err(Refusal::Fault(InputFault::BadImage(fault))),
        Err(Refusal::NoMemory) => Err(Refusal::NoMemory),
    }
}

/// The machine before the first instruction of an image, which is let go: the machine has its own
/// words.
pub fn machine_of(alloc: Global, image: Image, keep_output: bool) -> Result<Whole, NoMemory>
    ensures started { IfOk result (λ whole. whole ≡ started image keep_output) }
    ensures running { IfOk result (λ whole. whole.state.exit ≡ None) }
{
    Whole::new(alloc, &image, keep_output)
}

/// How the program exited, where it did.
pub fn exit_of(outcome: &Outcome, budget: u64) -> Result<Exit, Refusal<InputFault>>
    ensures value { Answers (λ exit. exit) result (exit_or_fault budget outcome.now) }
    ensures exited { IfOk result (λ exit. outcome.now ≡ Exited exit.code exit.length) }
{
    match *outcome {
        Outcome::Exited { code, length } => Ok(Exit { code, length }),
        Outcome::Trapped { at, trap } => Err(Refusal::Fault(InputFault::Trapped { at, trap })),
        Outcome::Spent => Err(Refusal::Fault(InputFault::BudgetSpent { budget })),
    }
}

/// The library in the input.
pub fn library_in(alloc: Global, input: &[u8]) -> Result<Library, Refusal<InputFault>>
    ensures { Answers (λ library. library) result (library_or_fault (library_of input.now)) }
{
    match decode_library(alloc, input) {
        Ok(library) => Ok(library),
        Err(Refusal::Fault(fault)) => Err(Refusal::Fault(InputFault::BadLibrary(fault))),
        Err(Refusal::NoMemory) => Err(Refusal::NoMemory),
    }
}

/// The bytes of a library, where they aren't too many: these are counted before any is written.
#[tactic(auto, unfolding(crate::specs::Stages::library_written))]
pub fn write_library(alloc: Global, library: &Library) -> Result<Written, Refusal<InputFault>>
    ensures { Answers (λ written. written) result (library_written (spelling library.now)) }
{
    let length = encoded_len(library);
    if length > LIBRARY_LIMIT as u64 {
        return Err(Refusal::Fault(InputFault::BadDesign(DesignFault::LibraryTooLarge { length })));
    }
    let bytes = encode_library(alloc, library)?;
    Ok(Written::new(bytes, None))
}
