ghost use Rattle.smarts_base.specs.Outcome.{Answers};
ghost use Rattle.turbosmarts.specs.commands.Run.{run_result};

use crate::fault::InputFault;
use crate::stages::{exit_of, image_in, machine_of};
use crate::written::Written;
use smarts_base::Refusal;
use std::alloc::Global;

/// The output of the program in the input, or the first fault: of the image, of its run.
#[tactic(auto, unfolding(crate::specs::commands::Run::run_result))]
pub fn answer(alloc: Global, budget: u64, input: &[u8]) -> Result<Written, Refusal<InputFault>>
    ensures { Answers (λ written. written) result (run_result budget input.now) }
{
    let image = image_in(alloc, input)?;
    let mut whole = machine_of(alloc, image, true)?;
    let outcome = whole.run(budget)?;
    let exit = exit_of(&outcome, budget)?;
    Ok(Written::new(whole.into_output(), Some(exit)))
}
