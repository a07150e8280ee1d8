ghost use Rattle.std.specs.Prelude.{◌≡◌};
ghost use Rattle.smarts_base.specs.Outcome.{Answers};
ghost use Rattle.sample_design.specs.Design.{IsUsable};
ghost use Rattle.turbosmarts.specs.commands.Warm.{warm_result, run_fault};
ghost use Rattle.warming.specs.Learning.{AreUsable};

use crate::fault::InputFault;
use crate::stages::{image_in, write_library};
use crate::written::Written;
use live_points::Records;
use sample_design::{Design, UnitsFault};
use smarts_base::Refusal;
use smarts_text::DesignFault;
use std::alloc::Global;
use warming::{WarmFault, warm};

// Why there is no library of a run.
fn fault_of(fault: WarmFault, budget: u64) -> InputFault
    ensures { result ≡ run_fault budget fault }
{
    match fault {
        WarmFault::Trapped { at, trap } => InputFault::Trapped { at, trap },
        WarmFault::Spent => InputFault::BudgetSpent { budget },
        WarmFault::Units(UnitsFault::NoUnits { length }) => {
            InputFault::BadDesign(DesignFault::NoUnits { length })
        }
        WarmFault::Units(UnitsFault::TooMany { count }) => {
            InputFault::BadDesign(DesignFault::TooMany { count })
        }
    }
}

/// The library of the run of the program in the input, or the first fault: of the image, of its run, of its units, of
/// the library's length.
#[tactic(auto, unfolding(crate::specs::commands::Warm::warm_result))]
pub fn answer(
    alloc: Global,
    design: &Design,
    records: &Records,
    input: &[u8],
) -> Result<Written, Refusal<InputFault>>
    requires design { IsUsable design.now }
    requires records { AreUsable records.now }
    ensures { Answers (λ written. written) result (warm_result design.now records.now input.now) }
{
    let image = image_in(alloc, input)?;
    let library = match warm(alloc, &image, design, records) {
        Ok(library) => library,
        Err(Refusal::Fault(fault)) => return Err(Refusal::Fault(fault_of(fault, design.budget))),
        Err(Refusal::NoMemory) => return Err(Refusal::NoMemory),
    };
    write_library(alloc, &library)
}
