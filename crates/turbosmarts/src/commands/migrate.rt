ghost use Rattle.smarts_base.specs.Outcome.{Answers};
ghost use Rattle.turbosmarts.specs.commands.Migrate.{migrate_result};

use crate::fault::InputFault;
use crate::stages::{library_in, write_library};
use crate::written::Written;
use livepoint_format::migrate;
use smarts_base::Refusal;
use std::alloc::Global;

/// The library in the input with a table of shared words, or the first fault: of the library, of the new one's
/// length.
#[tactic(auto, unfolding(crate::specs::commands::Migrate::migrate_result), using(crate::proofs::LibraryLemmas::migrated_is))]
pub fn answer(alloc: Global, input: &[u8]) -> Result<Written, Refusal<InputFault>>
    ensures { Answers (λ written. written) result (migrate_result input.now) }
{
    let library = library_in(alloc, input)?;
    let library = migrate(alloc, library)?;
    write_library(alloc, &library)
}
