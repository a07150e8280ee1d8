ghost use Rattle.std.specs.Prelude.{◌≤◌};
ghost use Rattle.confidence.specs.Confidence.{IsInRange};
ghost use Rattle.hierarchy.specs.Config.{IsConfig};
ghost use Rattle.sample_design.specs.Design.{IsUsable};
ghost use Rattle.smarts_base.specs.Outcome.{Answers};
ghost use Rattle.turbosmarts.specs.commands.Demo.{demo_result};

use super::sample;
use crate::fault::InputFault;
use crate::written::Written;
use confidence::Test;
use hierarchy::Config;
use image_maker::make_image;
use sample_design::Design;
use smarts_base::Refusal;
use std::alloc::Global;

/// The report of a sample of the program that is made from the size and the design's seed.
pub fn answer(
    alloc: Global,
    size: u32,
    design: &Design,
    config: &Config,
    test: &Test,
) -> Result<Written, Refusal<InputFault>>
    requires least { 1 ≤ size }
    requires most { size ≤ 1000000 }
    requires design { IsUsable design.now }
    requires config { IsConfig config.now }
    requires test { IsInRange test.now }
    ensures { Answers (λ written. written) result (demo_result size design.now config.now test.now) }
{
    let image = make_image(alloc, size, design.seed)?;
    sample::answer(alloc, design, config, test, &image)
}
