ghost use Rattle.image_maker.specs.Runs.{EachRunsToItsEnd};

/// A law of the files that are made: each is read as an image, and its program exits with code 0
/// after 258 instructions in each turn, with five before the first and three behind the last. So a
/// budget of `258 * size + 8` is enough.
#[tactic(auto, using(crate::proofs::Ending::each_runs))]
pub fn runs_to_its_end()
    ensures { EachRunsToItsEnd }
{}
