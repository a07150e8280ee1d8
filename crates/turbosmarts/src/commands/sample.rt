ghost use Rattle.std.specs.Prelude.{◌≡◌, ◌<◌, ◌≤◌, ℕ, None, All, IfOk, length, slice_index};
ghost use Rattle.confidence.specs.Confidence.{IsInRange};
ghost use Rattle.confidence.specs.declared.answer.Answer.TheVariants.{Cycles};
ghost use Rattle.confidence.specs.Sums.{IsCycles};
ghost use Rattle.hierarchy.specs.declared.config.Config.{Config as ConfigValue};
ghost use Rattle.hierarchy.specs.Config.{IsConfig};
ghost use Rattle.rv_exec.specs.Machine.{State};
ghost use Rattle.rv_machine.specs.declared.outcome.Outcome.TheVariants.{Exited};
ghost use Rattle.rv_machine.specs.Outcome.{outcome_of};
ghost use Rattle.sample_design.specs.Design.{IsUsable};
ghost use Rattle.sample_design.specs.Units.{EndsWithin, sampled_unit, units_of};
ghost use Rattle.smarts_base.specs.Outcome.{Answers};
ghost use Rattle.turbosmarts.specs.commands.Sample.{report_on, sample_result, units_or_fault};
ghost use Rattle.turbosmarts.specs.Measuring.{AreMeasured};
ghost use Rattle.unit_answers.specs.Answers.{unit_answers, whole_answer};

use crate::fault::InputFault;
use crate::folding::fold_in_order;
use crate::measuring::{Measured, measure};
use crate::out_of_order::OutOfOrder;
use crate::scalar::Scalar;
use crate::stages::{exit_of, image_in, machine_of};
use crate::written::Written;
use confidence::Test;
use hierarchy::Config;
use rv_machine::Whole;
use sample_design::{Design, UnitsFault, visit_order};
use smarts_base::{NoMemory, Refusal};
use smarts_text::{DesignFault, report_text};
use std::alloc::Global;

/// The report of a sample of the program in the input, or the first fault: of the image, of its run, of its units.
#[tactic(auto, unfolding(crate::specs::commands::Sample::sample_result))]
pub fn answer(
    alloc: Global,
    design: &Design,
    config: &Config,
    test: &Test,
    input: &[u8],
) -> Result<Written, Refusal<InputFault>>
    requires design { IsUsable design.now }
    requires config { IsConfig config.now }
    requires test { IsInRange test.now }
    ensures { Answers (λ written. written) result (sample_result design.now config.now test.now input.now) }
{
    let image = image_in(alloc, input)?;
    let mut whole = machine_of(alloc, image, false)?;
    let measured = measured_on(alloc, &mut whole, design, config)?;
    let exit = exit_of(&measured.outcome, design.budget)?;
    let count = count_in(design, exit.length)?;
    let report = report_on(alloc, design, test, exit.length, count, &measured.cycles)?;
    Ok(Written::new(report, None))
}

// How the run ends, and the cycles of its sampled units on the processor that is asked for.
fn measured_on(
    alloc: Global,
    whole: &mut Whole,
    design: &Design,
    config: &Config,
) -> Result<Measured, NoMemory>
    requires running { whole.old.state.exit ≡ None }
    requires design { IsUsable design.now }
    requires config { IsConfig config.now }
    ensures outcome { IfOk result (λ measured.
        measured.outcome ≡ outcome_of whole.old.state design.now.budget) }
    ensures units { IfOk result (λ measured. (code len : ℕ) → measured.outcome ≡ Exited code len →
        AreMeasured config.now whole.old.state design.now len measured.cycles.items) }
{
    if config.ruu {
        let longest = design.warm + design.unit;
        let mut processor = OutOfOrder::new(alloc, config, longest)?;
        measure(alloc, whole, design, &mut processor)
    } else {
        let mut processor = Scalar::new(config);
        measure(alloc, whole, design, &mut processor)
    }
}

// The report on a run of that length with so many sampled units, of these cycles.
#[tactic(auto, using(crate::proofs::SampleLemmas::report_is))]
fn report_on(
    alloc: Global,
    design: &Design,
    test: &Test,
    instructions: u64,
    count: u32,
    cycles: &[u32],
) -> Result<Vec<u8>, NoMemory>
    requires design { IsUsable design.now }
    requires test { IsInRange test.now }
    requires some { 0 < count }
    requires few { count ≤ 65536 }
    requires units { (p : ℕ) → p < count → p < length cycles.now }
    requires cycles { (p : ℕ) → p < length cycles.now → IsCycles (slice_index cycles.now p) }
    ensures { (config : ConfigValue) (start : State)
        → ((p : ℕ) → p < count → whole_answer config start design.now (sampled_unit design.now p) ≡ Cycles (slice_index cycles.now p))
        → IfOk result (λ report. report.items ≡ report_on design.now test.now instructions count
        (unit_answers config start design.now count)) }
{
    let order = visit_order(alloc, count, design.seed)?;
    let front = fold_in_order(cycles, &order, test);
    let text = report_text(
        alloc,
        instructions,
        count,
        design.unit,
        front.ending(),
        front.sums(),
        test.z,
    )?;
    Ok(text.into_bytes())
}

fn count_in(design: &Design, length: u64) -> Result<u32, Refusal<InputFault>>
    requires { IsUsable design.now }
    ensures value { Answers (λ n. n) result (units_or_fault (units_of design.now length)) }
    ensures some { IfOk result (λ n. 0 < n) }
    ensures few { IfOk result (λ n. n ≤ 65536) }
    ensures within { IfOk result (λ n. (p : ℕ) → p < n → EndsWithin design.now length (sampled_unit design.now p)) }
{
    match design.units(length) {
        Ok(count) => Ok(count),
        Err(UnitsFault::NoUnits { length }) => Err(Refusal::Fault(InputFault::BadDesign(
            DesignFault::NoUnits { length },
        ))),
        Err(UnitsFault::TooMany { count }) => Err(Refusal::Fault(InputFault::BadDesign(
            DesignFault::TooMany { count },
        ))),
    }
}
