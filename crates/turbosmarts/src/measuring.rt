ghost use Rattle.std.specs.Prelude.{◌≡◌, ◌≤◌, ◌<◌, ◌+◌, ℕ, None, [], IfOk, OnOk, length};
ghost use Rattle.hierarchy.specs.Config.{IsConfig};
ghost use Rattle.rv_machine.specs.declared.outcome.Outcome.TheVariants.{Exited};
ghost use Rattle.rv_machine.specs.Machine.{Machine};
ghost use Rattle.rv_machine.specs.Outcome.{outcome_of};
ghost use Rattle.sample_design.specs.Design.{IsUsable};
ghost use Rattle.turbosmarts.specs.Measuring.{AreMeasured, HasCome, IsPart};
ghost use Rattle.turbosmarts.specs.Processor.{events_to};

use crate::meter::Meter;
use crate::processor::Processor;
use rv_exec::Trap;
use rv_machine::{MachineFault, Outcome, Whole};
use sample_design::Design;
use smarts_base::NoMemory;
use std::alloc::Global;

/// How a run ended, and the cycles of its sampled units.
#[derive(Debug, Drop)]
pub struct Measured {
    pub outcome: Outcome,
    /// One number for each sampled unit in the order of the run, up to the most that are kept.
    pub cycles: Vec<u32>,
}

/// How a part of a run ended.
#[derive(Clone, Copy, Debug)]
pub enum PartEnd {
    /// As many instructions ran as were asked for, and the program goes on.
    Full,
    /// The program exited with this code.
    Exited(u32),
    Trapped(Trap),
}

/// What came of a part of a run.
#[derive(Clone, Copy, Debug)]
pub struct Part {
    /// How many instructions ran; an exit counts, and a trap doesn't.
    pub ran: u32,
    pub end: PartEnd,
}

/// Runs the program for at most the design's budget, shows it to the processor, and asks for the cycles of its
/// sampled units on the way. It keeps no more of the run than one number a unit.
pub fn measure<P: Processor>(
    alloc: Global,
    whole: &mut Whole,
    design: &Design,
    processor: &mut P,
) -> Result<Measured, NoMemory>
    requires running { whole.old.state.exit ≡ None }
    requires design { IsUsable design.now }
    requires config { IsConfig (P.config processor.old) }
    requires longest { design.now.warm + design.now.unit ≤ P.longest processor.old }
    requires shown { P.shown processor.old 0 [] }
    ensures outcome { IfOk result (λ measured.
        measured.outcome ≡ outcome_of whole.old.state design.now.budget) }
    ensures units { IfOk result (λ measured. (code len : ℕ) → measured.outcome ≡ Exited code len →
        AreMeasured (P.config processor.old) whole.old.state design.now len measured.cycles.items) }
{
    let mut meter = Meter::new(alloc, design);
    let size = u64::from(design.unit);
    for unit in 0..design.budget.div_ceil(size) {
        let begin = unit * size;
        let len = size.min(design.budget - begin) as u32;
        processor.begin_unit();
        let part = run_part(whole, len, processor)?;
        meter.take(design, unit, part.ran, processor)?;
        let ran = begin + u64::from(part.ran);
        match part.end {
            PartEnd::Full => {}
            PartEnd::Exited(code) => {
                return Ok(Measured {
                    outcome: Outcome::Exited { code, length: ran },
                    cycles: meter.into_cycles(),
                });
            }
            PartEnd::Trapped(trap) => {
                return Ok(Measured {
                    outcome: Outcome::Trapped { at: ran, trap },
                    cycles: meter.into_cycles(),
                });
            }
        }
    }
    Ok(Measured {
        outcome: Outcome::Spent,
        cycles: meter.into_cycles(),
    })
}

// Runs at most `len` instructions.
fn run_part<P: Processor>(whole: &mut Whole, len: u32, processor: &mut P) -> Result<Part, NoMemory>
    requires running { whole.old.state.exit ≡ None }
    requires config { IsConfig (P.config processor.old) }
    ensures config { OnOk result (P.config processor.new ≡ P.config processor.old) }
    ensures longest { OnOk result (P.longest processor.new ≡ P.longest processor.old) }
    ensures part { (start : Machine) (at begun : ℕ)
        → HasCome (λ n. P.shown processor.old begun (events_to start.state n)) start at whole.old
        → IfOk result (IsPart (λ n. P.shown processor.new begun (events_to start.state n)) start at len whole.new) }
{
    for done in 0..len {
        match whole.advance_watched(processor) {
            Ok(()) => {}
            Err(MachineFault::Trap(trap)) => {
                return Ok(Part {
                    ran: done,
                    end: PartEnd::Trapped(trap),
                });
            }
            Err(MachineFault::NoMemory) => return Err(NoMemory),
        }
        if let Some(code) = whole.core().exit {
            return Ok(Part {
                ran: done + 1,
                end: PartEnd::Exited(code),
            });
        }
    }
    Ok(Part {
        ran: len,
        end: PartEnd::Full,
    })
}
