ghost use Rattle.std.specs.Prelude.{◌≡◌, ◌+◌, ◌*◌, ◌≤◌, ◌<◌, ◌^◌, ℕ, length, slice_index, IfOk};
ghost use Rattle.confidence.specs.Sums.{IsCycles};
ghost use Rattle.hierarchy.specs.Config.{IsConfig};
ghost use Rattle.live_points.specs.PointAnswers.{point_answer};
ghost use Rattle.ruu_timing.specs.Machine.{cycles_of};
ghost use Rattle.ruu_timing.specs.Trace.{IsTrace};
ghost use Rattle.sample_design.specs.Units.{window_of};
ghost use Rattle.window_sim.specs.Built.{IsBuilt, IsReady};
ghost use Rattle.window_sim.specs.Desk.{IsServed, IsTaken};
ghost use Rattle.window_sim.specs.Marks.{marks_in};

use crate::marks::PackedTrace;
use crate::running::run_window;
use crate::start::{core_at, warm};
use confidence::Answer;
use hierarchy::{Config, State};
use live_points::{Header, LivePoint};
use live_words::Hashed;
use ruu_timing::{Ruu, scalar_time};
use rv_isa::Decoder;
use sample_design::Window;
use smarts_base::NoMemory;
use std::alloc::Global;

/// What a window is simulated with. Only `new` takes memory.
#[derive(Debug, Drop)]
pub(crate) struct Engine {
    decoder: Decoder,
    warm: State,
    ruu: Ruu,
}

impl Engine {
    pub(crate) fn new(alloc: Global, config: &Config) -> Result<Engine, NoMemory>
        requires { IsConfig config.now }
        ensures { IfOk result (λ engine. IsReady config.now engine.warm engine.ruu.widths) }
    {
        Ok(Engine {
            decoder: Decoder::new(alloc)?,
            warm: State::new(alloc, config)?,
            ruu: Ruu::new(alloc, &config.widths)?,
        })
    }
}

/// The cycles of a trace from instruction `skip` on.
pub fn time(config: &Config, ruu: &mut Ruu, words: &[u64], skip: usize) -> u64
    requires config { IsConfig config.now }
    requires widths { ruu.old.widths ≡ config.now.widths }
    requires trace { IsTrace (marks_in words.now) skip }
    ensures cycles { result ≡ cycles_of config.now (marks_in words.now) skip }
    ensures most { length (marks_in words.now) ≤ skip + 10000 → result < 2 ^ 26 }
    ensures widths { ruu.new.widths ≡ ruu.old.widths }
{
    let trace = PackedTrace { words };
    if config.ruu {
        ruu.time(&trace, skip)
    } else {
        scalar_time(&config.latencies, &trace, skip)
    }
}

/// The answer of a point, whose window this is, in rooms for the words of its memory and for its marks.
pub(crate) fn simulate(
    header: &Header,
    config: &Config,
    point: &LivePoint,
    window: Window,
    engine: &mut Engine,
    slots: &mut [u64],
    marks: &mut [u64],
    scratch: &mut [u64],
) -> Answer
    requires served { IsServed (record { header = header.now; config = config.now }) }
    requires taken { IsTaken (record { header = header.now; config = config.now }) point.now }
    requires window { window ≡ window_of header.now.design point.now.unit }
    requires ready { IsReady config.now engine.old.warm engine.old.ruu.widths }
    requires free { (place : ℕ) → place < length slots.old → slice_index slots.old place ≡ 0 }
    requires slots { length slots.old ≡ 2 * length point.now.words }
    requires marks { length marks.old ≡ 2 * window.len }
    ensures answer { result ≡ point_answer config.now header.now point.now }
    ensures ready { IsReady config.now engine.new.warm engine.new.ruu.widths }
{
    warm(header, config, point, scratch, &mut engine.warm);
    let mut core = core_at(header, point);
    let mut memory = Hashed::over(&point.words, slots);
    match run_window(
        config,
        &mut engine.decoder,
        &mut core,
        &mut memory,
        &mut engine.warm,
        marks,
        window.len as usize,
    ) {
        Ok(()) => {
            let cycles = time(config, &mut engine.ruu, marks, window.skip as usize);
            Answer::Cycles(cycles as u32)
        }
        Err(fault) => Answer::Fault(fault),
    }
}
