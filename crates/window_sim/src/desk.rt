ghost use Rattle.std.specs.Prelude.{◌≡◌, ◌+◌, ◌*◌, ◌≤◌, ◌<◌, ◌^◌, ℕ, IfOk};
ghost use Rattle.hierarchy.specs.Config.{IsConfig};
ghost use Rattle.live_points.specs.PointAnswers.{point_answer};
ghost use Rattle.rv_exec.specs.Machine.{State};
ghost use Rattle.unit_answers.specs.Answers.{whole_answer};
ghost use Rattle.window_sim.specs.Built.{IsReady};
ghost use Rattle.window_sim.specs.Desk.{IsServed, IsTaken, IsOfUnit};
ghost use Rattle.window_sim.specs.DeskView.{HasRoom};

use crate::engine::{Engine, simulate};
use confidence::Answer;
use desk_region::Region;
use hierarchy::{Config, Places};
use live_points::{Header, LivePoint};
use lru_plain::Geometry;
use rebuild::scratch_len;
use sample_design::Design;
use smarts_base::NoMemory;
use std::alloc::Global;
use std::marker::Model;

/// Answers the points of a header on a processor, one window after the other. Only `new` takes memory.
#[derive(Drop)]
pub struct Desk<'a> {
    header: &'a Header,
    config: &'a Config,
    engine: Engine,
    region: Region,
    /// How many words rebuilding needs.
    scratch: usize,
}

impl<'a> Model for Desk<'a> {
    ghost use Rattle.window_sim.specs.Desk.{Setup};
    ghost use Rattle.window_sim.specs.DeskView.{setup_of, IsDesk};

    ghost Value = { Setup };

    ghost view = { setup_of };

    ghost invariant = { IsDesk };
}

/// How many words rebuilding any of the caches needs.
fn most_scratch(large: &Places<Geometry>, small: &Places<Geometry>) -> usize
    ensures { result ≤ 131136 }
{
    scratch_len(large.l1i, small.l1i)
        .max(scratch_len(large.l1d, small.l1d))
        .max(scratch_len(large.l2, small.l2))
        .max(scratch_len(large.itlb, small.itlb))
        .max(scratch_len(large.dtlb, small.dtlb))
}

/// The answer of a point, in rooms that are carved from the region and released again.
fn window_on(
    header: &Header,
    config: &Config,
    point: &LivePoint,
    scratch: usize,
    engine: &mut Engine,
    region: &mut Region,
) -> Answer
    requires served { IsServed (record { header = header.now; config = config.now }) }
    requires taken { IsTaken (record { header = header.now; config = config.now }) point.now }
    requires ready { IsReady config.now engine.old.warm engine.old.ruu.widths }
    requires room { HasRoom header.now.design scratch region.old }
    ensures answer { result ≡ point_answer config.now header.now point.now }
    ensures ready { IsReady config.now engine.new.warm engine.new.ruu.widths }
    ensures room { HasRoom header.now.design scratch region.new }
{
    let window = header.design.window(u64::from(point.unit));
    let (words, marks) = (2 * point.words.len(), 2 * window.len as usize);
    let mark = region.mark();
    let Some(words_at) = region.carve(words) else {
        unreachable!();
    };
    let Some(marks_at) = region.carve(marks) else {
        unreachable!();
    };
    let Some(scratch_at) = region.carve(scratch) else {
        unreachable!();
    };
    let all = region.view_mut(&words_at.joined(&marks_at).joined(&scratch_at));
    let (slots, rest) = all.split_at_mut(words);
    let (marks, scratch) = rest.split_at_mut(marks);
    let answer = simulate(header, config, point, window, engine, slots, marks, scratch);
    region.release(mark);
    answer
}

impl<'a> Desk<'a> {
    /// A desk for the points of a header, whose records serve the processor. It takes the memory of all windows.
    pub fn new(alloc: Global, header: &'a Header, config: &'a Config) -> Result<Desk<'a>, NoMemory>
        requires { IsServed (record { header = header.now; config = config.now }) }
        ensures { IfOk result (λ desk. desk ≡ record { header = header.now; config = config.now }) }
    {
        let longest = header.design.warm as usize + header.design.unit as usize;
        let scratch = most_scratch(&header.records.places, &config.places);
        Ok(Desk {
            header,
            config,
            engine: Engine::new(alloc, config)?,
            region: Region::new(alloc, 6 * longest + scratch)?,
            scratch,
        })
    }

    /// The answer of a point. Its window is run from the words that it keeps, with caches that are rebuilt from its
    /// records and a predictor that loads its image; the unit at the window's end is timed.
    pub fn window(&mut self, point: &LivePoint) -> Answer
        requires { IsTaken self.old point.now }
        ensures answer { result ≡ point_answer self.old.config self.old.header point.now }

        // The answer of a run's point is its unit's on the whole machine.
        ensures unit { (start : State) (length unit : ℕ) → IsOfUnit self.old start length unit point.now
            → result ≡ whole_answer self.old.config start self.old.header.design unit }
        ensures same { self.new ≡ self.old }
    {
        window_on(
            self.header,
            self.config,
            point,
            self.scratch,
            &mut self.engine,
            &mut self.region,
        )
    }
}
