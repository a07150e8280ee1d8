ghost use Rattle.std.specs.Prelude.{◌≡◌, ◌<◌, ◌≤◌, ◌^◌, length, IfOk};
ghost use Rattle.confidence.specs.Confidence.{IsInRange};
ghost use Rattle.ordered_fold.specs.Front.{first_front};
ghost use Rattle.window_sim.specs.Desk.{IsServed};
ghost use Rattle.workers.specs.Crew.{Alike, IsCrew};

use crate::desk::Desk;
use confidence::{Answer, Test};
use hierarchy::Config;
use live_points::{Header, LivePoint};
use smarts_base::NoMemory;
use std::alloc::Global;
use workers::{Crew, Simulator};

impl<'a> Simulator for Desk<'a> {
    ghost use Rattle.window_sim.specs.Desk.{IsServed, IsTaken};
    ghost use Rattle.live_points.specs.PointAnswers.{point_answer};
    ghost use Rattle.window_sim.specs.HeldAnswers.{point_held};

    type Point = LivePoint;

    /// What a desk is seen as: a header and a processor.
    type Setup = Desk<'a>;

    ghost setup = { λ desk. desk };

    ghost answer = { λ setup point. point_answer setup.config setup.header point };

    ghost takes = { λ setup point. IsServed setup × IsTaken setup point };

    fn simulate(&mut self, point: &LivePoint) -> Answer {
        self.window(point)
    }

    ghost held = { point_held };
}

/// So many desks for the points of a header on a processor.
pub fn desks<'a>(
    alloc: Global,
    header: &'a Header,
    config: &'a Config,
    count: usize,
) -> Result<Vec<Desk<'a>>, NoMemory>
    requires { IsServed (record { header = header.now; config = config.now }) }
    ensures alike { IfOk result (λ desks. Alike (λ desk. desk) (record { header = header.now; config = config.now }) desks.items) }
    ensures len { IfOk result (λ desks. length desks.items ≡ count) }
{
    let mut desks = Vec::new(alloc);
    for _desk in 0..count {
        desks.push(Desk::new(alloc, header, config)?)?;
    }
    Ok(desks)
}

/// A crew of so many workers that folds the points of a header, each worker at a desk.
pub fn crew<'a>(
    alloc: Global,
    header: &'a Header,
    config: &'a Config,
    test: Test,
    workers: usize,
) -> Result<Crew<Desk<'a>>, NoMemory>
    requires served { IsServed (record { header = header.now; config = config.now }) }
    requires points { (0 < header.now.points) × (header.now.points ≤ 65536) }
    requires test { IsInRange test }
    requires workers { (0 < workers) × (workers ≤ 64) }
    ensures crew { IfOk result (λ crew. IsCrew crew.front crew.windows (length crew.simulators.items)) }
    ensures front { IfOk result (λ crew. crew.front ≡ first_front header.now.points test) }
    ensures windows { IfOk result (λ crew. crew.windows ≡ 0) }
    ensures alike { IfOk result (λ crew. Alike (λ desk. desk) (record { header = header.now; config = config.now }) crew.simulators.items) }
    ensures workers { IfOk result (λ crew. length crew.simulators.items ≡ workers) }
{
    Ok(Crew::new(header.points, test, desks(alloc, header, config, workers)?))
}
