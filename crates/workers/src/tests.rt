ghost use Rattle.std.specs.Prelude.{◌≡◌, ◌<◌, ◌≤◌, length, All, IfOk};
ghost use Rattle.ordered_fold.specs.Batch.{IsHeldAnswer};
ghost use Rattle.confidence.specs.Confidence.{IsInRange};

use super::*;
use confidence::{Answer, PointFault, PointKind, Sums, Test};
use ordered_fold::{Ending, Front};
use smarts_base::{Gate, NoMemory, OpenGate};
use std::alloc::Global;
use std::sync::atomic::{AtomicU64, Ordering};
use std::test::Fail;
use std::thread::Threads;

/// A simulator whose points are their answers.
#[derive(Drop)]
struct Reader;

impl Simulator for Reader {
    ghost use Rattle.ordered_fold.specs.Batch.{IsHeldAnswer};

    type Point = Answer;

    type Setup = ();

    ghost setup = { λ _. tt };

    ghost answer = { λ _ point. point };

    ghost takes = { λ _ point. IsHeldAnswer point };

    fn simulate(&mut self, point: &Answer) -> Answer {
        *point
    }

    ghost held = { λ _ _ is_held. is_held };
}

/// So many answers: ten far apart, and others between them; or all alike; or one of them a fault.
#[derive(Clone, Copy, Debug, PartialEq, Eq)]
enum Kind {
    Alike,
    Scattered,
    Apart,
    FaultAt(u32),
}

fn answer_of(kind: Kind, k: u32) -> Answer
    ensures { IsHeldAnswer result }
{
    let apart = if k % 2 == 0 { 10 } else { 1000 };
    match kind {
        Kind::Alike => Answer::Cycles(16),
        Kind::Scattered => Answer::Cycles(if k < 10 { apart } else { 505 }),
        Kind::Apart => Answer::Cycles(apart),
        Kind::FaultAt(at) => {
            if k == at {
                Answer::Fault(PointFault {
                    kind: PointKind::Missing,
                    pc: 65_536,
                })
            } else {
                Answer::Cycles(apart)
            }
        }
    }
}

fn answers_of(alloc: Global, kind: Kind, count: u32) -> Result<Vec<Answer>, NoMemory>
    ensures long { IfOk result (λ answers. length answers.items ≡ count) }
    ensures held { IfOk result (λ answers. All IsHeldAnswer answers.items) }
{
    let mut answers = Vec::new(alloc);
    for k in 0..count {
        answers.push(answer_of(kind, k))?;
    }
    Ok(answers)
}

fn readers(alloc: Global, workers: usize) -> Result<Vec<Reader>, NoMemory>
    ensures { IfOk result (λ readers. length readers.items ≡ workers) }
{
    let mut readers = Vec::new(alloc);
    for _reader in 0..workers {
        readers.push(Reader)?;
    }
    Ok(readers)
}

/// Counts its calls, and those that weren't told the next number.
#[derive(Drop)]
struct Counting {
    calls: AtomicU64,
    astray: AtomicU64,
}

impl Gate for Counting {
    fn pass(&self, _worker: u32, point: u32) {
        let next = self.calls.fetch_add(1, Ordering::SeqCst);
        if next != u64::from(point) {
            self.astray.fetch_add(1, Ordering::SeqCst);
        }
    }
}

/// Waits until the number is there or above, so long as its turns last. Whether it came.
fn comes(number: &AtomicU64, least: u64) -> bool {
    for _turn in 0..100_000_000u32 {
        if number.load(Ordering::SeqCst) >= least {
            return true;
        }
    }
    false
}

/// The first call of each of two workers waits until the other has called.
#[derive(Drop)]
struct Meeting {
    first: AtomicU64,
    second: AtomicU64,
    met: AtomicU64,
}

impl Gate for Meeting {
    fn pass(&self, worker: u32, _point: u32) {
        let (own, other) = if worker == 0 {
            (&self.first, &self.second)
        } else {
            (&self.second, &self.first)
        };
        if own.fetch_add(1, Ordering::SeqCst) == 0 && comes(other, 1) {
            self.met.fetch_add(1, Ordering::SeqCst);
        }
    }
}

/// The first call of all waits until there were 61 others.
#[derive(Drop)]
struct Holding {
    calls: AtomicU64,
    seen: AtomicU64,
}

impl Gate for Holding {
    fn pass(&self, _worker: u32, _point: u32) {
        if self.calls.fetch_add(1, Ordering::SeqCst) == 0 && comes(&self.calls, 62) {
            let calls = self.calls.load(Ordering::SeqCst);
            self.seen.store(calls, Ordering::SeqCst);
        }
    }
}

/// What a crew makes of so many answers of a kind.
fn tally_of<R: Threads + Sync, G: Gate + Sync>(
    rt: &R,
    alloc: Global,
    answers: &[Answer],
    min: u32,
    workers: usize,
    gate: &G,
) -> Result<Tally, NoMemory>
    requires some { (0 < length answers.now) × (length answers.now ≤ 65536) }
    requires held { All IsHeldAnswer answers.now }
    requires min { (2 ≤ min) × (min ≤ 65536) }
    requires workers { (0 < workers) × (workers ≤ 64) }
{
    let test = Test {
        min,
        z: 3000,
        error: 300,
    };
    run_points(rt, alloc, readers(alloc, workers)?, answers, test, gate)
}

#[test]
fn any_number_of_workers_makes_one_fold(rt: HostRuntime) -> Result<(), Fail> {
    let alloc = rt.alloc();
    let fault = PointFault {
        kind: PointKind::Missing,
        pc: 65_536,
    };
    let cases = [
        (Kind::Alike, 30, Ending::Stopped { count: 30 }, 480),
        (Kind::Alike, 128, Ending::Stopped { count: 128 }, 2048),
        (Kind::Scattered, 2, Ending::Stopped { count: 311 }, 157_055),
        (Kind::Alike, 450, Ending::Stopped { count: 450 }, 7200),
        (Kind::Apart, 2, Ending::Exhausted, 252_500),
        (
            Kind::FaultAt(200),
            2,
            Ending::Faulted { point: 200, fault },
            101_000,
        ),
    ];
    for (kind, min, ending, sum) in cases {
        let answers = answers_of(alloc, kind, 500)?;
        for workers in [1, 2, 3, 8, 64] {
            let tally = tally_of(&rt, alloc, &answers, min, workers, &OpenGate)?;
            assert_eq!(rt; tally.ending, ending, "{kind:?} by {workers}");
            assert_eq!(rt; tally.sums.s1, sum, "{kind:?} by {workers}");
        }
    }
    Ok(())
}

#[test]
fn a_gate_is_told_each_point_in_order(rt: HostRuntime) -> Result<(), Fail> {
    let alloc = rt.alloc();
    let gate = Counting {
        calls: AtomicU64::new(0),
        astray: AtomicU64::new(0),
    };
    let answers = answers_of(alloc, Kind::Scattered, 500)?;
    let tally = tally_of(&rt, alloc, &answers, 2, 1, &gate)?;
    assert_eq!(rt; tally.windows, 311);
    assert_eq!(rt; gate.calls.load(Ordering::SeqCst), 311);
    assert_eq!(rt; gate.astray.load(Ordering::SeqCst), 0);
    Ok(())
}

#[test]
fn two_workers_are_under_way_at_once(rt: HostRuntime) -> Result<(), Fail> {
    let alloc = rt.alloc();
    let meeting = Meeting {
        first: AtomicU64::new(0),
        second: AtomicU64::new(0),
        met: AtomicU64::new(0),
    };
    let answers = answers_of(alloc, Kind::Alike, 62)?;
    let tally = tally_of(&rt, alloc, &answers, 30, 2, &meeting)?;
    assert_eq!(rt; tally.ending, Ending::Stopped { count: 30 });
    assert_eq!(rt; meeting.met.load(Ordering::SeqCst), 2);
    let holding = Holding {
        calls: AtomicU64::new(0),
        seen: AtomicU64::new(0),
    };
    let tally = tally_of(&rt, alloc, &answers, 100, 2, &holding)?;
    assert_eq!(rt; tally.ending, Ending::Exhausted);
    assert_eq!(rt; holding.seen.load(Ordering::SeqCst), 62);
    assert_eq!(rt; tally.windows, 62);
    Ok(())
}
