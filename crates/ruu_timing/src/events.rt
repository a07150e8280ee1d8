//! The cycles in which something happens to an instruction.
ghost use Rattle.std.specs.Prelude.{◌≡◌};
ghost use Rattle.std.specs.List.{slice_get};
ghost use Rattle.ruu_timing.specs.Events.{least_next, next_in, next_of, not_before};

use crate::flight::Cycles;
use circular_buffer::HeapCircularBuffer;

fn not_before(from: u32, time: u32) -> u32
    ensures { result ≡ not_before from time }
{
    if from <= time { time } else { u32::MAX }
}

fn next_of(from: u32, cycles: &Cycles) -> u32
    ensures { result ≡ next_of from cycles.now }
{
    let front = not_before(from, cycles.fetch).min(not_before(from, cycles.dispatch));
    let rest = not_before(from, cycles.issue).min(not_before(from, cycles.retirement));
    front.min(rest)
}

/// The next time of the one at a place.
fn next_at(from: u32, latest: &HeapCircularBuffer<Cycles>, i: usize) -> u32
    ensures { result ≡ next_in from (slice_get latest.now.items i) }
{
    match latest.get(i) {
        Some(cycles) => next_of(from, cycles),
        None => u32::MAX,
    }
}

/// The first cycle from one on in which something happens to one of these, or more than all cycles.
pub(crate) fn least_next(from: u32, latest: &HeapCircularBuffer<Cycles>) -> u32
    ensures { result ≡ least_next from latest.now.items }
{
    let mut t = u32::MAX;
    for i in 0..latest.len() {
        t = t.min(next_at(from, latest, i));
    }
    t
}
