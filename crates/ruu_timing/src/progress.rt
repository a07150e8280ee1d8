//! How far a processor has come with the instructions of a trace.
ghost use Rattle.std.specs.Prelude.{◌≡◌, ◌≤◌, ◌^◌, nat_lt, length};
ghost use Rattle.std.specs.List.{filter};
ghost use Rattle.ruu_timing.specs.Progress.{behind};

use crate::flight::Cycles;
use circular_buffer::HeapCircularBuffer;

/// How many instructions have been fetched, dispatched, issued and retired.
#[derive(Clone, Copy, Debug, PartialEq, Eq)]
pub struct Progress {
    pub fetched: u32,
    pub dispatched: u32,
    pub issued: u32,
    pub retired: u32,
}

impl Progress {
    pub(crate) const NONE: Progress = Progress {
        fetched: 0,
        dispatched: 0,
        issued: 0,
        retired: 0,
    };
}

/// The cycle behind the one that a processor has come to, or the first.
pub(crate) fn behind(cycle: Option<u32>) -> u32
    requires { behind cycle ≤ 2 ^ 31 }
    ensures { result ≡ behind cycle }
{
    match cycle {
        Some(cycle) => cycle + 1,
        None => 0,
    }
}

/// How many of these are fetched after a cycle.
pub(crate) fn fetched_later(latest: &HeapCircularBuffer<Cycles>, t: u32) -> usize
    ensures { result ≡ length (filter (λ c. nat_lt t c.fetch) latest.now.items) }
{
    latest.iter().filter(|c| t < c.fetch).count()
}

pub(crate) fn dispatched_later(latest: &HeapCircularBuffer<Cycles>, t: u32) -> usize
    ensures { result ≡ length (filter (λ c. nat_lt t c.dispatch) latest.now.items) }
{
    latest.iter().filter(|c| t < c.dispatch).count()
}

pub(crate) fn issued_later(latest: &HeapCircularBuffer<Cycles>, t: u32) -> usize
    ensures { result ≡ length (filter (λ c. nat_lt t c.issue) latest.now.items) }
{
    latest.iter().filter(|c| t < c.issue).count()
}

pub(crate) fn retired_later(latest: &HeapCircularBuffer<Cycles>, t: u32) -> usize
    ensures { result ≡ length (filter (λ c. nat_lt t c.retirement) latest.now.items) }
{
    latest.iter().filter(|c| t < c.retirement).count()
}
