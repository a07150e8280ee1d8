ghost use Rattle.std.specs.Prelude.{◌≡◌, ◌+◌, ◌^◌, ◌<◌, ◌≤◌, length};
ghost use Rattle.hierarchy.specs.Widths.{AreLatencies};
ghost use Rattle.ruu_timing.specs.Trace.{IsTrace};
ghost use Rattle.ruu_timing.specs.Scalar.{scalar_latency, scalar_cycles};

use crate::trace::Trace;
use hierarchy::Latencies;
use rv_isa::Class;

/// The cycles of an instruction of the class alone.
pub fn scalar_latency(latencies: &Latencies, class: Class) -> u32
    requires { AreLatencies latencies.now }
    ensures value { result ≡ scalar_latency latencies.now class }
    ensures least { 1 ≤ result }
    ensures most { result ≤ 64 }
{
    match class {
        Class::Mul => latencies.mul,
        Class::Div => latencies.div,
        Class::Load => latencies.l1,
        _ => 1,
    }
}

/// The cycles that a trace takes from instruction `skip` on where each instruction waits for the
/// end of the one before and every access hits in the first cache.
pub fn scalar_time<T: Trace>(latencies: &Latencies, trace: &T, skip: usize) -> u64
    requires latencies { AreLatencies latencies.now }
    requires trace { IsTrace (T.items trace.now) skip }
    ensures cycles { result ≡ scalar_cycles latencies.now (T.items trace.now) skip }
    ensures least { 1 ≤ result }
    ensures most { length (T.items trace.now) ≤ skip + 10000 → result < 2 ^ 26 }
{
    let mut total: u64 = 0;
    for i in skip..trace.len() {
        total += u64::from(scalar_latency(latencies, trace.at(i).class));
    }
    total
}
