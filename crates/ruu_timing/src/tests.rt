ghost use Rattle.std.specs.Prelude.{◌≤◌, ◌<◌, All};
ghost use Rattle.std.specs.Bool.{OnTrue};
ghost use Rattle.hierarchy.specs.Widths.{AreWidths};
ghost use Rattle.hierarchy.specs.Marked.{IsMarked};
ghost use Rattle.ruu_timing.specs.Trace.{IsTrace};

mod earlier;
mod generated;
mod plain;
mod rows;
mod rules;

use crate::class::accesses_memory;
use crate::{Progress, Ruu, SliceTrace, Trace, scalar_time};
use hierarchy::{Latencies, Marked, Widths};
use plain::PlainRuu;
use rows::Rows;
use rv_isa::Class;
use std::alloc::Global;
use std::test::Fail;

const WIDTHS: Widths = Widths {
    fetch: 4,
    dispatch: 4,
    issue: 4,
    retire: 4,
    queue: 8,
    ruu: 32,
    lsq: 16,
    penalty: 6,
    forward: 1,
    alus: 4,
    muls: 1,
    divs: 1,
    loads: 2,
    stores: 1,
    branches: 1,
};

const NARROW: Widths = Widths {
    fetch: 2,
    dispatch: 2,
    issue: 2,
    retire: 2,
    queue: 4,
    ruu: 8,
    lsq: 4,
    penalty: 3,
    forward: 1,
    alus: 2,
    muls: 2,
    divs: 2,
    loads: 2,
    stores: 2,
    branches: 2,
};

const LATENCIES: Latencies = Latencies {
    mul: 3,
    div: 20,
    l1: 2,
    l2: 10,
    mem: 100,
    tlb: 30,
};

const ALU: Marked = Marked {
    class: Class::Alu,
    first: None,
    second: None,
    dest: None,
    word: None,
    stall: 0,
    latency: 1,
    mispredicted: false,
    transferred: false,
};

const MUL: Marked = Marked {
    class: Class::Mul,
    latency: 3,
    ..ALU
};

const DIV: Marked = Marked {
    class: Class::Div,
    latency: 20,
    ..ALU
};

const LOAD: Marked = Marked {
    class: Class::Load,
    word: Some(100),
    latency: 2,
    ..ALU
};

const STORE: Marked = Marked {
    class: Class::Store,
    word: Some(100),
    ..ALU
};

const JUMP: Marked = Marked {
    class: Class::Control,
    ..ALU
};

const CALL: Marked = Marked {
    class: Class::Ecall,
    ..ALU
};

fn is_width(width: u32, most: u32) -> bool
    ensures { OnTrue result ((1 ≤ width) × (width ≤ most)) }
{
    1 <= width && width <= most
}

fn are_widths(w: &Widths) -> bool
    ensures { OnTrue result (AreWidths w.now) }
{
    is_width(w.fetch, 8)
        && is_width(w.dispatch, 8)
        && is_width(w.issue, 8)
        && is_width(w.retire, 8)
        && is_width(w.queue, 32)
        && 4 <= w.ruu
        && w.ruu <= 256
        && 2 <= w.lsq
        && w.lsq <= 128
        && w.lsq <= w.ruu
        && is_width(w.penalty, 64)
        && is_width(w.forward, 16)
        && is_width(w.alus, 8)
        && is_width(w.muls, 8)
        && is_width(w.divs, 8)
        && is_width(w.loads, 8)
        && is_width(w.stores, 8)
        && is_width(w.branches, 8)
}

fn is_marked(m: &Marked) -> bool
    ensures { OnTrue result (IsMarked m.now) }
{
    m.stall <= 1200
        && 1 <= m.latency
        && m.latency <= 1216
        && m.word.is_some() == accesses_memory(m.class)
}

fn are_marked(items: &[Marked]) -> bool
    ensures { OnTrue result (All IsMarked items.now) }
{
    for m in items {
        if !is_marked(m) {
            return false;
        }
    }
    true
}

fn is_trace(items: &[Marked], skip: usize) -> bool
    ensures { OnTrue result (IsTrace items.now skip) }
{
    skip < items.len() && items.len() <= 110_000 && are_marked(items)
}

/// Takes types that may go from one thread to another.
fn is_sent<T: Send>(_: &T) {}

/// The cycles from `skip` on.
fn cycles(alloc: Global, widths: &Widths, items: &[Marked], skip: usize) -> Result<u64, Fail> {
    if !are_widths(widths) || !is_trace(items, skip) {
        return Err(Fail::from("no such trace"));
    }
    Ok(Ruu::new(alloc, widths)?.time(&SliceTrace { items }, skip))
}

/// The same by the plain body.
fn plain_cycles(
    alloc: Global,
    widths: &Widths,
    items: &[Marked],
    skip: usize,
) -> Result<u64, Fail> {
    if !are_widths(widths) || !is_trace(items, skip) {
        return Err(Fail::from("no such trace"));
    }
    Ok(PlainRuu::new(alloc, widths)?.time(&SliceTrace { items }, skip))
}

/// The times of the instruction that is `k`-th from the end.
fn times(alloc: Global, widths: &Widths, items: &[Marked], k: usize) -> Result<[u64; 5], Fail> {
    if !are_widths(widths) || !is_trace(items, 0) || k < 1 {
        return Err(Fail::from("no such trace"));
    }
    let mut rows = Rows::new(alloc)?;
    rows.time_all(widths, &SliceTrace { items });
    let x = rows.back(k).ok_or("no such instruction")?;
    Ok([x.fetch, x.dispatch, x.issue, x.completion, x.retirement])
}

/// The cycles that turns go to.
fn turns(alloc: Global, widths: &Widths, items: &[Marked]) -> Result<Vec<u64>, Fail> {
    if !are_widths(widths) || !is_trace(items, 0) {
        return Err(Fail::from("no such trace"));
    }
    let mut ruu = Ruu::new(alloc, widths)?;
    let trace = SliceTrace { items };
    let mut cycles = Vec::new(alloc);
    'turns: while ruu.turn(&trace) {
        cycles.push(ruu.now().ok_or("no cycle")?)?;
    }
    Ok(cycles)
}

/// The same by the plain body: all times but the completions, in order.
fn plain_turns(alloc: Global, widths: &Widths, items: &[Marked]) -> Result<Vec<u64>, Fail> {
    let mut cycles = Vec::new(alloc);
    for k in 0..items.len() {
        let times_of_one = times(alloc, widths, items, k + 1)?;
        for i in [0, 1, 2, 4] {
            cycles.push(times_of_one[i])?;
        }
    }
    cycles.sort_unstable();
    cycles.dedup();
    Ok(cycles)
}

/// An instruction that a load waits for, a jump that is mispredicted, and one behind it.
const MISPREDICTED: [Marked; 4] = [
    Marked {
        dest: Some(5),
        ..ALU
    },
    Marked {
        first: Some(5),
        dest: Some(6),
        latency: 3,
        ..LOAD
    },
    Marked {
        first: Some(6),
        mispredicted: true,
        transferred: true,
        ..JUMP
    },
    Marked {
        dest: Some(7),
        stall: 2,
        ..ALU
    },
];

#[test]
fn goes_by_turns(rt: HostRuntime) -> Result<(), Fail> {
    let expected = [0, 1, 2, 3, 4, 6, 7, 8, 12, 13, 14, 16];
    let found = turns(rt.alloc(), &NARROW, MISPREDICTED.as_slice())?;
    assert_eq!(rt; found.as_slice(), expected.as_slice());
    let plain = plain_turns(rt.alloc(), &NARROW, MISPREDICTED.as_slice())?;
    assert_eq!(rt; plain.as_slice(), expected.as_slice());
    Ok(())
}

#[test]
fn begins_anew(rt: HostRuntime) -> Result<(), Fail> {
    if !is_trace(MISPREDICTED.as_slice(), 0) {
        return Err(Fail::from("no such trace"));
    }
    let trace = SliceTrace {
        items: MISPREDICTED.as_slice(),
    };
    let mut ruu = Ruu::new(rt.alloc(), &NARROW)?;
    assert_eq!(rt; ruu.now(), None);
    assert_eq!(rt; ruu.progress(), Progress::NONE);
    assert!(rt; ruu.turn(&trace));
    assert_eq!(rt; ruu.now(), Some(0));
    assert!(rt; ruu.turn(&trace));
    assert!(rt; ruu.turn(&trace));
    assert_eq!(rt; ruu.now(), Some(2));
    let expected = Progress {
        fetched: 3,
        dispatched: 3,
        issued: 1,
        retired: 0,
    };
    assert_eq!(rt; ruu.progress(), expected);
    assert_eq!(rt; ruu.time(&trace, 0), 16);
    assert_eq!(rt; ruu.now(), None);
    assert!(rt; ruu.turn(&trace));
    ruu.begin();
    assert_eq!(rt; ruu.progress(), Progress::NONE);
    assert!(rt; ruu.turn(&trace));
    assert_eq!(rt; ruu.now(), Some(0));
    Ok(())
}

#[test]
fn times_each_instruction(rt: HostRuntime) -> Result<(), Fail> {
    let items = MISPREDICTED;
    let expected = [
        [12, 13, 14, 15, 16],
        [1, 2, 6, 7, 8],
        [0, 1, 3, 6, 7],
        [0, 1, 2, 3, 4],
    ];
    for (i, times_of_one) in expected.iter().enumerate() {
        assert_eq!(rt;
            times(rt.alloc(), &NARROW, items.as_slice(), i + 1)?,
            *times_of_one
        );
    }
    assert_eq!(rt; cycles(rt.alloc(), &NARROW, items.as_slice(), 0)?, 16);
    assert_eq!(rt; cycles(rt.alloc(), &NARROW, items.as_slice(), 2)?, 9);
    Ok(())
}

/// A store, a load of its word that misses, and an instruction that waits for the load.
const FORWARDED: [Marked; 3] = [
    STORE,
    Marked {
        dest: Some(5),
        latency: 12,
        ..LOAD
    },
    Marked {
        first: Some(5),
        ..ALU
    },
];

#[test]
fn forwards_from_stores_under_way(rt: HostRuntime) -> Result<(), Fail> {
    let mut items = FORWARDED;
    // The load's dispatch is in the cycle of the store's retirement, and so too late.
    for (stall, expected) in [
        (0, [[0, 1, 2, 3, 4], [0, 1, 3, 4, 5], [1, 2, 4, 5, 6]]),
        (2, [[0, 1, 2, 3, 4], [2, 3, 4, 5, 6], [2, 3, 5, 6, 7]]),
        (3, [[0, 1, 2, 3, 4], [3, 4, 5, 17, 18], [3, 4, 17, 18, 19]]),
        (
            10,
            [[0, 1, 2, 3, 4], [10, 11, 12, 24, 25], [10, 11, 24, 25, 26]],
        ),
    ] {
        items[1].stall = stall;
        for (i, times_of_one) in expected.iter().enumerate() {
            assert_eq!(rt;
                times(rt.alloc(), &NARROW, items.as_slice(), 3 - i)?,
                *times_of_one
            );
        }
        let last = expected[2][4];
        assert_eq!(rt; cycles(rt.alloc(), &NARROW, items.as_slice(), 0)?, last);
    }
    Ok(())
}

/// Thirteen instructions that do nothing and a call that ends the program, in two lines of 64 bytes
/// that no cache holds.
const IDLE: [Marked; 16] = [
    Marked { stall: 130, ..ALU },
    ALU,
    ALU,
    ALU,
    ALU,
    ALU,
    ALU,
    ALU,
    ALU,
    ALU,
    ALU,
    Marked { stall: 100, ..ALU },
    ALU,
    Marked {
        dest: Some(10),
        ..ALU
    },
    Marked {
        dest: Some(17),
        ..ALU
    },
    CALL,
];

#[test]
fn times_a_short_program(rt: HostRuntime) -> Result<(), Fail> {
    assert_eq!(rt; cycles(rt.alloc(), &WIDTHS, IDLE.as_slice(), 0)?, 239);
    assert_eq!(rt; times(rt.alloc(), &WIDTHS, IDLE.as_slice(), 2)?[4], 236);
    assert_eq!(rt; cycles(rt.alloc(), &WIDTHS, IDLE.as_slice(), 15)?, 3);
    Ok(())
}

#[test]
fn forgets_the_trace_before(rt: HostRuntime) -> Result<(), Fail> {
    if !is_trace(IDLE.as_slice(), 0) {
        return Err(Fail::from("no such trace"));
    }
    let mut ruu = Ruu::new(rt.alloc(), &WIDTHS)?;
    is_sent(&ruu);
    let trace = SliceTrace {
        items: IDLE.as_slice(),
    };
    assert_eq!(rt; ruu.time(&trace, 0), 239);
    assert_eq!(rt; ruu.time(&trace, 0), 239);
    Ok(())
}

#[test]
fn adds_latencies(rt: HostRuntime) -> Result<(), Fail> {
    let items = [
        DIV,
        MUL,
        Marked {
            latency: 500,
            stall: 9,
            ..LOAD
        },
        STORE,
        JUMP,
        CALL,
        ALU,
    ];
    for (skip, total) in [(0, 29), (1, 9), (2, 6), (3, 4), (6, 1)] {
        assert!(rt; is_trace(items.as_slice(), skip));
        if is_trace(items.as_slice(), skip) {
            assert_eq!(rt;
                scalar_time(
                    &LATENCIES,
                    &SliceTrace {
                        items: items.as_slice()
                    },
                    skip
                ),
                total
            );
        }
    }
    Ok(())
}
