ghost use Rattle.std.specs.Prelude.{◌≡◌, ◌%◌, IfOk};
ghost use Rattle.lru_plain.specs.Cache.{empty_sets};
ghost use Rattle.hierarchy.specs.Config.{IsConfig};

use super::*;
use lru_plain::{Geometry, PlainCache};
use predictor::{PredictorKind, Scheme};
use rv_exec::{DataRef, Event, Flow};
use rv_isa::Class;
use std::process::Abort;
use std::test::Fail;

/// The least and the most of each width and then of each latency, in the order of their fields.
const RANGES: [(u32, u32); 21] = [
    (1, 8),
    (1, 8),
    (1, 8),
    (1, 8),
    (1, 32),
    (4, 256),
    (2, 128),
    (1, 64),
    (1, 16),
    (1, 8),
    (1, 8),
    (1, 8),
    (1, 8),
    (1, 8),
    (1, 8),
    (1, 16),
    (1, 64),
    (1, 16),
    (1, 100),
    (1, 1000),
    (0, 200),
];

/// Numbers within them, with room for every other `ruu` and `lsq`.
const NUMBERS: [u32; 21] = [
    4, 4, 4, 4, 8, 256, 4, 6, 1, 4, 1, 1, 2, 1, 1, 3, 20, 2, 10, 100, 30,
];

/// The numbers with others for the register update unit and for the load and store queue.
fn with_queues(ruu: u32, lsq: u32) -> [u32; 21] {
    let mut numbers = NUMBERS;
    numbers[5] = ruu;
    numbers[6] = lsq;
    numbers
}

/// A predictor without a stack.
fn kind(scheme: Scheme) -> PredictorKind {
    PredictorKind {
        scheme,
        bits: 4,
        target_log: 2,
        depth: 0,
    }
}

/// Caches of two lines of 16 bytes, and TLBs of one page.
fn tiny_places() -> Result<Places<Geometry>, Fail> {
    let two_lines = Geometry::new(4, 0, 2).ok_or("no such cache")?;
    let one_page = Geometry::new(12, 0, 1).ok_or("no such TLB")?;
    Ok(Places {
        l1i: two_lines,
        l1d: two_lines,
        l2: two_lines,
        itlb: one_page,
        dtlb: one_page,
    })
}

fn config_of(places: Places<Geometry>, kind: PredictorKind, numbers: &[u32; 21]) -> Config {
    let widths = Widths {
        fetch: numbers[0],
        dispatch: numbers[1],
        issue: numbers[2],
        retire: numbers[3],
        queue: numbers[4],
        ruu: numbers[5],
        lsq: numbers[6],
        penalty: numbers[7],
        forward: numbers[8],
        alus: numbers[9],
        muls: numbers[10],
        divs: numbers[11],
        loads: numbers[12],
        stores: numbers[13],
        branches: numbers[14],
    };
    let latencies = Latencies {
        mul: numbers[15],
        div: numbers[16],
        l1: numbers[17],
        l2: numbers[18],
        mem: numbers[19],
        tlb: numbers[20],
    };
    Config {
        ruu: true,
        places,
        kind,
        widths,
        latencies,
    }
}

fn tiny() -> Result<Config, Fail>
    ensures { IfOk result IsConfig }
{
    let config = config_of(tiny_places()?, kind(Scheme::Bimodal), &NUMBERS);
    match config.check() {
        None => Ok(config),
        Some(_) => Err("the configuration is refused".into()),
    }
}

/// Takes types that threads may share.
fn is_shared<T: Sync>(_: &T) {}

/// Takes types that may go from one thread to another.
fn is_sent<T: Send>(_: &T) {}

fn event(class: Class, pc: u32, addr: Option<u32>, control: Flow, next: u32) -> Event
    ensures pc { result.pc % 4 ≡ 0 }
    ensures next { result.next % 4 ≡ 0 }
{
    Event {
        pc: pc / 4 * 4,
        fetched: 0,
        class,
        first: Some(7),
        second: None,
        dest: Some(9),
        access: addr.map(|addr| DataRef {
            addr,
            store: matches!(class, Class::Store),
            before: 0,
        }),
        control,
        next: next / 4 * 4,
        wrote: None,
    }
}

/// Empties the first cache of instructions, and nothing else.
fn forget_instructions(state: &mut State)
    ensures { state.new ≡ record state.old {
      caches = record state.old.caches {
        l1i = record state.old.caches.l1i { sets = empty_sets state.old.caches.l1i.shape };
      };
    } }
{
    state.caches().l1i.clear();
}

/// Whether the first set of a cache has these blocks.
fn holds(cache: &PlainCache, blocks: &[u32]) -> bool {
    0 < cache.geometry().sets() && cache.set(0) == blocks
}

#[test]
fn finds_the_first_fault_of_numbers(rt: HostRuntime) -> Result<(), Fail> {
    for (i, (least, most)) in RANGES.iter().enumerate() {
        let cases = [
            (*least, None),
            (*most, None),
            (least.wrapping_sub(1), Some(ConfigFault::OutOfRange)),
            (most.wrapping_add(1), Some(ConfigFault::OutOfRange)),
        ];
        for (number, fault) in cases {
            let mut numbers = NUMBERS;
            numbers[i] = number;
            let config = config_of(tiny_places()?, kind(Scheme::Bimodal), &numbers);
            assert_eq!(rt; config.check(), fault, "{number} at {i}");
        }
    }
    let queues = [
        (4, 4, None),
        (4, 5, Some(ConfigFault::LsqOverRuu)),
        (127, 128, Some(ConfigFault::LsqOverRuu)),
        (128, 128, None),
        (3, 4, Some(ConfigFault::OutOfRange)),
        (128, 129, Some(ConfigFault::OutOfRange)),
    ];
    for (ruu, lsq, fault) in queues {
        let numbers = with_queues(ruu, lsq);
        let config = config_of(tiny_places()?, kind(Scheme::Gshare), &numbers);
        assert_eq!(rt; config.check(), fault, "{lsq} in {ruu}");
    }
    Ok(())
}

#[test]
fn finds_the_first_fault_of_parts(rt: HostRuntime) -> Result<(), Fail> {
    let kinds = [
        (4, 2, 0, None),
        (14, 10, 16, None),
        (3, 2, 0, Some(ConfigFault::OutOfRange)),
        (15, 2, 0, Some(ConfigFault::OutOfRange)),
        (4, 1, 0, Some(ConfigFault::OutOfRange)),
        (4, 11, 0, Some(ConfigFault::OutOfRange)),
        (4, 2, 17, Some(ConfigFault::OutOfRange)),
    ];
    for (bits, target_log, depth, fault) in kinds {
        let kind = PredictorKind {
            scheme: Scheme::Gshare,
            bits,
            target_log,
            depth,
        };
        let config = config_of(tiny_places()?, kind, &NUMBERS);
        assert_eq!(rt; config.check(), fault, "{kind:?}");
    }
    // A cache has no pages, and a TLB no lines.
    let shapes = [
        (4, 4, 4, 12, 12, None),
        (8, 8, 8, 12, 12, None),
        (12, 4, 4, 12, 12, Some(ConfigFault::OutOfRange)),
        (4, 12, 4, 12, 12, Some(ConfigFault::OutOfRange)),
        (4, 4, 12, 12, 12, Some(ConfigFault::OutOfRange)),
        (4, 4, 4, 8, 12, Some(ConfigFault::OutOfRange)),
        (4, 4, 4, 12, 8, Some(ConfigFault::OutOfRange)),
    ];
    for (l1i, l1d, l2, itlb, dtlb, fault) in shapes {
        let places = Places {
            l1i: Geometry::new(l1i, 12, 16).ok_or("l1i")?,
            l1d: Geometry::new(l1d, 0, 1).ok_or("l1d")?,
            l2: Geometry::new(l2, 12, 16).ok_or("l2")?,
            itlb: Geometry::new(itlb, 12, 16).ok_or("itlb")?,
            dtlb: Geometry::new(dtlb, 0, 1).ok_or("dtlb")?,
        };
        let config = config_of(places, kind(Scheme::Bimodal), &NUMBERS);
        assert_eq!(rt; config.check(), fault);
    }
    Ok(())
}

/// Gives the state instructions that go straight on, by their class, pc and data address, and
/// compares the stall and the latency of each.
fn annotate_all(
    rt: &impl Abort,
    state: &mut State,
    config: &Config,
    rows: &[(Class, u32, Option<u32>, u32, u32)],
)
    requires { IsConfig config.now }
{
    for (class, pc, addr, stall, latency) in rows {
        let marks = state.annotate(config, &event(*class, *pc, *addr, Flow::Straight, 0));
        let wanted = Marked {
            class: *class,
            first: Some(7),
            second: None,
            dest: Some(9),
            word: addr.map(|addr| addr / 4),
            stall: *stall,
            latency: *latency,
            mispredicted: false,
            transferred: false,
        };
        assert_eq!(rt; marks, wanted, "at {pc:#x}, {addr:?}");
    }
}

/// Instructions in turn: class, pc, data address, stall and latency. Behind each row: what its
/// references find, in the order of TLB, first and second cache, and the lines of L1I, L1D and L2 after
/// it.
const COMBINATIONS: [(Class, u32, Option<u32>, u32, u32); 30] = [
    // Nothing is there: 30 + 100.
    (Class::Alu, 0x1000, None, 130, 1), // 100; ; 100
    (Class::Alu, 0x1004, None, 0, 1), // the same
    (Class::Alu, 0x1010, None, 100, 1), // 101 100; ; 101 100
    // The data takes the place of line 100 in L2. L1I still has it: a stall of 0, though L2 misses.
    (Class::Load, 0x1014, Some(0x9000), 0, 132), // 101 100; 900; 900 101
    (Class::Alu, 0x1000, None, 0, 1), // 100 101; 900; 100 900
    (Class::Load, 0x1004, Some(0x9004), 0, 2), // 100 101; 900; 900 100
    // A line that was loaded as data is in L2 when it is fetched: 10.
    (Class::Load, 0x1008, Some(0x1020), 0, 132), // 100 101; 102 900; 102 100
    (Class::Alu, 0x1020, None, 10, 1), // 102 100; 102 900; 102 100
    // Another page, and back: both lines are in L1I, but the TLB has one page.
    (Class::Alu, 0x2000, None, 130, 1), // 200 102; 102 900; 200 102
    (Class::Alu, 0x1020, None, 30, 1), // 102 200; 102 900; 102 200
    // A page and a line that were data before: 30 + 10.
    (Class::Load, 0x1024, Some(0x3000), 0, 132), // 102 200; 300 102; 300 102
    (Class::Alu, 0x3000, None, 40, 1), // 300 102; 300 102; 300 102
    // Back to the page before, whose line is in L1I alone: 30.
    (Class::Load, 0x3004, Some(0x9000), 0, 132), // 300 102; 900 300; 900 300
    (Class::Alu, 0x1020, None, 30, 1), // 102 300; 900 300; 102 900
    // Data: all hit, then another line of the page, then the line before, which L2 has lost.
    (Class::Load, 0x1024, Some(0x9004), 0, 2), // 102 300; 900 300; 900 102
    (Class::Load, 0x1024, Some(0x9010), 0, 102), // 102 300; 901 900; 901 102
    (Class::Load, 0x1028, Some(0x9000), 0, 2), // 102 300; 900 901; 900 102
    // Another page, and back: the line is in L1D alone.
    (Class::Load, 0x1028, Some(0x3000), 0, 132), // 102 300; 300 900; 300 102
    (Class::Load, 0x1028, Some(0x9000), 0, 32), // 102 300; 900 300; 900 102
    // A store takes 1 cycle, and touches all three: the load behind it hits.
    (Class::Store, 0x102C, Some(0x3000), 0, 1), // 102 300; 300 900; 300 102
    (Class::Load, 0x102C, Some(0x3004), 0, 2), // the same
    // Data in the line of the load itself, which is fetched first: L2 has it. 2 + 30 + 10.
    (Class::Load, 0x1020, Some(0x1028), 0, 42), // 102 300; 102 300; 102 300
    (Class::Load, 0x1024, Some(0x3008), 0, 32), // 102 300; 300 102; 300 102
    // The same in another line, of a page that the TLB of data has: 2 + 10.
    (Class::Load, 0x3010, Some(0x3014), 130, 12), // 301 102; 301 300; 301 300
    (Class::Store, 0x3018, Some(0x9000), 0, 1), // 301 102; 900 301; 900 301
    (Class::Load, 0x301C, Some(0x900B), 0, 2), // the same
    // The others wait for no data.
    (Class::Mul, 0x3010, None, 0, 3),
    (Class::Div, 0x3014, None, 0, 20),
    (Class::Control, 0x3018, None, 0, 1),
    (Class::Ecall, 0x301C, None, 0, 1), // 301 102; 900 301; 301 900
];

/// The stall or the delay of a load is the sum of 30 where the TLB misses, and of 10 or 100 where
/// the first cache misses and the second hits or misses. A load that hits takes 2.
#[test]
fn marks_every_combination(rt: HostRuntime) -> Result<(), Fail> {
    let config = tiny()?;
    let mut state = State::new(rt.alloc(), &config)?;
    annotate_all(&rt, &mut state, &config, COMBINATIONS.as_slice());
    let caches = state.caches();
    assert!(rt; holds(&caches.l1i, [0x301, 0x102].as_slice()));
    assert!(rt; holds(&caches.l1d, [0x900, 0x301].as_slice()));
    assert!(rt; holds(&caches.l2, [0x301, 0x900].as_slice()));
    assert!(rt; holds(&caches.itlb, [3].as_slice()));
    assert!(rt; holds(&caches.dtlb, [9].as_slice()));
    forget_instructions(&mut state);
    // The line is in L2 still.
    annotate_all(
        &rt,
        &mut state,
        &config,
        [(Class::Alu, 0x3010, None, 10, 1)].as_slice(),
    );
    Ok(())
}

#[test]
fn marks_transfers(rt: HostRuntime) -> Result<(), Fail> {
    let config = tiny()?;
    let mut state = State::new(rt.alloc(), &config)?;
    is_shared(&config);
    is_sent(&state);
    assert_eq!(rt; config.copied(), config);
    let taken = Flow::Branch { taken: true };
    let call = Flow::Jal { push: true };
    let jump = Flow::Jalr {
        pop: false,
        push: false,
    };
    // Whether each was mispredicted, and whether it transferred.
    let rows = [
        (taken, 0x1008, true, true),
        // Also to the instruction behind it.
        (taken, 0x1004, false, true),
        (Flow::Branch { taken: false }, 0x1004, true, false),
        (call, 0x2000, false, true),
        (jump, 0x2000, true, true),
        (jump, 0x2000, false, true),
        (jump, 0x2004, true, true),
        (Flow::Straight, 0x1004, false, false),
    ];
    for (control, next, mispredicted, transferred) in rows {
        let marks = state.annotate(&config, &event(Class::Control, 0x1000, None, control, next));
        assert_eq!(rt;
            (marks.mispredicted, marks.transferred),
            (mispredicted, transferred)
        );
    }
    // What is written to the part that is lent stays.
    state
        .predictor()
        .observe(&event(Class::Control, 0x1000, None, taken, 0x1008));
    state
        .predictor()
        .observe(&event(Class::Control, 0x1000, None, taken, 0x1008));
    let marks = state.annotate(&config, &event(Class::Control, 0x1000, None, taken, 0x1008));
    assert!(rt; !marks.mispredicted);
    let image = state.predictor().image()?;
    assert_eq!(rt;
        image.counters(),
        [3, 1, 1, 1, 1, 1, 1, 1, 1, 1, 1, 1, 1, 1, 1, 1].as_slice()
    );
    trace_laws();
    Ok(())
}
