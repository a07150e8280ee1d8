ghost use Rattle.std.specs.Prelude.{◌≡◌, ◌%◌, None, IfOk};
ghost use Rattle.rv_exec.specs.Event.{IsWellFormed};

use super::shapes;
use crate::{Images, LivePoint};
use hierarchy::Places;
use live_words::{Collector, Hashed, Words};
use predictor::{Predictor, PredictorKind, Scheme};
use recency_record::{Entry, Record, Snapshot};
use rv_exec::{Core, Event, Memory, step};
use sample_design::Design;
use std::alloc::Global;
use std::process::Abort;
use std::test::Fail;

/// Sets a word, and then changes another one again and again, in a function that it calls.
const PROGRAM: [(u32, u32); 11] = [
    (0x1000, 0x0070_0293), // addi x5, x0, 7
    (0x1004, 0x0000_2137), // lui x2, 2
    (0x1008, 0x0051_2023), // sw x5, 0(x2)
    (0x100C, 0x0080_00EF), // jal x1, 8
    (0x1010, 0xFE00_0EE3), // beq x0, x0, -4
    (0x1014, 0x0101_2383), // lw x7, 16(x2)
    (0x1018, 0x0013_8393), // addi x7, x7, 1
    (0x101C, 0x0071_2823), // sw x7, 16(x2)
    (0x1020, 0x0000_8067), // jalr x0, 0(x1)
    (0x2000, 0x11),
    (0x2010, 5),
];

const DESIGN: Design = Design {
    unit: 16,
    warm: 3,
    every: 1,
    offset: 0,
    seed: 1,
    budget: 64,
};

const KIND: PredictorKind = PredictorKind {
    scheme: Scheme::Bimodal,
    bits: 4,
    target_log: 2,
    depth: 2,
};

/// What a unit's point keeps.
#[derive(Clone, Copy)]
struct Wanted {
    pc: u32,
    /// Registers 0 to 7. The others are 0.
    regs: [u32; 8],
    words: &'static [(u32, u32)],
    /// Of each record the number of references, and the entries of its first two sets.
    places: [(u64, &'static [Entry], &'static [Entry]); 5],
    counters: [u8; 16],
    stack: &'static [u32],
}

const WANTED: [Wanted; 2] = [
    // All begins here. Each word has the value that is found first.
    Wanted {
        pc: 0x1000,
        regs: [0; 8],
        words: &PROGRAM,
        places: [(0, &[], &[]); 5],
        counters: [1; 16],
        stack: &[],
    },
    // Three instructions before the second sixteen, in the second call, where the function returns. What was
    // stored before is found; the word that the program sets first isn't touched again.
    Wanted {
        pc: 0x1020,
        regs: [0, 0x1010, 0x2000, 0, 0, 7, 0, 7],
        words: &[
            (0x100C, 0x0080_00EF),
            (0x1010, 0xFE00_0EE3),
            (0x1014, 0x0101_2383),
            (0x1018, 0x0013_8393),
            (0x101C, 0x0071_2823),
            (0x1020, 0x0000_8067),
            (0x2010, 7),
        ],
        places: [
            (
                13,
                &[
                    Entry {
                        block: 0x101,
                        time: 12,
                    },
                    Entry {
                        block: 0x100,
                        time: 9,
                    },
                ],
                &[],
            ),
            (
                5,
                &[
                    Entry {
                        block: 0x201,
                        time: 4,
                    },
                    Entry {
                        block: 0x200,
                        time: 0,
                    },
                ],
                &[],
            ),
            (
                18,
                &[
                    Entry {
                        block: 0x100,
                        time: 12,
                    },
                    Entry {
                        block: 0x102,
                        time: 10,
                    },
                ],
                &[
                    Entry {
                        block: 0x201,
                        time: 17,
                    },
                    Entry {
                        block: 0x101,
                        time: 16,
                    },
                ],
            ),
            (13, &[Entry { block: 1, time: 12 }], &[]),
            (5, &[Entry { block: 2, time: 4 }], &[]),
        ],
        counters: [1, 1, 1, 1, 2, 1, 1, 1, 1, 1, 1, 1, 1, 1, 1, 1],
        stack: &[0x1010],
    },
];

/// What is kept of the instructions before a window.
#[derive(Drop)]
struct Kept {
    records: Places<Record>,
    predictor: Predictor,
}

/// A record of few references goes on.
fn refer(record: &mut Record, addr: u32) {
    if record.time() < 64 {
        record.refer(addr);
    }
}

impl Kept {
    fn new(alloc: Global) -> Result<Kept, Fail> {
        let shapes = shapes()?;
        Ok(Kept {
            records: Places {
                l1i: Record::new(alloc, shapes.l1i)?,
                l1d: Record::new(alloc, shapes.l1d)?,
                l2: Record::new(alloc, shapes.l2)?,
                itlb: Record::new(alloc, shapes.itlb)?,
                dtlb: Record::new(alloc, shapes.dtlb)?,
            },
            predictor: Predictor::new(alloc, KIND)?,
        })
    }

    fn see(&mut self, event: &Event)
        requires { IsWellFormed event.now }
    {
        refer(&mut self.records.l1i, event.pc);
        refer(&mut self.records.itlb, event.pc);
        refer(&mut self.records.l2, event.pc);
        if let Some(access) = event.access {
            refer(&mut self.records.l1d, access.addr);
            refer(&mut self.records.dtlb, access.addr);
            refer(&mut self.records.l2, access.addr);
        }
        self.predictor.observe(event);
    }

    fn places(&self) -> Result<Places<Snapshot>, Fail> {
        Ok(Places {
            l1i: self.records.l1i.snapshot()?,
            l1d: self.records.l1d.snapshot()?,
            l2: self.records.l2.snapshot()?,
            itlb: self.records.itlb.snapshot()?,
            dtlb: self.records.dtlb.snapshot()?,
        })
    }
}

/// The next instruction, which is to be done.
fn next<M: Memory>(core: &mut Core, memory: &mut M) -> Result<Event, Fail>
    requires { M.sound memory.old }
    ensures sound { M.sound memory.new }
    ensures well_formed { IfOk result IsWellFormed }
{
    if core.exit.is_some() {
        return Err("it has exited".into());
    }
    match step(core, memory) {
        Ok(event) => Ok(event),
        Err(_) => Err("a trap".into()),
    }
}

/// Keeps what comes of so many instructions.
fn pass<M: Memory>(kept: &mut Kept, core: &mut Core, memory: &mut M, count: u64) -> Result<(), Fail>
    requires { M.sound memory.old }
    ensures { M.sound memory.new }
{
    for _ in 0..count {
        let event = next(core, memory)?;
        kept.see(&event);
    }
    Ok(())
}

/// The words that so many instructions touch.
fn touched<M: Memory>(
    alloc: Global,
    core: &mut Core,
    memory: &mut M,
    len: u32,
) -> Result<Words, Fail>
    requires { M.sound memory.old }
{
    let mut collector = Collector::new(alloc)?;
    for _ in 0..len {
        let event = next(core, memory)?;
        collector.touch(event.pc, event.fetched)?;
        if let Some(access) = event.access {
            collector.touch(access.addr / 4 * 4, access.before)?;
        }
    }
    Ok(collector.finish()?)
}

/// The point of a unit, by a pass over the program.
fn point_by_pass(alloc: Global, unit: u32) -> Result<LivePoint, Fail> {
    let window = DESIGN.window(u64::from(unit));
    let Ok(words) = Words::from_pairs(alloc, &PROGRAM) else {
        return Err("no such words".into());
    };
    let mut slots = Vec::new(alloc);
    slots.resize(2 * words.len(), 0)?;
    let mut memory = Hashed::over(&words, slots.as_mut_slice());
    let mut core = Core {
        pc: 0x1000,
        regs: [0; 32],
        brk: 0x3000,
        heap_low: 0x3000,
        exit: None,
    };
    let mut kept = Kept::new(alloc)?;
    pass(&mut kept, &mut core, &mut memory, window.start)?;
    let (pc, regs, brk) = (core.pc, core.regs, core.brk);
    let words = touched(alloc, &mut core, &mut memory, window.len)?;
    let mut images = Vec::new(alloc);
    images.push(kept.predictor.image()?)?;
    Ok(LivePoint {
        unit,
        pc,
        regs,
        brk,
        words,
        places: kept.places()?,
        images: Images::from_list(images),
    })
}

/// The entries of a set, if there is one of this number.
fn entries(snapshot: &Snapshot, set: u32) -> &[Entry] {
    if set < snapshot.geometry().sets() {
        snapshot.entries(set)
    } else {
        &[]
    }
}

/// Compares a record with what is wanted of it.
fn compare(rt: &impl Abort, snapshot: &Snapshot, wanted: (u64, &[Entry], &[Entry])) {
    assert_eq!(rt; snapshot.time(), wanted.0);
    assert_eq!(rt; entries(snapshot, 0), wanted.1);
    assert_eq!(rt; entries(snapshot, 1), wanted.2);
}

/// The points of two units, worked out by hand.
#[test]
fn keeps_what_a_window_needs(rt: HostRuntime) -> Result<(), Fail> {
    for index in 0..WANTED.len() {
        let (unit, wanted) = (index as u32, &WANTED[index]);
        let point = point_by_pass(rt.alloc(), unit)?;
        assert_eq!(rt;
            (point.unit, point.pc, point.brk),
            (unit, wanted.pc, 0x3000)
        );
        assert_eq!(rt; &point.regs[..8], wanted.regs.as_slice());
        assert_eq!(rt; &point.regs[8..], [0; 24].as_slice());
        assert_eq!(rt; point.words.as_slice(), wanted.words);
        compare(&rt, &point.places.l1i, wanted.places[0]);
        compare(&rt, &point.places.l1d, wanted.places[1]);
        compare(&rt, &point.places.l2, wanted.places[2]);
        compare(&rt, &point.places.itlb, wanted.places[3]);
        compare(&rt, &point.places.dtlb, wanted.places[4]);
        let image = point.images.at(0);
        assert_eq!(rt; image.counters(), wanted.counters.as_slice());
        assert_eq!(rt; image.history(), 0);
        assert_eq!(rt; image.targets(), [(1, 0); 4].as_slice());
        assert_eq!(rt; image.stack(), wanted.stack);
    }
    Ok(())
}
