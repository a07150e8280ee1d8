// Libraries of small programs, worked out by hand.

ghost use Rattle.std.specs.Prelude.{All, IfOk};
ghost use Rattle.hierarchy.specs.Config.{ArePlaces};
ghost use Rattle.predictor.specs.Kind.{IsKind};
ghost use Rattle.warming.specs.Learning.{AreUsable};

use super::*;
use elf_image::{Image, read_image};
use hierarchy::Places;
use live_points::{Kinds, LivePoint, Records};
use lru_plain::Geometry;
use predictor::{PredictorKind, Scheme};
use recency_record::{Entry, Snapshot};
use rv_exec::{Trap, TrapKind};
use sample_design::{Design, UnitsFault};
use smarts_base::Refusal;
use std::alloc::Global;
use std::process::Abort;
use std::test::Fail;

/// The headers of an ELF file for RISC-V, as far as the two sizes of its one segment, which stands
/// behind them in the file and at 0x00010054 in memory.
const FRONT: [u8; 68] = [
    0x7F, 0x45, 0x4C, 0x46, 1, 1, 1, 0, 0, 0, 0, 0, 0, 0, 0, 0, //
    2, 0, 0xF3, 0, 1, 0, 0, 0, 0x54, 0, 1, 0, 0x34, 0, 0, 0, //
    0, 0, 0, 0, 0, 0, 0, 0, 0x34, 0, 0x20, 0, 1, 0, 0, 0, 0, 0, 0, 0, //
    1, 0, 0, 0, 0x54, 0, 0, 0, 0x54, 0, 1, 0, 0x54, 0, 1, 0,
];

const BACK: [u8; 8] = [5, 0, 0, 0, 4, 0, 0, 0];

const ILLEGAL: [u32; 1] = [0];

const ENDLESS: [u32; 1] = [0x0000_006F];

const EXIT: [u32; 3] = [0x0000_0513, 0x05D0_0893, 0x0000_0073];

/// Stores 10 down to 1 at one place.
const STORES: [u32; 7] = [
    0x00A0_0293, // addi x5, x0, 10
    0xFE51_2E23, // sw x5, -4(x2)
    0xFFF2_8293, // addi x5, x5, -1
    0xFE02_9CE3, // bne x5, x0, -8
    0x0000_0513,
    0x05D0_0893,
    0x0000_0073,
];

const DESIGN: Design = Design {
    unit: 16,
    warm: 4,
    every: 1,
    offset: 0,
    seed: 1,
    budget: 100,
};

const BIMODAL: PredictorKind = PredictorKind {
    scheme: Scheme::Bimodal,
    bits: 4,
    target_log: 2,
    depth: 0,
};

const GSHARE: PredictorKind = PredictorKind {
    scheme: Scheme::Gshare,
    bits: 4,
    target_log: 2,
    depth: 0,
};

fn image(alloc: Global, program: &[u32]) -> Result<Image, Fail> {
    let words = u32::try_from(program.len()).unwrap_or(0);
    let size = words.wrapping_mul(4).to_le_bytes();
    let mut file = Vec::new(alloc);
    file.extend_from_slice(&FRONT)?;
    file.extend_from_slice(&size)?;
    file.extend_from_slice(&size)?;
    file.extend_from_slice(&BACK)?;
    for word in program {
        file.extend_from_slice(&word.to_le_bytes())?;
    }
    match read_image(alloc, &file) {
        Ok(image) => Ok(image),
        Err(_) => Err("no image".into()),
    }
}

/// Caches of two lines of 16 bytes, and TLBs of one page.
fn places() -> Result<Places<Geometry>, Fail>
    ensures { IfOk result ArePlaces }
{
    let two_lines = Geometry::new(4, 0, 2).ok_or("no such cache")?;
    let one_page = Geometry::new(12, 0, 1).ok_or("no such TLB")?;
    Ok(Places {
        l1i: two_lines,
        l1d: two_lines,
        l2: two_lines,
        itlb: one_page,
        dtlb: one_page,
    })
}

fn kinds() -> Result<Kinds, Fail>
    ensures { IfOk result (λ kinds. All IsKind kinds) }
{
    let mut kinds = Kinds::one(BIMODAL);
    if !kinds.add(GSHARE) {
        return Err("twice the same kind".into());
    }
    Ok(kinds)
}

fn records() -> Result<Records, Fail>
    ensures { IfOk result AreUsable }
{
    Ok(Records {
        places: places()?,
        kinds: kinds()?,
    })
}

fn fault_of(alloc: Global, program: &[u32]) -> Result<Option<Refusal<WarmFault>>, Fail> {
    let image = image(alloc, program)?;
    Ok(warm(alloc, &image, &DESIGN, &records()?).err())
}

/// A run that traps, one that goes on, and one of no whole unit have no library.
#[test]
fn names_the_first_fault(rt: HostRuntime) -> Result<(), Fail> {
    let trapped = WarmFault::Trapped {
        at: 0,
        trap: Trap {
            kind: TrapKind::Illegal,
            pc: 0x0001_0054,
        },
    };
    let short = WarmFault::Units(UnitsFault::NoUnits { length: 3 });
    assert_eq!(rt;
        fault_of(rt.alloc(), &ILLEGAL)?,
        Some(Refusal::Fault(trapped))
    );
    assert_eq!(rt;
        fault_of(rt.alloc(), &ENDLESS)?,
        Some(Refusal::Fault(WarmFault::Spent))
    );
    assert_eq!(rt; fault_of(rt.alloc(), &EXIT)?, Some(Refusal::Fault(short)));
    Ok(())
}

/// What a point keeps of the two kinds' tables, of the first cache's record, and of the other records' times.
#[derive(Clone, Copy)]
struct Wanted {
    unit: u32,
    pc: u32,
    counter: u32,
    words: [(u32, u32); 5],
    entries: &'static [Entry],
    times: [u64; 5],
    bimodal: [u8; 16],
    gshare: [u8; 16],
    history: u32,
}

/// The second unit is visited first. Its window begins four instructions before it, at the fourth branch.
const WANTED: [Wanted; 2] = [
    Wanted {
        unit: 1,
        pc: 0x0001_0060,
        counter: 6,
        words: [
            (0x0001_0058, 0xFE51_2E23),
            (0x0001_005C, 0xFFF2_8293),
            (0x0001_0060, 0xFE02_9CE3),
            (0x0001_0064, 0x0000_0513),
            (0x7FFF_EFFC, 7),
        ],
        entries: &[
            Entry {
                block: 0x1005,
                time: 11,
            },
            Entry {
                block: 0x1006,
                time: 9,
            },
        ],
        times: [12, 4, 16, 12, 4],
        bimodal: [1, 1, 1, 1, 1, 1, 1, 1, 3, 1, 1, 1, 1, 1, 1, 1],
        gshare: [1, 1, 1, 1, 1, 1, 1, 1, 2, 2, 1, 2, 1, 1, 1, 1],
        history: 7,
    },
    Wanted {
        unit: 0,
        pc: 0x0001_0054,
        counter: 0,
        words: [
            (0x0001_0054, 0x00A0_0293),
            (0x0001_0058, 0xFE51_2E23),
            (0x0001_005C, 0xFFF2_8293),
            (0x0001_0060, 0xFE02_9CE3),
            (0x7FFF_EFFC, 0),
        ],
        entries: &[],
        times: [0; 5],
        bimodal: [1; 16],
        gshare: [1; 16],
        history: 0,
    },
];

/// The words of the loop stand in both windows.
const SHARED: [(u32, u32); 3] = [
    (0x0001_0058, 0xFE51_2E23),
    (0x0001_005C, 0xFFF2_8293),
    (0x0001_0060, 0xFE02_9CE3),
];

/// The entries of the first set.
fn entries(snapshot: &Snapshot) -> &[Entry] {
    if 0 < snapshot.geometry().sets() {
        snapshot.entries(0)
    } else {
        &[]
    }
}

fn compare(rt: &impl Abort, point: &LivePoint, wanted: &Wanted) -> Result<(), Fail> {
    let places = &point.places;
    assert_eq!(rt;
        (point.unit, point.pc, point.brk),
        (wanted.unit, wanted.pc, 0x0001_1000)
    );
    assert_eq!(rt;
        (point.regs[2], point.regs[5]),
        (0x7FFF_F000, wanted.counter)
    );
    assert_eq!(rt; point.words.as_slice(), wanted.words.as_slice());
    assert_eq!(rt; entries(&places.l1i), wanted.entries);
    let times = [
        places.l1i.time(),
        places.l1d.time(),
        places.l2.time(),
        places.itlb.time(),
        places.dtlb.time(),
    ];
    assert_eq!(rt; times, wanted.times);
    if point.images.len() < 2 {
        return Err("a kind is missing".into());
    }
    let (bimodal, gshare) = (point.images.at(0), point.images.at(1));
    assert_eq!(rt; bimodal.counters(), wanted.bimodal.as_slice());
    assert_eq!(rt; gshare.counters(), wanted.gshare.as_slice());
    assert_eq!(rt; (bimodal.history(), gshare.history()), (0, wanted.history));
    Ok(())
}

/// A run of two units, in the order of visits.
#[test]
fn keeps_each_window(rt: HostRuntime) -> Result<(), Fail> {
    let image = image(rt.alloc(), &STORES)?;
    let Ok(library) = warm(rt.alloc(), &image, &DESIGN, &records()?) else {
        return Err("the run is refused".into());
    };
    let header = library.header();
    assert_eq!(rt; (header.version, header.length, header.points), (2, 34, 2));
    assert_eq!(rt; (header.heap_low, header.design.budget), (0x0001_1000, 1));
    assert_eq!(rt;
        header.records.kinds.as_slice(),
        [BIMODAL, GSHARE].as_slice()
    );
    assert_eq!(rt; library.shared().as_slice(), SHARED.as_slice());
    let [first, second] = library.points() else {
        return Err("there are other points".into());
    };
    compare(&rt, first, &WANTED[0])?;
    compare(&rt, second, &WANTED[1])?;
    Ok(())
}
